ghost use Rattle.std.specs.Prelude.{◌≡◌, ◌==◌, length, cond, Some, None};
ghost use Rattle.std.specs.List.{slice_get, zip};
ghost use Rattle.std.specs.Option.{option_map};
ghost use Rattle.object_formats.specs.View.{identifier};
ghost use Rattle.pair_judge.specs.Beside.{is_even, pairs, types_of};

use node_judge::{same_case_head, same_head};
use object_formats::TypeIdentifier;
use pair_memo::nodes::{Arm, Part};

/// The members of two structures or the cases of two unions, side by side.
#[derive(Clone, Copy)]
pub(crate) enum Branches<'s, 'p> {
    Members(&'s [Part<'p>], &'s [Part<'p>]),
    Cases(&'s [Arm<'p>], &'s [Arm<'p>]),
}

fn if_even(count: usize, other: usize) -> Option<usize>
    ensures { result ≡ cond (count == other) (Some count) None }
{
    if count == other { Some(count) } else { None }
}

/// The two at a place of two lists.
#[tactic(auto, using(crate::proofs::Beside::zip_rules))]
fn both_at<'s, T>(left: &'s [T], right: &'s [T], at: usize) -> Option<(&'s T, &'s T)>
    ensures { option_map (λ p. (p.0.now, p.1.now)) result ≡ slice_get (zip left.now right.now) at }
{
    Some((left.get(at)?, right.get(at)?))
}

fn if_alike<'p>(
    alike: bool,
    left: &'p TypeIdentifier,
    right: &'p TypeIdentifier,
) -> Option<(&'p TypeIdentifier, &'p TypeIdentifier)>
    ensures { option_map (λ p. (identifier p.0.now, identifier p.1.now)) result ≡ types_of (Some (alike, identifier left.now, identifier right.now)) }
{
    if alike { Some((left, right)) } else { None }
}

impl<'p> Branches<'_, 'p> {
    /// How many there are on each side; None where one has more.
    #[tactic(auto, using(crate::proofs::Beside::pair_rules))]
    pub(crate) fn count(&self) -> Option<usize>
        ensures { result ≡ cond (is_even self.now) (Some (length (pairs self.now))) None }
    {
        match self {
            Branches::Members(left, right) => if_even(left.len(), right.len()),
            Branches::Cases(left, right) => if_even(left.len(), right.len()),
        }
    }

    /// The types of the two at a place; None where the two differ in all but their types.
    #[tactic(auto, using(crate::proofs::Beside::pair_rules))]
    pub(crate) fn types_at(&self, at: usize) -> Option<(&'p TypeIdentifier, &'p TypeIdentifier)>
        ensures { option_map (λ p. (identifier p.0.now, identifier p.1.now)) result ≡ types_of (slice_get (pairs self.now) at) }
    {
        match self {
            Branches::Members(left, right) => {
                let (one, two) = both_at(left, right, at)?;
                if_alike(same_head(one, two), one.ty, two.ty)
            }
            Branches::Cases(left, right) => {
                let (one, two) = both_at(left, right, at)?;
                if_alike(same_case_head(one, two), one.ty, two.ty)
            }
        }
    }
}
