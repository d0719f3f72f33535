ghost use Rattle.std.specs.Prelude.{◌≡◌, ◌≤◌, ◌||◌, length, IfSome, not};
ghost use Rattle.assignability.specs.Views.{failure_view};
ghost use Rattle.type_rules.specs.Places.{members_depth};
ghost use Rattle.type_trees.specs.Bridge.{type_shape, members_shape};
ghost use Rattle.type_trees.specs.View.{members_tree};
ghost use Rattle.xcdr_model.specs.Failure as spec;
ghost use Rattle.xcdr_model.specs.Keys.{key_fit};
ghost use Rattle.xt_shapes.specs.Lists.{is_some_and};
ghost use Rattle.xt_shapes.specs.Select.{shape_at};

use crate::keys::has_key_fit;
use crate::verdict::{Failure, beneath, here};
use node_judge::same_counted;
use type_trees::Member;
use xcdr_model::Rule;
use xt_shapes::Step;

fn key_fits(member: &Member, others: &[Member]) -> bool
    ensures { result ≡ (not member.now.key || is_some_and (shape_at (members_shape others.now) member.now.id) (λ u. key_fit (type_shape member.now.ty) u)) }
{
    !member.key || has_key_fit(member, others)
}

fn key_failure(left: &[Member], right: &[Member]) -> Option<Failure>
    ensures value { failure_view result ≡ spec.key_failure (members_shape left.now) (members_shape right.now) }
    ensures short { IfSome result (λ f. length f.path ≤ members_depth (members_tree left.now)) }
{
    for member in left {
        if !key_fits(member, right) {
            return Some(beneath(Step::Member(member.id), here(Rule::KeyFit)));
        }
    }
    None
}

/// The rules on keys, which only the top pair has.
#[tactic(auto, using(node_judge::proofs::Failing::step_rules, crate::proofs::Heads::head_rules))]
pub(crate) fn top_failure(top: bool, left: &[Member], right: &[Member]) -> Option<Failure>
    ensures value { failure_view result ≡ spec.top_rules top (members_shape left.now) (members_shape right.now) }
    ensures short { IfSome result (λ f. length f.path ≤ members_depth (members_tree left.now)) }
{
    if !top {
        return None;
    }
    if !same_counted(true, left, true, right) {
        return Some(here(Rule::KeySet));
    }
    key_failure(left, right)
}
