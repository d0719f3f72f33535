// What was found of a stream's type, as it is kept for the streams that follow.
ghost use Rattle.std.specs.Prelude.{◌≡◌, IfSome, IsTrue};
ghost use Rattle.assignability.specs.Views.{verdict_view};

use assignability::Verdict;
use type_trees::{HashId, Path};
use xt_shapes::Rep;

/// The steps that a path has at most.
const MOST_STEPS: usize = 16;

fn copy_path(path: &Path) -> Option<Path>
    ensures { IfSome result (λ copy. copy ≡ path.now) }
{
    if MOST_STEPS < path.len() {
        return None;
    }
    let mut copy = Path::empty();
    for index in 0..path.len() {
        copy.push(path.at(index));
    }
    Some(copy)
}

// A copy. A path of more steps than any path has is not copied.
fn copy_verdict(verdict: &Verdict) -> Option<Verdict>
    ensures { IfSome result (λ copy. verdict_view copy ≡ verdict_view verdict.now) }
{
    match verdict {
        Verdict::Yes => Some(Verdict::Yes),
        Verdict::No { rule, path } => match copy_path(path) {
            Some(path) => Some(Verdict::No { rule: *rule, path }),
            None => None,
        },
    }
}

/// The verdict of a stream's type and representation.
#[derive(Drop)]
pub(crate) struct Found {
    pub(crate) id: HashId,
    pub(crate) rep: Rep,
    pub(crate) verdict: Verdict,
}

impl Found {
    /// Keeps a copy of a verdict.
    pub(crate) fn new(id: HashId, rep: Rep, verdict: &Verdict) -> Option<Found>
        ensures id { IfSome result (λ found. found.id ≡ id) }
        ensures rep { IfSome result (λ found. found.rep ≡ rep) }
        ensures verdict { IfSome result (λ found. verdict_view found.verdict ≡ verdict_view verdict.now) }
    {
        match copy_verdict(verdict) {
            Some(verdict) => Some(Found { id, rep, verdict }),
            None => None,
        }
    }

    fn is_of(&self, id: &HashId, rep: Rep) -> bool
        ensures id { IsTrue result → self.now.id ≡ id.now }
        ensures rep { IsTrue result → self.now.rep ≡ rep }
    {
        self.id == *id && self.rep == rep
    }

    /// A copy of the verdict, where it is that of this type and representation.
    pub(crate) fn verdict(&self, id: &HashId, rep: Rep) -> Option<Verdict>
        ensures id { IfSome result (λ verdict. self.now.id ≡ id.now) }
        ensures rep { IfSome result (λ verdict. self.now.rep ≡ rep) }
        ensures verdict { IfSome result (λ verdict. verdict_view verdict ≡ verdict_view self.now.verdict) }
    {
        if !self.is_of(id, rep) {
            return None;
        }
        copy_verdict(&self.verdict)
    }
}
