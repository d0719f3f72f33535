// Members by id.
ghost use Rattle.std.specs.Prelude.{◌≤◌, length, MatchOption};
ghost use Rattle.try_construct.specs.Found.{IsAt, IsFound, LacksBetween};

use type_trees::Member;

/// The index of the first member with that id, among those from `start` to `end`.
fn index_between(members: &[Member], id: u32, start: usize, end: usize) -> Option<usize>
    requires { end ≤ length members.now }
    ensures { MatchOption result (LacksBetween members.now id start end) (λ at. IsAt members.now id at) }
{
    for at in start..end {
        if members[at].id == id {
            return Some(at);
        }
    }
    None
}

/// The index of a member with that id. It is looked for from `start` on, and then before it, so that members that come in one
/// order are found at once.
pub(crate) fn index_of(members: &[Member], id: u32, start: usize) -> Option<usize>
    ensures { IsFound members.now id result }
{
    let start = start.min(members.len());
    match index_between(members, id, start, members.len()) {
        Some(at) => Some(at),
        None => index_between(members, id, 0, start),
    }
}
