// Members by id.
ghost use Rattle.std.specs.Prelude.{◌≡◌, true};
ghost use Rattle.type_trees.specs.Bridge.{members_shape};
ghost use Rattle.xcdr_model.specs.Premises.{distinct_members};
ghost use Rattle.xcdr_steps.specs.reading.Indices.{index_of};

use type_trees::Member;

#[tactic(auto, using(crate::proofs::OfReading::ByIndex::index_rules))]
fn search(members: &[Member], id: u32) -> Option<usize>
    ensures { result ≡ index_of (members_shape members.now) id }
{
    for (at, member) in members.iter().enumerate() {
        if member.id == id {
            return Some(at);
        }
    }
    None
}

/// The index of the member with that id. A member that stands at `next` is found at once.
pub fn find_member(members: &[Member], next: usize, id: u32) -> Option<usize>
    requires { distinct_members (members_shape members.now) ≡ true }
    ensures { result ≡ index_of (members_shape members.now) id }
{
    if next < members.len() && members[next].id == id {
        return Some(next);
    }
    search(members, id)
}
