ghost use Rattle.std.specs.Prelude.{◌≡◌, IfOk};
ghost use Rattle.type_trees.specs.Bridge.{members_shape};
ghost use Rattle.xcdr_steps.specs.reading.Indices.{index_of};
ghost use Rattle.xcdr_steps.specs.index.Indexed.{IsIndexOf};
ghost use Rattle.xt_shapes.specs.Shape.{Members};

use std::alloc::Global;
use std::collections::BTreeMap;
use type_trees::Member;
use xt_lists::OutOfMemory;

/// The indices of a structure's members by their ids. A look-up takes as many steps as the number of members has bits, whatever the
/// ids are.
#[derive(Drop)]
pub struct MemberIndex {
    by_id: BTreeMap<u32, usize>,
}

impl MemberIndex {
    /// The index of these members. It takes memory in their number.
    pub fn new(alloc: Global, members: &[Member]) -> Result<MemberIndex, OutOfMemory>
        ensures { IfOk result (IsIndexOf (members_shape members.now)) }
    {
        let mut by_id = BTreeMap::new(alloc);
        let mut at = members.len();
        // from the last, so that the first member with an id is kept
        'members: while at > 0 {
            at -= 1;
            by_id.insert(members[at].id, at)?;
        }
        Ok(MemberIndex { by_id })
    }

    /// The index of the first member with that id. It takes no memory.
    pub fn find(&self, id: u32) -> Option<usize>
        ensures { (ms : Members) → IsIndexOf ms self.now → result ≡ index_of ms id }
    {
        match self.by_id.get(&id) {
            Some(at) => Some(*at),
            None => None,
        }
    }
}
