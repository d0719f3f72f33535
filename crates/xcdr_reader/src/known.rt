// What came of a mutable structure's members so far.
ghost use Rattle.std.specs.Prelude.{◌≡◌, ◌<◌, [], ◌++◌, ◌||◌, true, false, length, Some, IfOk, IfSome, IsTrue, OnOk};
ghost use Rattle.type_trees.specs.Bridge.{members_shape};
ghost use Rattle.xcdr_model.specs.Premises.{distinct_members};
ghost use Rattle.xcdr_model.specs.Projection.{whole_structure};
ghost use Rattle.try_construct.specs.Members.{by_member};
ghost use Rattle.settled_parts.specs.Parts.{part_of};
ghost use Rattle.xcdr_reader.specs.Members.{Pieces, Holds, IsIndexed, IsNew, IsPlace, IsWithin, piece_of};
ghost use Rattle.xcdr_steps.specs.reading.Indices.{index_of};

use settled_parts::Part;
use std::alloc::Global;
use try_construct::{MemberSlots, slot_from};
use type_trees::Member;
use xcdr_steps::index::MemberIndex;
use xcdr_steps::reading::{Header, find_member};
use xt_lists::OutOfMemory;
use xt_wire::cursor::DecodeFault;

/// How many members are gone through one by one.
const FEW: usize = 16;

/// The slots of the members that came, where the next is looked for first, an index of many members once they come in another order than
/// the declared one, and whether a marked member came that the reader lacks.
#[derive(Drop)]
pub(crate) struct Known {
    slots: MemberSlots,
    next: usize,
    index: Option<MemberIndex>,
    unseen: bool,
}

/// A member that came under its header.
#[derive(Drop)]
pub(crate) enum Piece {
    /// One that the reader lacks, with its must_understand mark or not.
    Unknown(bool),
    /// What is read of the member with that index and id.
    Came(usize, u32, Part),
}

// Whether the member with that index has that id.
fn is_at(members: &[Member], at: usize, id: u32) -> bool
    requires { distinct_members (members_shape members.now) ≡ true }
    ensures { IsTrue result → index_of (members_shape members.now) id ≡ Some at }
{
    at < members.len() && members[at].id == id
}

impl Known {
    pub(crate) fn new(alloc: Global, members: &[Member]) -> Result<Known, OutOfMemory>
        ensures { IfOk result (λ k. Holds (members_shape members.now) k ([], false)) }
    {
        Ok(Known {
            slots: MemberSlots::new(alloc, members.len())?,
            next: 0,
            index: None,
            unseen: false,
        })
    }

    /// The index of the member with that id. The one behind the last that came is found at once.
    fn find(&self, members: &[Member], id: u32) -> Option<usize>
        requires apart { distinct_members (members_shape members.now) ≡ true }
        requires indexed { IsIndexed (members_shape members.now) self.now }
        ensures { result ≡ index_of (members_shape members.now) id }
    {
        if is_at(members, self.next, id) {
            return Some(self.next);
        }
        match &self.index {
            None => find_member(members, self.next, id),
            Some(index) => index.find(id),
        }
    }

    /// The index of this header's member, or none where the reader lacks it. Twice where it came before.
    pub(crate) fn place(
        &self,
        members: &[Member],
        header: Header,
    ) -> Result<Option<usize>, DecodeFault>
        requires apart { distinct_members (members_shape members.now) ≡ true }
        requires count { length (by_member self.now.slots).1 ≡ length members.now }
        requires indexed { IsIndexed (members_shape members.now) self.now }
        ensures place { IsPlace (members_shape members.now) self.now header result }
        ensures within { IfOk result (λ found. IfSome found (λ at. at < length members.now)) }
    {
        match self.find(members, header.id) {
            None => Ok(None),
            Some(at) => Ok(Some(header.once(at, self.slots.has(at))?)),
        }
    }

    // Makes the index, where there are many members.
    fn hold_index(&mut self, alloc: Global, members: &[Member]) -> Result<(), OutOfMemory>
        ensures slots { OnOk result (self.new.slots ≡ self.old.slots) }
        ensures unseen { OnOk result (self.new.unseen ≡ self.old.unseen) }
        ensures indexed { OnOk result (IsIndexed (members_shape members.now) self.old → IsIndexed (members_shape members.now) self.new) }
    {
        if self.index.is_some() || members.len() <= FEW {
            return Ok(());
        }
        self.index = Some(MemberIndex::new(alloc, members)?);
        Ok(())
    }

    // The member with that index came.
    fn went_on(&mut self, alloc: Global, members: &[Member], at: usize) -> Result<(), OutOfMemory>
        requires { at < length members.now }
        ensures slots { OnOk result (self.new.slots ≡ self.old.slots) }
        ensures unseen { OnOk result (self.new.unseen ≡ self.old.unseen) }
        ensures indexed { OnOk result (IsIndexed (members_shape members.now) self.old → IsIndexed (members_shape members.now) self.new) }
    {
        let in_order = at == self.next;
        self.next = at + 1;
        if in_order {
            return Ok(());
        }
        self.hold_index(alloc, members)
    }

    /// Keeps a piece: what came of a member is settled by the member's setting.
    #[inline(always)]
    pub(crate) fn keep(
        &mut self,
        alloc: Global,
        members: &[Member],
        piece: Piece,
    ) -> Result<(), OutOfMemory>
        requires apart { distinct_members (members_shape members.now) ≡ true }
        requires count { length (by_member self.old.slots).1 ≡ length members.now }
        requires new { IsNew (members_shape members.now) self.old piece }
        requires within { IsWithin (length members.now) piece }
        ensures { OnOk result ((ps : Pieces) → Holds (members_shape members.now) self.old ps → Holds (members_shape members.now) self.new (ps.0 ++ (piece_of piece).0, ps.1 || (piece_of piece).1)) }
    {
        match piece {
            Piece::Unknown(must) => {
                self.unseen = self.unseen || must;
                self.hold_index(alloc, members)?;
                Ok(())
            }
            Piece::Came(at, _, part) => {
                let settled = slot_from(alloc, &members[at], Some(part))?;
                self.slots.put(at, settled);
                self.went_on(alloc, members, at)?;
                Ok(())
            }
        }
    }

    /// The structure: a member that has not come has its default.
    pub(crate) fn part(self, alloc: Global, members: &[Member]) -> Result<Part, OutOfMemory>
        requires { length (by_member self.slots).1 ≡ length members.now }
        ensures { IfOk result (λ p. (ps : Pieces) → Holds (members_shape members.now) self ps → part_of p ≡ whole_structure (members_shape members.now) ps.0 ps.1) }
    {
        let Known {
            slots,
            next: _,
            index: _,
            unseen,
        } = self;
        Ok(slots.part(alloc, members)?.with_unseen(unseen))
    }
}
