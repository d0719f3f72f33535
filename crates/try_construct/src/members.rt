// The slots of a structure, gathered as they come.
ghost use Rattle.std.specs.Prelude.{◌≡◌, ◌<◌, ◌||◌, List, Option, [], false, true, length, replicate, map, slice_get, OnOk, IfOk, Some, None, is_some};
ghost use Rattle.std.specs.Option.{option_map};
ghost use Rattle.type_trees.specs.Bridge.{type_shape, members_shape, member_head};
ghost use Rattle.type_trees.specs.View.{val, body_val};
ghost use Rattle.xt_shapes.specs.Vals.{int, present};
ghost use Rattle.settled_parts.specs.Parts.{part_of, settled_of, settled_part};
ghost use Rattle.try_construct.specs.Members.{built_in, unseen_in, filled_then, slots_of, and_slot, slots_then, parts_by_id, structure_of, slot_or, by_member, and_slot_at, filled_of};
ghost use Rattle.xcdr_model.specs.Premises.{distinct_members};
ghost use Rattle.xcdr_model.specs.Projection as model;
ghost use Rattle.xt_shapes.specs.Shape.{Members};

use settled_parts::{Made, Part, Settled, default_slot, settle_part};
use std::alloc::Global;
use type_trees::{Member, Slot, Value};
use xt_lists::{OutOfMemory, Row};

/// The slot of a member: what came is settled by the member's setting, and where nothing came it is the default.
#[tactic(auto, using(type_trees::proofs::Views::val_rules))]
#[inline(always)]
pub fn slot_from(alloc: Global, member: &Member, part: Option<Part>) -> Result<Settled, OutOfMemory>
    ensures { IfOk result (λ s. settled_of s ≡ (model.slot_from (member_head member.now) (type_shape member.now.ty) (built_in (option_map part_of part)), unseen_in (option_map part_of part))) }
{
    match part {
        Some(part) => settle_part(alloc, member.tc, member.optional, &member.ty, part),
        None => Ok(Settled {
            slot: Some(default_slot(alloc, member.optional, &member.ty)?),
            unseen: false,
        }),
    }
}

/// The slots of a structure's first members. Once a slot failed none is kept.
#[derive(Debug, Drop)]
pub struct Slots {
    slots: Row<Slot>,
    failed: bool,
    unseen: bool,
}

impl Slots {
    /// No slots yet. The slots of all members, one after another, make the structure of the parts that came. It takes no memory.
    #[tactic(auto, using(crate::proofs::StructureSteps::slots_whole))]
    pub fn new(alloc: Global) -> Slots
        ensures none { slots_of result ≡ (Some [], false) }
        ensures whole { (ms : Members) (xs : List (Option model.Part)) → distinct_members ms ≡ true → slots_then ms (slots_of result) xs ≡ model.whole_structure ms (parts_by_id ms xs) false }
    {
        Slots {
            slots: Row::new(alloc),
            failed: false,
            unseen: false,
        }
    }

    /// Takes the slot of the next member. Where memory is refused the slots are of no use any more.
    #[tactic(auto, using(crate::proofs::MemberSteps::slot_rules))]
    #[inline(always)]
    pub fn take(&mut self, settled: Settled) -> Result<(), OutOfMemory>
        ensures { OnOk result (slots_of self.new ≡ and_slot (slots_of self.old) (settled_of settled)) }
    {
        self.unseen = self.unseen || settled.unseen;
        match settled.slot {
            Some(slot) => {
                if self.failed {
                    return Ok(());
                }
                self.slots.push(slot)
            }
            None => {
                self.failed = true;
                Ok(())
            }
        }
    }

    /// Takes a number that came of the next member, which any setting leaves as it is.
    #[tactic(auto, using(type_trees::proofs::Views::val_rules, crate::proofs::MemberSteps::slot_rules, crate::proofs::ItemSteps::number_rules))]
    #[inline(always)]
    pub fn take_number(&mut self, number: i128) -> Result<(), OutOfMemory>
        ensures { OnOk result (slots_of self.new ≡ and_slot (slots_of self.old) (Some (present (int number)), false)) }
    {
        if self.failed {
            return Ok(());
        }
        self.slots.push(Slot::Present(Value::Int(number)))
    }

    // Takes a value that came of the next member.
    #[tactic(auto, using(type_trees::proofs::Views::val_rules, crate::proofs::MemberSteps::slot_rules))]
    #[inline(always)]
    fn take_value(&mut self, value: Value, unseen: bool) -> Result<(), OutOfMemory>
        ensures { OnOk result (slots_of self.new ≡ and_slot (slots_of self.old) (Some (present (val value)), unseen)) }
    {
        self.unseen = self.unseen || unseen;
        if self.failed {
            return Ok(());
        }
        self.slots.push(Slot::Present(value))
    }

    /// Takes what came of the next member, settled by the member's setting. Where memory is refused the slots are of no use any more.
    #[inline(always)]
    pub fn take_part(
        &mut self,
        alloc: Global,
        member: &Member,
        part: Part,
    ) -> Result<(), OutOfMemory>
        ensures { OnOk result (slots_of self.new ≡ and_slot (slots_of self.old) (settled_part member.now.tc member.now.optional (type_shape member.now.ty) (part_of part))) }
    {
        let Part { made, unseen } = part;
        match made {
            Made::Got(value) => self.take_value(value, unseen),
            made => {
                let part = Part { made, unseen };
                let settled = settle_part(alloc, member.tc, member.optional, &member.ty, part)?;
                self.take(settled)
            }
        }
    }

    /// The structure of these slots: none where one of them failed.
    #[tactic(auto, using(type_trees::proofs::Views::val_rules))]
    pub fn part(self) -> Part
        ensures { part_of result ≡ structure_of (slots_of self) }
    {
        let Slots {
            slots,
            failed,
            unseen,
        } = self;
        if failed {
            return Part {
                made: Made::Failed,
                unseen,
            };
        }
        Part {
            made: Made::Got(Value::Struct(slots)),
            unseen,
        }
    }
}

/// A member's slot: its default where it has not come.
#[tactic(auto, using(type_trees::proofs::Views::val_rules))]
#[inline(always)]
fn filled(alloc: Global, slot: Option<Slot>, member: &Member) -> Result<Settled, OutOfMemory>
    ensures { IfOk result (λ s. settled_of s ≡ (Some (slot_or (model.slot_default (member_head member.now) (type_shape member.now.ty)) (option_map body_val slot)), false)) }
{
    let slot = match slot {
        Some(slot) => slot,
        None => default_slot(alloc, member.optional, &member.ty)?,
    };
    Ok(Settled {
        slot: Some(slot),
        unseen: false,
    })
}

/// The structure of the slots that came, which are taken out, and of the defaults of the other members.
fn fill(alloc: Global, members: &[Member], came: &mut [Option<Slot>]) -> Result<Part, OutOfMemory>
    requires { length came.old ≡ length members.now }
    ensures { IfOk result (λ p. part_of p ≡ filled_then (members_shape members.now) (Some [], false) (map (option_map body_val) came.old)) }
{
    let mut slots = Slots::new(alloc);
    for at in 0..members.len() {
        let slot = came[at].take();
        slots.take(filled(alloc, slot, &members[at])?)?;
    }
    Ok(slots.part())
}

/// The slots of a structure whose members come in any order, each under the index of its member.
#[derive(Debug, Drop)]
pub struct MemberSlots {
    slots: Vec<Option<Slot>>,
    failed: bool,
    unseen: bool,
}

impl MemberSlots {
    /// None of `count` members has come yet.
    pub fn new(alloc: Global, count: usize) -> Result<MemberSlots, OutOfMemory>
        ensures { IfOk result (λ m. by_member m ≡ (Some (replicate count None), replicate count false, false)) }
    {
        let mut slots = Vec::new(alloc);
        for _ in 0..count {
            slots.push(None)?;
        }
        Ok(MemberSlots {
            slots,
            failed: false,
            unseen: false,
        })
    }

    /// Whether the member with that index has come.
    pub fn has(&self, index: usize) -> bool
        requires { index < length (by_member self.now).1 }
        ensures { slice_get (by_member self.now).1 index ≡ Some result }
    {
        self.slots[index].is_some()
    }

    /// Takes the slot of the member with that index.
    #[tactic(auto, using(crate::proofs::MemberSteps::put_rules))]
    #[inline(always)]
    pub fn put(&mut self, index: usize, settled: Settled)
        requires { index < length (by_member self.old).1 }
        ensures { by_member self.new ≡ and_slot_at (by_member self.old) index (settled_of settled) }
    {
        self.unseen = self.unseen || settled.unseen;
        match settled.slot {
            Some(slot) => self.slots[index] = Some(slot),
            None => {
                self.failed = true;
                self.slots[index] = Some(Slot::Absent);
            }
        }
    }

    /// The structure of these members: one that has not come has its default. None where a slot failed.
    pub fn part(self, alloc: Global, members: &[Member]) -> Result<Part, OutOfMemory>
        requires { length (by_member self).1 ≡ length members.now }
        ensures { IfOk result (λ p. part_of p ≡ filled_of (members_shape members.now) (by_member self)) }
    {
        let MemberSlots {
            slots: mut came,
            failed,
            unseen,
        } = self;
        if failed {
            return Ok(Part {
                made: Made::Failed,
                unseen,
            });
        }
        Ok(fill(alloc, members, came.as_mut_slice())?.with_unseen(unseen))
    }
}
