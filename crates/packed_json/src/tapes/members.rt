ghost use Rattle.std.specs.Prelude.{◌≡◌, ◌<◌, length, map, replicate, slice_set, IfSome};
ghost use Rattle.xt_shapes.specs.Vals.{absent, present};
ghost use Rattle.type_trees.specs.View.{members_tree};
ghost use Rattle.packed_reader.specs.View.{packed_val, packed_slot};
ghost use Rattle.packed_json.specs.Tapes.{has_open};
ghost use Rattle.packed_json.specs.Tapes as spec;

use packed_reader::{Packed, PackedSlot};
use std::alloc::Global;
use type_trees::Member;
use xt_lists::Row;

// So many slots, each without a value.
pub(crate) fn absent_slots<'a>(alloc: Global, count: usize) -> Option<Row<PackedSlot<'a>>>
    ensures { IfSome result (λ slots. map packed_slot slots ≡ replicate count absent) }
{
    let mut slots = Row::new(alloc);
    let Ok(()) = slots.reserve(count) else {
        return None;
    };
    for slot in 0..count {
        let Ok(()) = slots.push(PackedSlot::Absent) else {
            return None;
        };
    }
    Some(slots)
}

// Fills a slot.
pub(crate) fn fill<'a>(slots: &mut Row<PackedSlot<'a>>, at: usize, value: Packed<'a>)
    requires { at < length slots.old }
    ensures { map packed_slot slots.new ≡ slice_set (map packed_slot slots.old) at (present (packed_val value.entry)) }
{
    let places = slots.items();
    places[at] = PackedSlot::Present(value);
}

#[tactic(auto, using(type_trees::proofs::Views::tree_rules, packed_reader::proofs::Views::packed_rules))]
fn is_open(member: &Member, slot: &PackedSlot<'_>) -> bool
    ensures { result ≡ spec.is_open member.now.optional (packed_slot slot.now) }
{
    match slot {
        PackedSlot::Absent => !member.optional,
        PackedSlot::Present(_) => false,
    }
}

// Whether the slot of a member that isn't optional has no value.
#[tactic(auto, using(type_trees::proofs::Views::tree_rules, packed_reader::proofs::Views::packed_rules))]
pub(crate) fn has_open_slot(members: &[Member], slots: &[PackedSlot<'_>]) -> bool
    ensures { result ≡ has_open (members_tree members.now) (map packed_slot slots.now) }
{
    for at in 0..members.len() {
        if at >= slots.len() {
            return true;
        }
        if is_open(&members[at], &slots[at]) {
            return true;
        }
    }
    false
}
