//! The octets of a packed value's key.
ghost use Rattle.std.specs.Prelude.{◌≡◌, ◌<◌, ◌^◌, length, map, drop, IfOk, IsTrue, true};
ghost use Rattle.std.specs.Option.{option_map};
ghost use Rattle.xt_shapes.specs.declared.leaves.Order.TheVariants.{Big};
ghost use Rattle.xt_shapes.specs.Keyable.{keyable, counted_keyable};
ghost use Rattle.xt_shapes.specs.Vals.{slots_of, first};
ghost use Rattle.xt_shapes.specs.Typing.{of_slot, has_type, have_types};
ghost use Rattle.type_trees.specs.Bridge.{type_shape, members_shape};
ghost use Rattle.type_trees.specs.View.{val};
ghost use Rattle.projection_laws.specs.Premises.{IsValid};
ghost use Rattle.packed_reader.specs.View.{packed_val, packed_slot};
ghost use Rattle.xt_wire.specs.writer.Writing.{PutsWithin};
ghost use Rattle.xcdr_model.specs.FixedSpelling.{if_present_fixed};
ghost use Rattle.value_writer.specs.Slots.{slot_of};
ghost use Rattle.xcdr_model.specs.KeyOctets as spec;
ghost use Rattle.xcdr_model.specs.Premises.{sound, sound_members, distinct_members};
ghost use Rattle.key_instances.specs.octets.Chains.{counted_fixed, part_fixed, is_filled};

use crate::octets::order::{Counted, next_counted};
use crate::octets::parts::{key_octets, put_slot};
use crate::octets::unpacked::unpacked;
use packed_reader::{Packed, PackedSlot};
use shape_laws::premises_hold;
use std::alloc::Global;
use type_rules::shape_keeps_rules;
use type_trees::{Member, Value, XType, as_struct};
use xt_lists::{OutOfMemory, Text};
use xt_outside::{MemSink, Sink};
use xt_shapes::Order;
use xt_wire::writer::Writer;

/// The value of the slot at `index`, where it is there and present.
#[tactic(auto, using(packed_reader::proofs::Views::packed_rules))]
fn value_at(
    alloc: Global,
    slots: &[PackedSlot<'_>],
    index: usize,
) -> Result<Option<Value>, OutOfMemory>
    ensures { IfOk result (λ value. slot_of (option_map val value) ≡ first (slots_of (map packed_slot (drop index slots.now)))) }
{
    match slots.get(index) {
        Some(PackedSlot::Present(value)) => Ok(Some(unpacked(alloc, value)?)),
        Some(PackedSlot::Absent) | None => Ok(None),
    }
}

/// The counted member whose slot is at `index`, which is present as all of them are.
fn put_at<K: Sink>(
    alloc: Global,
    member: &Member,
    slots: &[PackedSlot<'_>],
    index: usize,
    out: &mut Writer<K>,
) -> Result<(), OutOfMemory>
    requires sound { sound (type_shape member.now.ty) ≡ true }
    requires keyable { keyable (type_shape member.now.ty) ≡ true }
    requires filled { of_slot true (λ w. is_filled (type_shape member.now.ty) w) (first (slots_of (map packed_slot (drop index slots.now)))) ≡ true }
    ensures { let order = out.old.order in let slot = first (slots_of (map packed_slot (drop index slots.now))) in
        IfOk result (λ u. PutsWithin 4294967296 (if_present_fixed slot (λ w. part_fixed order (type_shape member.now.ty) w)) out.old out.new (Ok u)) }
{
    let value = value_at(alloc, slots, index)?;
    match put_slot(member, value.as_ref(), out) {
        Ok(()) => Ok(()),
        Err(_) => Err(OutOfMemory),
    }
}

/// The key members, by rising id.
fn put_packed<K: Sink>(
    alloc: Global,
    members: &[Member],
    slots: &[PackedSlot<'_>],
    out: &mut Writer<K>,
) -> Result<(), OutOfMemory>
    requires distinct { distinct_members (members_shape members.now) ≡ true }
    requires sound { sound_members (members_shape members.now) ≡ true }
    requires keyable { counted_keyable true (members_shape members.now) ≡ true }
    requires typed { have_types (members_shape members.now) (slots_of (map packed_slot slots.now)) ≡ true }
    ensures { let order = out.old.order in let values = slots_of (map packed_slot slots.now) in
        IfOk result (λ u. PutsWithin 4294967296 (counted_fixed order true (members_shape members.now) values) out.old out.new (Ok u)) }
{
    let mut from = 0;
    'members: while let Some(Counted { at, id }) = next_counted(true, members, from) {
        put_at(alloc, &members[at], slots, at, out)?;
        from = u64::from(id) + 1;
    }
    Ok(())
}

/// The octets of the key members, by rising id.
fn members_octets(
    alloc: Global,
    members: &[Member],
    slots: &[PackedSlot<'_>],
) -> Result<Text, OutOfMemory>
    requires distinct { distinct_members (members_shape members.now) ≡ true }
    requires sound { sound_members (members_shape members.now) ≡ true }
    requires keyable { counted_keyable true (members_shape members.now) ≡ true }
    requires typed { have_types (members_shape members.now) (slots_of (map packed_slot slots.now)) ≡ true }
    requires few { length (counted_fixed Big true (members_shape members.now) (slots_of (map packed_slot slots.now)) 0) < 2 ^ 32 }
    ensures { let values = slots_of (map packed_slot slots.now) in
        IfOk result (λ octets. octets ≡ counted_fixed Big true (members_shape members.now) values 0) }
{
    let mut out = Writer::new(MemSink::new(alloc, usize::MAX, &[]), Order::Big);
    put_packed(alloc, members, slots, &mut out)?;
    Text::from_octets(alloc, out.end().octets())
}

/// The octets of the key of the value that a packed value stands for.
fn octets_of_all(alloc: Global, ty: &XType, value: &Packed<'_>) -> Result<Text, OutOfMemory>
    requires valid { IsValid ty.now }
    requires typed { IsTrue (has_type (type_shape ty.now) (packed_val value.now)) }
    requires few { length (spec.key_octets (type_shape ty.now) (packed_val value.now)) < 2 ^ 32 }
    ensures { IfOk result (λ octets. octets ≡ spec.key_octets (type_shape ty.now) (packed_val value.now)) }
{
    key_octets(alloc, ty, &unpacked(alloc, value)?)
}

/// The octets of a packed value's key, as `key_octets` has them for the value that it stands for. Of a structure only the key members are
/// made into values.
///
/// The conditions are those of `key_octets`.
pub fn packed_key_octets(alloc: Global, ty: &XType, value: &Packed<'_>) -> Result<Text, OutOfMemory>
    requires valid { IsValid ty.now }
    requires typed { IsTrue (has_type (type_shape ty.now) (packed_val value.now)) }
    requires few { length (spec.key_octets (type_shape ty.now) (packed_val value.now)) < 2 ^ 32 }
    ensures { IfOk result (λ octets. octets ≡ spec.key_octets (type_shape ty.now) (packed_val value.now)) }
{
    shape_keeps_rules();
    premises_hold();
    let Some(kind) = as_struct(ty) else {
        return octets_of_all(alloc, ty, value);
    };
    match value {
        Packed::Struct(slots) => members_octets(alloc, kind.members.as_slice(), slots.as_slice()),
        Packed::Natural(_)
        | Packed::Whole(_)
        | Packed::Text(_)
        | Packed::Numbers(_)
        | Packed::Own(_)
        | Packed::List(_)
        | Packed::Union(_) => octets_of_all(alloc, ty, value),
    }
}
