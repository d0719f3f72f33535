//! The parts of a key, written.
ghost use Rattle.std.specs.Prelude.{◌≡◌, ◌<◌, ◌^◌, length, IfOk, IsTrue, true};
ghost use Rattle.std.specs.Option.{option_map};
ghost use Rattle.xt_shapes.specs.Keyable.{keyable, counted_keyable};
ghost use Rattle.xt_shapes.specs.Vals.{int, disc_in};
ghost use Rattle.xt_shapes.specs.Typing.{of_slot, has_type, have_types};
ghost use Rattle.type_trees.specs.Bridge.{type_shape, members_shape};
ghost use Rattle.type_trees.specs.View.{val, slots_val};
ghost use Rattle.projection_laws.specs.Premises.{IsValid};
ghost use Rattle.xt_wire.specs.writer.Writing.{PutsWithin};
ghost use Rattle.xcdr_model.specs.FixedSpelling.{fixed, if_present_fixed};
ghost use Rattle.value_writer.specs.Slots.{slot_of};
ghost use Rattle.xcdr_model.specs.KeyOctets as spec;
ghost use Rattle.xcdr_model.specs.Premises.{sound, sound_members, distinct_members};
ghost use Rattle.key_instances.specs.octets.Chains.{counted_fixed, part_fixed, top_fixed, is_filled};

use crate::octets::order::{Counted, has_key, next_counted};
use shape_laws::premises_hold;
use std::alloc::Global;
use type_rules::shape_keeps_rules;
use type_trees::{Member, Slot, Value, XType, as_struct, as_union};
use value_writer::{disc_in, slot_at, slots_in};
use xcdr_writer::encode_value;
use xt_lists::{OutOfMemory, Text};
use xt_outside::{Failed, MemSink, Sink};
use xt_shapes::{Order, Rep};
use xt_wire::writer::Writer;

/// The counted members, by rising id.
#[cycle(parts)]
fn put_counted<K: Sink>(
    keyed: bool,
    members: &[Member],
    slots: &[Slot],
    out: &mut Writer<K>,
) -> Result<(), Failed>
    requires distinct { distinct_members (members_shape members.now) ≡ true }
    requires sound { sound_members (members_shape members.now) ≡ true }
    requires keyable { counted_keyable keyed (members_shape members.now) ≡ true }
    requires typed { have_types (members_shape members.now) (slots_val slots.now) ≡ true }
    ensures { PutsWithin 4294967296 (counted_fixed out.old.order keyed (members_shape members.now) (slots_val slots.now)) out.old out.new result }
{
    let mut from = 0;
    'members: while let Some(Counted { at, id }) = next_counted(keyed, members, from) {
        put_slot(&members[at], slot_at(slots, at), out)?;
        from = u64::from(id) + 1;
    }
    Ok(())
}

/// A counted member that is present, as all of them are.
#[cycle(parts)]
pub(crate) fn put_slot<K: Sink>(
    member: &Member,
    slot: Option<&Value>,
    out: &mut Writer<K>,
) -> Result<(), Failed>
    requires sound { sound (type_shape member.now.ty) ≡ true }
    requires keyable { keyable (type_shape member.now.ty) ≡ true }
    requires filled { of_slot true (λ w. is_filled (type_shape member.now.ty) w) (slot_of (option_map (λ v. val v.now) slot)) ≡ true }
    ensures { let order = out.old.order in
        PutsWithin 4294967296 (if_present_fixed (slot_of (option_map (λ v. val v.now) slot.entry)) (λ w. part_fixed order (type_shape member.now.ty) w)) out.old out.new result }
{
    match slot {
        None => Ok(()),
        Some(value) => put_part(&member.ty, value, out),
    }
}

/// A part of a key: a structure is its counted members.
#[cycle(parts)]
fn put_part<K: Sink>(ty: &XType, value: &Value, out: &mut Writer<K>) -> Result<(), Failed>
    requires sound { sound (type_shape ty.now) ≡ true }
    requires keyable { keyable (type_shape ty.now) ≡ true }
    requires filled { is_filled (type_shape ty.now) (val value.now) ≡ true }
    ensures { PutsWithin 4294967296 (part_fixed out.old.order (type_shape ty.now) (val value.now)) out.old out.new result }
{
    match ty {
        XType::Prim(_)
        | XType::Str(_)
        | XType::Enum(_)
        | XType::Mask(_)
        | XType::Seq(_)
        | XType::Array(_)
        | XType::Map(_)
        | XType::Union(_) => encode_value(Rep::Xcdr2, ty, value, out),
        XType::Struct(kind) => {
            let members = kind.members.as_slice();
            put_counted(has_key(members), members, slots_in(value), out)
        }
        XType::Alias(kind) => put_part(&kind.ty, value, out),
    }
}

/// The discriminator of a union, which has this type.
#[tactic(auto, using(type_trees::proofs::Views::val_rules))]
fn put_disc<K: Sink>(ty: &XType, union: &Value, out: &mut Writer<K>) -> Result<(), Failed>
    ensures { PutsWithin 4294967296 (fixed out.old.order (type_shape ty.now) (int (disc_in (val union.now)))) out.old out.new result }
{
    let number = Value::Int(disc_in(union));
    encode_value(Rep::Xcdr2, ty, &number, out)
}

/// The key of a structure or a union; of another type, and of one without keys, there are no octets.
fn put_key<K: Sink>(ty: &XType, value: &Value, out: &mut Writer<K>) -> Result<(), Failed>
    requires valid { IsValid ty.now }
    requires typed { IsTrue (has_type (type_shape ty.now) (val value.now)) }
    ensures { PutsWithin 4294967296 (top_fixed out.old.order (type_shape ty.now) (val value.now)) out.old out.new result }
{
    shape_keeps_rules();
    premises_hold();
    if let Some(kind) = as_struct(ty) {
        return put_counted(true, kind.members.as_slice(), slots_in(value), out);
    }
    match as_union(ty) {
        Some(kind) if kind.disc_key => put_disc(&kind.disc, value, out),
        _ => Ok(()),
    }
}

/// The octets of a value's key: its parts by rising id as a FINAL structure in XCDR2, big-endian (DDS-XTypes 1.3, 7.6.8). A union whose
/// discriminator is a key has its discriminator; where nothing is a key there are no octets.
///
/// The conditions are that the type is valid, that the value has it, and that the key has fewer than 4,294,967,296 octets.
pub fn key_octets(alloc: Global, ty: &XType, value: &Value) -> Result<Text, OutOfMemory>
    requires valid { IsValid ty.now }
    requires typed { IsTrue (has_type (type_shape ty.now) (val value.now)) }
    requires few { length (spec.key_octets (type_shape ty.now) (val value.now)) < 2 ^ 32 }
    ensures { IfOk result (λ octets. octets ≡ spec.key_octets (type_shape ty.now) (val value.now)) }
{
    let mut out = Writer::new(MemSink::new(alloc, usize::MAX, &[]), Order::Big);
    match put_key(ty, value, &mut out) {
        Ok(()) => Text::from_octets(alloc, out.end().octets()),
        Err(_) => Err(OutOfMemory),
    }
}
