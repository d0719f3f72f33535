//! The greatest length of keys.
ghost use Rattle.std.specs.Prelude.{◌≡◌, ◌≤◌, length, Some, IsTrue, true, false};
ghost use Rattle.xt_shapes.specs.Shape.{sequence, array};
ghost use Rattle.xt_shapes.specs.Keyable.{is_leaf, keyable, counted_keyable};
ghost use Rattle.xt_shapes.specs.Typing.{has_type};
ghost use Rattle.xt_shapes.specs.Vals.{Val};
ghost use Rattle.type_trees.specs.Bridge.{type_shape, members_shape};
ghost use Rattle.type_trees.specs.Parts.{sequence_parts, array_parts};
ghost use Rattle.projection_laws.specs.Premises.{IsValid};
ghost use Rattle.xt_wire.specs.numbers.Units.{IsUnit};
ghost use Rattle.xcdr_model.specs.KeyOctets as spec;
ghost use Rattle.xcdr_model.specs.Xcdr2Reading.{is_primitive};
ghost use Rattle.xcdr_model.specs.Premises.{sound, sound_members, distinct_members};
ghost use Rattle.key_instances.specs.octets.Ends.{past, items_end, behind_count, collection_end, ends};
ghost use Rattle.key_instances.specs.octets.Laws.{HasLongKey};

use crate::octets::laws::{others_have_long_keys, short_keys_fit};
use crate::octets::order::{Counted, has_key, next_counted};
use shape_laws::premises_hold;
use type_rules::shape_keeps_rules;
use type_trees::sizes::elements_of;
use type_trees::{ArrayType, Member, SeqType, XType, as_prim, as_str, as_struct, as_union};
use xt_wire::numbers::{padding, scalar_size};

// what each place behind a hash is taken for
const PAST: u64 = 17;

/// The place behind a number of so many octets, which is aligned to its size and at most to 4.
fn end_of_number(size: u32, place: u64) -> u64
    requires size { IsUnit size }
    requires place { place ≤ 17 }
    ensures { result ≡ past (Some (spec.after size place)) }
{
    let end = place + padding(size.min(4), place) + u64::from(size);
    end.min(PAST)
}

/// The place behind the longest value of a primitive, string, enumeration or bitmask.
fn end_of_leaf(ty: &XType, place: u64) -> u64
    requires leaf { is_leaf (type_shape ty.now) ≡ true }
    requires place { place ≤ 17 }
    ensures { result ≡ past (spec.end_of (type_shape ty.now) place) }
{
    match as_str(ty) {
        Some(0) => PAST,
        Some(bound) => (end_of_number(4, place) + u64::from(bound) + 1).min(PAST),
        None => end_of_number(scalar_size(ty), place),
    }
}

/// The place behind so many of the longest values. Each has an octet at least, so that few are looked at.
fn end_of_items(ty: &XType, count: u64, place: u64) -> u64
    requires leaf { is_leaf (type_shape ty.now) ≡ true }
    requires place { place ≤ 17 }
    ensures { result ≡ past (items_end (type_shape ty.now) count place) }
{
    let mut at = place;
    for _ in 0..count {
        if at == PAST {
            return PAST;
        }
        at = end_of_leaf(ty, at);
    }
    at
}

/// The place behind the count of a collection's octets, which stands before elements that are no primitives.
fn headed(ty: &XType, place: u64) -> u64
    requires { place ≤ 17 }
    ensures { result ≡ past (Some (spec.headed (is_primitive (type_shape ty.now)) place)) }
{
    match as_prim(ty) {
        Some(_) => place,
        None => end_of_number(4, place),
    }
}

/// The place behind the number of a collection's elements, where that stands there.
fn behind_count(counted: bool, place: u64) -> u64
    requires { place ≤ 17 }
    ensures { result ≡ past (Some (behind_count counted place)) }
{
    if counted {
        end_of_number(4, place)
    } else {
        place
    }
}

/// The place behind the longest collection of so many elements, with their number before them or without.
fn end_of_collection(ty: &XType, counted: bool, count: u64, place: u64) -> u64
    requires leaf { is_leaf (type_shape ty.now) ≡ true }
    requires place { place ≤ 17 }
    ensures { result ≡ past (collection_end (type_shape ty.now) counted count place) }
{
    end_of_items(ty, count, behind_count(counted, headed(ty, place)))
}

/// The place behind the longest sequence.
fn end_of_sequence(kind: &SeqType, place: u64) -> u64
    requires leaf { is_leaf (type_shape kind.now.elem.ty) ≡ true }
    requires place { place ≤ 17 }
    ensures { let parts = sequence_parts kind.now in result ≡ past (spec.end_of (sequence parts.0 parts.1 parts.2) place) }
{
    match kind.bound {
        0 => PAST,
        bound => end_of_collection(&kind.elem.ty, true, u64::from(bound), place),
    }
}

/// The place behind the longest array.
fn end_of_array(kind: &ArrayType, place: u64) -> u64
    requires leaf { is_leaf (type_shape kind.now.elem.ty) ≡ true }
    requires place { place ≤ 17 }
    ensures { let parts = array_parts kind.now in result ≡ past (spec.end_of (array parts.0 parts.1 parts.2) place) }
{
    end_of_collection(
        &kind.elem.ty,
        false,
        elements_of(kind.dims.as_slice()),
        place,
    )
}

/// The place behind the longest part of a key: a structure is its counted members.
#[cycle(ends)]
fn end_of_part(ty: &XType, place: u64) -> u64
    requires sound { sound (type_shape ty.now) ≡ true }
    requires keyable { keyable (type_shape ty.now) ≡ true }
    requires place { place ≤ 17 }
    ensures { result ≡ past (spec.end_of (spec.key_type (type_shape ty.now)) place) }
{
    match ty {
        XType::Prim(_) | XType::Str(_) | XType::Enum(_) | XType::Mask(_) => end_of_leaf(ty, place),
        XType::Seq(kind) => end_of_sequence(kind, place),
        XType::Array(kind) => end_of_array(kind, place),
        XType::Map(_) | XType::Union(_) => PAST,
        XType::Struct(kind) => {
            let members = kind.members.as_slice();
            end_of_counted(has_key(members), members, place)
        }
        XType::Alias(kind) => end_of_part(&kind.ty, place),
    }
}

/// The place behind the longest part of a counted member.
#[cycle(ends)]
fn end_of_member(member: &Member, place: u64) -> u64
    requires sound { sound (type_shape member.now.ty) ≡ true }
    requires keyable { keyable (type_shape member.now.ty) ≡ true }
    requires place { place ≤ 17 }
    ensures { result ≡ past (spec.end_of (spec.key_type (type_shape member.now.ty)) place) }
{
    end_of_part(&member.ty, place)
}

/// The place behind the longest of all counted members, by rising id. Each has an octet at least, so that few are looked at.
#[cycle(ends)]
fn end_of_counted(keyed: bool, members: &[Member], place: u64) -> u64
    requires distinct { distinct_members (members_shape members.now) ≡ true }
    requires sound { sound_members (members_shape members.now) ≡ true }
    requires keyable { counted_keyable keyed (members_shape members.now) ≡ true }
    requires place { place ≤ 17 }
    ensures { result ≡ past (ends (spec.key_types keyed (members_shape members.now)) place) }
{
    let mut end = place;
    let mut from = 0;
    'members: while let Some(Counted { at, id }) = next_counted(keyed, members, from) {
        if end == PAST {
            return PAST;
        }
        end = end_of_member(&members[at], end);
        from = u64::from(id) + 1;
    }
    end
}

/// Whether the longest key of the type ends within a hash.
fn ends_within_hash(ty: &XType) -> bool
    requires valid { IsValid ty.now }
    ensures { result ≡ spec.short (type_shape ty.now) }
{
    shape_keeps_rules();
    premises_hold();
    if let Some(kind) = as_struct(ty) {
        return end_of_counted(true, kind.members.as_slice(), 0) < PAST;
    }
    match as_union(ty) {
        Some(kind) if kind.disc_key => end_of_leaf(&kind.disc, 0) < PAST,
        _ => true,
    }
}

/// Whether the key octets of each value of the type are at most 16 (DDS-XTypes 1.3, 7.6.8): where they are not, a value has more. It takes
/// no memory.
pub fn short_key(ty: &XType) -> bool
    requires valid { IsValid ty.now }
    ensures defined { result ≡ spec.short (type_shape ty.now) }
    ensures fit { result ≡ true → (v : Val) → IsTrue (has_type (type_shape ty.now) v) → length (spec.key_octets (type_shape ty.now) v) ≤ 16 }
    ensures longer { result ≡ false → HasLongKey (type_shape ty.now) }
{
    shape_keeps_rules();
    short_keys_fit();
    others_have_long_keys();
    ends_within_hash(ty)
}
