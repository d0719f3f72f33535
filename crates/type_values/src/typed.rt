ghost use Rattle.std.specs.Prelude.{◌≡◌, ◌&&◌, map};
ghost use Rattle.xt_shapes.specs.Lists.{all};
ghost use Rattle.xt_shapes.specs.Select.{select};
ghost use Rattle.xt_shapes.specs.Typing as spec;
ghost use Rattle.type_trees.specs.Bridge.{type_shape, members_shape, cases_shape};
ghost use Rattle.type_trees.specs.View.{val, body_val, pair_val, slots_val};

use crate::keys::repeats;
use crate::numbers::{fits_bits, is_past, is_text_within};
use node_rules::{has_literal, is_of_prim};
use type_trees::sizes::elements_of;
use type_trees::{Case, MapType, Member, Pair, Slot, Value, XType, select};

#[cycle(has_type)]
fn all_have_type(ty: &XType, values: &[Value]) -> bool
    ensures { result ≡ all (λ v. spec.has_type (type_shape ty.now) v) (map val values.now) }
{
    for value in values {
        if !has_type(ty, value) {
            return false;
        }
    }
    true
}

#[cycle(has_type)]
#[tactic(auto, using(type_trees::proofs::Views::val_rules))]
fn all_pairs_have_types(kind: &MapType, pairs: &[Pair]) -> bool
    ensures { let key = type_shape kind.now.key.ty in
        let value = type_shape kind.now.value.ty in
        result ≡ all (λ e. spec.has_type key e.0 && spec.has_type value e.1) (map pair_val pairs.now) }
{
    for pair in pairs {
        if !has_type(&kind.key.ty, &pair.key) {
            return false;
        }
        if !has_type(&kind.value.ty, &pair.value) {
            return false;
        }
    }
    true
}

#[cycle(has_type)]
#[tactic(auto, using(type_trees::proofs::Views::val_rules))]
fn slot_has_type(member: &Member, slot: &Slot) -> bool
    ensures { let typed = spec.has_type (type_shape member.now.ty) in
        result ≡ spec.of_slot member.now.optional typed (body_val slot.now) }
{
    match slot {
        Slot::Absent => member.optional,
        Slot::Present(value) => has_type(&member.ty, value),
    }
}

#[cycle(has_type)]
fn slots_have_types(members: &[Member], slots: &[Slot]) -> bool
    ensures { result ≡ spec.have_types (members_shape members.now) (slots_val slots.now) }
{
    if members.len() != slots.len() {
        return false;
    }
    for at in 0..members.len() {
        if !slot_has_type(&members[at], &slots[at]) {
            return false;
        }
    }
    true
}

#[cycle(has_type)]
#[tactic(auto, using(type_trees::proofs::Views::tree_rules), unfolding(xt_shapes::specs::Typing::case_type))]
fn case_has_type(cases: &[Case], id: u32, value: &Value) -> bool
    ensures { result ≡ spec.case_type (cases_shape cases.now) id (val value.now) }
{
    for case in cases {
        if case.id == id {
            return has_type(&case.ty, value);
        }
    }
    false
}

/// A union's body is present exactly where a case is selected.
#[cycle(has_type)]
#[tactic(auto, using(type_trees::proofs::Views::val_rules))]
fn body_has_type(cases: &[Case], disc: i128, body: &Slot) -> bool
    ensures { let shapes = cases_shape cases.now in
        result ≡ spec.of_body (select shapes disc) (spec.case_type shapes) (body_val body.now) }
{
    match (select(cases, disc), body) {
        (None, Slot::Absent) => true,
        (Some(id), Slot::Present(value)) => case_has_type(cases, id, value),
        _ => false,
    }
}

/// Whether `value` is a value of `ty` (DDS-XTypes 1.3, 7.2.2).
///
/// Each primitive, enumeration and bitmask value is an `Int`, within the type's range, a literal's value, or below 2 to the
/// bits. A string is octets without NUL within its bound, and a sequence or array a `List` of values of the element's type, an
/// array's in row-major order. A map has distinct keys. A structure has one slot for each member, and only an optional one is
/// Absent. A union's body is Present exactly where its discriminator selects a case.
#[cycle(has_type)]
#[tactic(auto, using(crate::proofs::Parts::part_rules), unfolding(xt_shapes::specs::Typing::has_type))]
pub fn has_type(ty: &XType, value: &Value) -> bool
    ensures { result ≡ spec.has_type (type_shape ty.now) (val value.now) }
{
    match (ty, value) {
        (XType::Prim(prim), Value::Int(number)) => is_of_prim(*prim, *number),
        (XType::Str(bound), Value::Str(text)) => is_text_within(*bound, text.octets()),
        (XType::Enum(kind), Value::Int(number)) => has_literal(kind.literals.as_slice(), *number),
        (XType::Mask(kind), Value::Int(number)) => fits_bits(kind.bits, *number),
        (XType::Seq(kind), Value::List(values)) => !is_past(kind.bound, values.len())
            && all_have_type(&kind.elem.ty, values.as_slice()),
        (XType::Array(kind), Value::List(values)) => values.len() as u64
            == elements_of(kind.dims.as_slice())
            && all_have_type(&kind.elem.ty, values.as_slice()),
        (XType::Map(kind), Value::Map(pairs)) => !is_past(kind.bound, pairs.len())
            && !repeats(pairs.as_slice())
            && all_pairs_have_types(kind, pairs.as_slice()),
        (XType::Struct(kind), Value::Struct(slots)) => slots_have_types(
            kind.members.as_slice(),
            slots.as_slice(),
        ),
        (XType::Union(kind), Value::Union(union)) => has_type(&kind.disc, &Value::Int(union.disc))
            && body_has_type(kind.cases.as_slice(), union.disc, &union.body),
        (XType::Alias(kind), value) => has_type(&kind.ty, value),
        _ => false,
    }
}
