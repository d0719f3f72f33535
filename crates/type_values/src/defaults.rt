ghost use Rattle.std.specs.Prelude.{◌≡◌, cond, replicate, slice_get, IfOk, map};
ghost use Rattle.xt_shapes.specs.Defaults as spec;
ghost use Rattle.xt_shapes.specs.Shape.{product};
ghost use Rattle.xt_shapes.specs.Vals.{vals_of, union_of, absent, present};
ghost use Rattle.type_trees.specs.Bridge.{type_shape, members_shape, cases_shape, literal_shape};
ghost use Rattle.type_trees.specs.View.{val, vals, body_val, slots_val, union_val};

use std::alloc::Global;
use type_trees::sizes::elements_of;
use type_trees::{ArrayType, Case, Literal, Member, Slot, UnionValue, Value, XType};
use xt_lists::{OutOfMemory, Row, Text};

/// The value of the first marked literal.
fn marked(literals: &[Literal]) -> Option<i32>
    ensures { result ≡ spec.marked (map literal_shape literals.now) }
{
    for literal in literals {
        if literal.is_default {
            return Some(literal.value);
        }
    }
    None
}

fn first_value(literals: &[Literal]) -> i32
    ensures { result ≡ spec.first_value (map literal_shape literals.now) }
{
    match literals.first() {
        None => 0,
        Some(literal) => literal.value,
    }
}

fn default_literal(literals: &[Literal]) -> i32
    ensures { let shapes = map literal_shape literals.now in
        result ≡ spec.int_or (spec.marked shapes) (spec.first_value shapes) }
{
    match marked(literals) {
        None => first_value(literals),
        Some(value) => value,
    }
}

#[cycle(default_value)]
#[tactic(auto, using(type_trees::proofs::Views::val_rules))]
fn default_slot(alloc: Global, member: &Member) -> Result<Slot, OutOfMemory>
    ensures { let default = spec.default_of (type_shape member.now.ty) in
        IfOk result (λ slot. body_val slot ≡ cond member.now.optional absent (present default)) }
{
    if member.optional {
        return Ok(Slot::Absent);
    }
    Ok(Slot::Present(default_value(alloc, &member.ty)?))
}

#[cycle(default_value)]
fn default_slots(alloc: Global, members: &[Member]) -> Result<Row<Slot>, OutOfMemory>
    ensures { IfOk result (λ slots. slots_val slots ≡ spec.default_slots (members_shape members.now)) }
{
    let mut slots = Row::new(alloc);
    for member in members {
        slots.push(default_slot(alloc, member)?)?;
    }
    Ok(slots)
}

/// As many defaults as the array has elements. A list of as many as a `u64` can count is never in memory.
#[cycle(default_value)]
fn default_elements(alloc: Global, array: &ArrayType) -> Result<Row<Value>, OutOfMemory>
    ensures { let default = spec.default_of (type_shape array.now.elem.ty) in
        IfOk result (λ values. vals values ≡ vals_of (replicate (product array.now.dims) default)) }
{
    let count = elements_of(array.dims.as_slice());
    if count == u64::MAX {
        return Err(OutOfMemory);
    }
    let mut values = Row::new(alloc);
    for _ in 0..count {
        values.push(default_value(alloc, &array.elem.ty)?)?;
    }
    Ok(values)
}

fn first_label(labels: &[i32]) -> Option<i32>
    ensures { result ≡ slice_get labels.now 0 }
{
    labels.first().copied()
}

#[cycle(default_value)]
#[tactic(auto, using(type_trees::proofs::Views::val_rules))]
fn default_case(alloc: Global, case: &Case, label: i32) -> Result<UnionValue, OutOfMemory>
    ensures { let default = spec.default_of (type_shape case.now.ty) in
        IfOk result (λ union. union_val union ≡ union_of label (present default)) }
{
    Ok(UnionValue {
        disc: i128::from(label),
        body: Slot::Present(default_value(alloc, &case.ty)?),
    })
}

/// The first declared label with its case's default.
#[cycle(default_value)]
#[tactic(auto, using(type_trees::proofs::Views::val_rules))]
fn default_union(alloc: Global, cases: &[Case]) -> Result<UnionValue, OutOfMemory>
    ensures { IfOk result (λ union. union_val union ≡ spec.default_union (cases_shape cases.now)) }
{
    for case in cases {
        if let Some(label) = first_label(case.labels.as_slice()) {
            return default_case(alloc, case, label);
        }
    }
    Ok(UnionValue {
        disc: 0,
        body: Slot::Absent,
    })
}

/// The default value of `ty` (DDS-XTypes 1.3, 7.2.2.4.4): 0, false, the empty text and the empty collection, an array of its
/// element's defaults, and for a structure each member's default, or absent where it is optional. An enumeration's is its
/// marked literal, else its first, and a union's its first declared label with that case's default (this profile's own).
#[cycle(default_value)]
#[tactic(auto, using(crate::proofs::Parts::part_rules))]
pub fn default_value(alloc: Global, ty: &XType) -> Result<Value, OutOfMemory>
    ensures { IfOk result (λ value. val value ≡ spec.default_of (type_shape ty.now)) }
{
    match ty {
        XType::Prim(_) | XType::Mask(_) => Ok(Value::Int(0)),
        XType::Str(_) => Ok(Value::Str(Text::new(alloc))),
        XType::Enum(kind) => Ok(Value::Int(i128::from(default_literal(kind.literals.as_slice())))),
        XType::Seq(_) => Ok(Value::List(Row::new(alloc))),
        XType::Array(kind) => Ok(Value::List(default_elements(alloc, kind)?)),
        XType::Map(_) => Ok(Value::Map(Row::new(alloc))),
        XType::Struct(kind) => Ok(Value::Struct(default_slots(alloc, kind.members.as_slice())?)),
        XType::Union(kind) => Ok(Value::Union(Box::new(
            alloc,
            default_union(alloc, kind.cases.as_slice())?,
        )?)),
        XType::Alias(kind) => default_value(alloc, &kind.ty),
    }
}
