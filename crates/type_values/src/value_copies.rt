ghost use Rattle.std.specs.Prelude.{◌≡◌, IfOk};
ghost use Rattle.type_trees.specs.View.{val, body_val, pair_val, union_val, vals, pairs_val, slots_val};

use crate::copies::copy_text;
use std::alloc::Global;
use type_trees::{Pair, Slot, UnionValue, Value};
use xt_lists::{OutOfMemory, Row};

#[cycle(copy_value)]
fn copy_values(alloc: Global, values: &Row<Value>) -> Result<Row<Value>, OutOfMemory>
    ensures { IfOk result (λ copy. vals copy ≡ vals values.now) }
{
    let mut copy = Row::new(alloc);
    for value in values.as_slice() {
        copy.push(copy_value(alloc, value)?)?;
    }
    Ok(copy)
}

#[cycle(copy_value)]
#[tactic(auto, using(type_trees::proofs::Views::val_rules))]
fn copy_pair(alloc: Global, pair: &Pair) -> Result<Pair, OutOfMemory>
    ensures { IfOk result (λ copy. pair_val copy ≡ pair_val pair.now) }
{
    Ok(Pair {
        key: copy_value(alloc, &pair.key)?,
        value: copy_value(alloc, &pair.value)?,
    })
}

#[cycle(copy_value)]
fn copy_pairs(alloc: Global, pairs: &Row<Pair>) -> Result<Row<Pair>, OutOfMemory>
    ensures { IfOk result (λ copy. pairs_val copy ≡ pairs_val pairs.now) }
{
    let mut copy = Row::new(alloc);
    for pair in pairs.as_slice() {
        copy.push(copy_pair(alloc, pair)?)?;
    }
    Ok(copy)
}

#[cycle(copy_value)]
#[tactic(auto, using(type_trees::proofs::Views::val_rules))]
fn copy_slot(alloc: Global, slot: &Slot) -> Result<Slot, OutOfMemory>
    ensures { IfOk result (λ copy. body_val copy ≡ body_val slot.now) }
{
    match slot {
        Slot::Absent => Ok(Slot::Absent),
        Slot::Present(value) => Ok(Slot::Present(copy_value(alloc, value)?)),
    }
}

#[cycle(copy_value)]
fn copy_slots(alloc: Global, slots: &Row<Slot>) -> Result<Row<Slot>, OutOfMemory>
    ensures { IfOk result (λ copy. slots_val copy ≡ slots_val slots.now) }
{
    let mut copy = Row::new(alloc);
    for slot in slots.as_slice() {
        copy.push(copy_slot(alloc, slot)?)?;
    }
    Ok(copy)
}

#[cycle(copy_value)]
#[tactic(auto, using(type_trees::proofs::Views::val_rules))]
fn copy_union_value(alloc: Global, union: &UnionValue) -> Result<UnionValue, OutOfMemory>
    ensures { IfOk result (λ copy. union_val copy ≡ union_val union.now) }
{
    Ok(UnionValue {
        disc: union.disc,
        body: copy_slot(alloc, &union.body)?,
    })
}

/// A value equal to `value`.
#[cycle(copy_value)]
#[tactic(auto, using(type_trees::proofs::Views::val_rules))]
pub fn copy_value(alloc: Global, value: &Value) -> Result<Value, OutOfMemory>
    ensures { IfOk result (λ copy. val copy ≡ val value.now) }
{
    match value {
        Value::Int(number) => Ok(Value::Int(*number)),
        Value::Str(text) => Ok(Value::Str(copy_text(alloc, text)?)),
        Value::List(values) => Ok(Value::List(copy_values(alloc, values)?)),
        Value::Map(pairs) => Ok(Value::Map(copy_pairs(alloc, pairs)?)),
        Value::Struct(slots) => Ok(Value::Struct(copy_slots(alloc, slots)?)),
        Value::Union(union) => Ok(Value::Union(Box::new(alloc, copy_union_value(alloc, union)?)?)),
    }
}
