//! Packed values as values.
ghost use Rattle.std.specs.Prelude.{◌≡◌, IfOk, length, map};
ghost use Rattle.xt_shapes.specs.Sizes.{size};
ghost use Rattle.xt_shapes.specs.Vals.{vals_of, slots_of};
ghost use Rattle.type_trees.specs.View.{val, body_val, vals, slots_val};
ghost use Rattle.packed_reader.specs.View.{packed_val, packed_slot, packed_union, number_of, numbers_of};

use packed_reader::{Numbers, Packed, PackedSlot, PackedUnion};
use std::alloc::Global;
use type_trees::{Slot, UnionValue, Value};
use xt_lists::{OutOfMemory, Row, Text};
use xt_shapes::{Order, Prim};
use xt_wire::numbers::{number, prim_size, prim_value};

/// The number of a primitive that these octets are.
#[tactic(auto, using(type_trees::proofs::Views::val_rules))]
fn unpacked_number(prim: Prim, order: Order, octets: &[u8]) -> Value
    requires { length octets.now ≡ size prim }
    ensures { val result ≡ number_of prim order octets.now }
{
    Value::Int(prim_value(prim, number(order, octets)))
}

/// The numbers of a list. What was read has the octets of all of them: where some are missing the answer is want of memory too.
fn unpacked_numbers(alloc: Global, numbers: &Numbers<'_>) -> Result<Row<Value>, OutOfMemory>
    ensures { IfOk result (λ values. vals values ≡ vals_of (numbers_of numbers.now)) }
{
    let size = prim_size(numbers.prim) as usize;
    let mut values = Row::new(alloc);
    let mut rest = numbers.octets;
    for turn in 0..numbers.count {
        if rest.len() < size {
            return Err(OutOfMemory);
        }
        let (first, more) = rest.split_at(size);
        values.push(unpacked_number(numbers.prim, numbers.order, first))?;
        rest = more;
    }
    Ok(values)
}

#[cycle(unpacked)]
fn unpacked_list(alloc: Global, values: &[Packed<'_>]) -> Result<Row<Value>, OutOfMemory>
    ensures { IfOk result (λ list. vals list ≡ vals_of (map packed_val values.now)) }
{
    let mut list = Row::new(alloc);
    for value in values {
        list.push(unpacked(alloc, value)?)?;
    }
    Ok(list)
}

#[cycle(unpacked)]
#[tactic(auto, using(crate::proofs::OfOctets::Unpacked::both_rules))]
fn unpacked_slot(alloc: Global, slot: &PackedSlot<'_>) -> Result<Slot, OutOfMemory>
    ensures { IfOk result (λ own. body_val own ≡ packed_slot slot.now) }
{
    match slot {
        PackedSlot::Absent => Ok(Slot::Absent),
        PackedSlot::Present(value) => Ok(Slot::Present(unpacked(alloc, value)?)),
    }
}

#[cycle(unpacked)]
fn unpacked_slots(alloc: Global, slots: &[PackedSlot<'_>]) -> Result<Row<Slot>, OutOfMemory>
    ensures { IfOk result (λ list. slots_val list ≡ slots_of (map packed_slot slots.now)) }
{
    let mut list = Row::new(alloc);
    for slot in slots {
        list.push(unpacked_slot(alloc, slot)?)?;
    }
    Ok(list)
}

#[cycle(unpacked)]
#[tactic(auto, using(crate::proofs::OfOctets::Unpacked::both_rules))]
fn unpacked_union(alloc: Global, union: &PackedUnion<'_>) -> Result<Value, OutOfMemory>
    ensures { IfOk result (λ v. val v ≡ packed_union union.now) }
{
    let body = unpacked_slot(alloc, &union.body)?;
    let disc = union.disc;
    Ok(Value::Union(Box::new(alloc, UnionValue { disc, body })?))
}

/// The value that a packed value stands for.
#[cycle(unpacked)]
#[tactic(auto, using(crate::proofs::OfOctets::Unpacked::both_rules))]
pub(crate) fn unpacked(alloc: Global, value: &Packed<'_>) -> Result<Value, OutOfMemory>
    ensures { IfOk result (λ v. val v ≡ packed_val value.now) }
{
    match value {
        Packed::Natural(number) => Ok(Value::Int(i128::from(*number))),
        Packed::Whole(number) => Ok(Value::Int(i128::from(*number))),
        Packed::Text(octets) => Ok(Value::Str(Text::from_octets(alloc, octets)?)),
        Packed::Numbers(numbers) => Ok(Value::List(unpacked_numbers(alloc, numbers)?)),
        Packed::Own(own) => Ok(Value::List(unpacked_numbers(alloc, &own.lent())?)),
        Packed::List(values) => Ok(Value::List(unpacked_list(alloc, values.as_slice())?)),
        Packed::Struct(slots) => Ok(Value::Struct(unpacked_slots(alloc, slots.as_slice())?)),
        Packed::Union(union) => unpacked_union(alloc, union),
    }
}
