//! The parts of a value of a kind; of another kind, none.
ghost use Rattle.std.specs.Prelude.{◌≡◌, map, drop};
ghost use Rattle.std.specs.Option.{option_map};
ghost use Rattle.xt_shapes.specs.Vals as spec;
ghost use Rattle.xt_shapes.specs.Vals.{first};
ghost use Rattle.type_trees.specs.View.{val, pair_val, body_val, slots_val};
ghost use Rattle.value_writer.specs.Slots.{slot_of};

use type_trees::{Pair, Slot, Value};

/// The number, or 0.
#[tactic(auto, using(type_trees::proofs::Views::val_rules))]
#[inline(always)]
pub fn number_in(value: &Value) -> i128
    ensures { result ≡ spec.number_in (val value.now) }
{
    match value {
        Value::Int(number) => *number,
        Value::Str(_) | Value::List(_) | Value::Map(_) | Value::Struct(_) | Value::Union(_) => 0,
    }
}

/// The octets of a string.
#[tactic(auto, using(type_trees::proofs::Views::val_rules))]
pub fn octets_in(value: &Value) -> &[u8]
    ensures { result.now ≡ spec.octets_in (val value.now) }
{
    match value {
        Value::Str(text) => text.octets(),
        Value::Int(_) | Value::List(_) | Value::Map(_) | Value::Struct(_) | Value::Union(_) => &[],
    }
}

/// The elements of a sequence or array.
#[tactic(auto, using(crate::proofs::Parts::part_rules))]
pub fn items_in(value: &Value) -> &[Value]
    ensures { map val result.now ≡ spec.items_in (val value.now) }
{
    match value {
        Value::List(items) => items.as_slice(),
        Value::Int(_) | Value::Str(_) | Value::Map(_) | Value::Struct(_) | Value::Union(_) => &[],
    }
}

/// The entries of a map.
#[tactic(auto, using(crate::proofs::Parts::part_rules))]
pub fn entries_in(value: &Value) -> &[Pair]
    ensures { map pair_val result.now ≡ spec.entries_in (val value.now) }
{
    match value {
        Value::Map(entries) => entries.as_slice(),
        Value::Int(_) | Value::Str(_) | Value::List(_) | Value::Struct(_) | Value::Union(_) => &[],
    }
}

/// The slots of a structure.
#[tactic(auto, using(type_trees::proofs::Views::val_rules))]
pub fn slots_in(value: &Value) -> &[Slot]
    ensures { slots_val result.now ≡ spec.slots_in (val value.now) }
{
    match value {
        Value::Struct(slots) => slots.as_slice(),
        Value::Int(_) | Value::Str(_) | Value::List(_) | Value::Map(_) | Value::Union(_) => &[],
    }
}

/// The number of a union's discriminator, or 0.
#[tactic(auto, using(type_trees::proofs::Views::val_rules))]
pub fn disc_in(value: &Value) -> i128
    ensures { result ≡ spec.disc_in (val value.now) }
{
    match value {
        Value::Union(union) => union.disc,
        Value::Int(_) | Value::Str(_) | Value::List(_) | Value::Map(_) | Value::Struct(_) => 0,
    }
}

#[tactic(auto, using(type_trees::proofs::Views::val_rules))]
fn present(slot: &Slot) -> Option<&Value>
    ensures { slot_of (option_map (λ v. val v.now) result) ≡ body_val slot.now }
{
    match slot {
        Slot::Absent => None,
        Slot::Present(value) => Some(value),
    }
}

/// The value of a union's case, where it is present.
#[tactic(auto, using(type_trees::proofs::Views::val_rules))]
pub fn body_in(value: &Value) -> Option<&Value>
    ensures { slot_of (option_map (λ v. val v.now) result) ≡ spec.body_in (val value.now) }
{
    match value {
        Value::Union(union) => present(&union.body),
        Value::Int(_) | Value::Str(_) | Value::List(_) | Value::Map(_) | Value::Struct(_) => None,
    }
}

/// The value of the slot at `index`, where it is there and present.
#[tactic(auto, using(crate::proofs::Parts::slot_rules))]
pub fn slot_at(slots: &[Slot], index: usize) -> Option<&Value>
    ensures { slot_of (option_map (λ v. val v.now) result) ≡ first (slots_val (drop index slots.now)) }
{
    match slots.get(index) {
        None => None,
        Some(slot) => present(slot),
    }
}
