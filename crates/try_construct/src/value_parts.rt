// The parts of a value of a kind; of another kind, none.
ghost use Rattle.std.specs.Prelude.{◌≡◌, map};
ghost use Rattle.std.specs.Option.{option_map};
ghost use Rattle.xt_shapes.specs.Vals as spec;
ghost use Rattle.type_trees.specs.View.{val, body_val, pair_val, slots_val};
ghost use Rattle.try_construct.specs.Present.{slot_with, slot_at};
ghost use Rattle.xcdr_model.specs.Projection.{is_present};

use type_trees::{Pair, Slot, Value};

/// The number of a primitive, an enumeration or a bitmask.
#[tactic(auto, using(type_trees::proofs::Views::val_rules))]
pub(crate) fn number_in(value: &Value) -> i128
    ensures { result ≡ spec.number_in (val value.now) }
{
    match value {
        Value::Int(number) => *number,
        Value::Str(_) | Value::List(_) | Value::Map(_) | Value::Struct(_) | Value::Union(_) => 0,
    }
}

/// The octets of a text.
#[tactic(auto, using(type_trees::proofs::Views::val_rules))]
pub(crate) fn octets_in(value: &Value) -> &[u8]
    ensures { result.now ≡ spec.octets_in (val value.now) }
{
    match value {
        Value::Str(text) => text.octets(),
        Value::Int(_) | Value::List(_) | Value::Map(_) | Value::Struct(_) | Value::Union(_) => &[],
    }
}

/// The items of a sequence or an array.
#[tactic(auto, using(type_values::proofs::Parts::part_rules))]
pub(crate) fn items_in(value: &Value) -> &[Value]
    ensures { map val result.now ≡ spec.items_in (val value.now) }
{
    match value {
        Value::List(values) => values.as_slice(),
        Value::Int(_) | Value::Str(_) | Value::Map(_) | Value::Struct(_) | Value::Union(_) => &[],
    }
}

/// The entries of a map.
#[tactic(auto, using(type_values::proofs::Parts::part_rules))]
pub(crate) fn entries_in(value: &Value) -> &[Pair]
    ensures { map pair_val result.now ≡ spec.entries_in (val value.now) }
{
    match value {
        Value::Map(pairs) => pairs.as_slice(),
        Value::Int(_) | Value::Str(_) | Value::List(_) | Value::Struct(_) | Value::Union(_) => &[],
    }
}

/// The slots of a structure.
#[tactic(auto, using(type_trees::proofs::Views::val_rules))]
pub(crate) fn slots_in(value: &Value) -> &[Slot]
    ensures { slots_val result.now ≡ spec.slots_in (val value.now) }
{
    match value {
        Value::Struct(slots) => slots.as_slice(),
        Value::Int(_) | Value::Str(_) | Value::List(_) | Value::Map(_) | Value::Union(_) => &[],
    }
}

/// The discriminator of a union.
#[tactic(auto, using(type_trees::proofs::Views::val_rules))]
pub(crate) fn disc_in(value: &Value) -> i128
    ensures { result ≡ spec.disc_in (val value.now) }
{
    match value {
        Value::Union(union) => union.disc,
        Value::Int(_) | Value::Str(_) | Value::List(_) | Value::Map(_) | Value::Struct(_) => 0,
    }
}

/// The value in a slot.
#[tactic(auto, using(type_trees::proofs::Views::val_rules))]
fn present_in(slot: &Slot) -> Option<&Value>
    ensures { slot_with (option_map (λ v. val v.now) result) ≡ body_val slot.now }
{
    match slot {
        Slot::Absent => None,
        Slot::Present(value) => Some(value),
    }
}

/// The value of a union's case.
#[tactic(auto, using(type_trees::proofs::Views::val_rules))]
pub(crate) fn body_in(value: &Value) -> Option<&Value>
    ensures { slot_with (option_map (λ v. val v.now) result) ≡ spec.body_in (val value.now) }
{
    match value {
        Value::Union(union) => present_in(&union.body),
        Value::Int(_) | Value::Str(_) | Value::List(_) | Value::Map(_) | Value::Struct(_) => None,
    }
}

/// The value in the slot with that index, where the slot is there.
#[tactic(auto, using(crate::proofs::FoundSteps::slot_rules))]
pub(crate) fn present_at(slots: &[Slot], index: usize) -> Option<&Value>
    ensures { slot_with (option_map (λ v. val v.now) result) ≡ slot_at (slots_val slots.now) index }
{
    if index >= slots.len() {
        return None;
    }
    present_in(&slots[index])
}

/// Whether there is a value in the slot with that index.
#[tactic(auto, using(crate::proofs::FoundSteps::present_is))]
pub(crate) fn is_present_at(slots: &[Slot], index: usize) -> bool
    ensures { result ≡ is_present (slot_at (slots_val slots.now) index) }
{
    present_at(slots, index).is_some()
}
