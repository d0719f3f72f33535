ghost use Rattle.std.specs.Prelude.{◌≡◌, IfOk, OnOk, map};
ghost use Rattle.type_trees.specs.View.{val, body_val};
ghost use Rattle.xt_vectors.specs.Draws.{next};
ghost use Rattle.xt_vectors.specs.Values as spec;

use crate::draws::Draws;
use crate::plans::{Plan, Sort};
use std::alloc::Global;
use type_trees::{Slot, Value};
use xt_lists::{OutOfMemory, Row, Text};

/// A number of 16 bits with its sign.
#[tactic(auto, using(type_trees::proofs::Views::tree_rules), unfolding(crate::specs::Values::number_drawn))]
fn draw_number(draws: &mut Draws) -> Value
    ensures value { val result ≡ spec.number_drawn draws.old.state }
    ensures state { draws.new.state ≡ next draws.old.state }
{
    Value::Int(i128::from(draws.draw(65_536)) - 32_768)
}

/// A number up to `last`.
#[tactic(auto, unfolding(crate::specs::Values::up_to))]
fn draw_up_to(draws: &mut Draws, last: u8) -> u8
    ensures number { result ≡ spec.up_to last draws.old.state }
    ensures state { draws.new.state ≡ next draws.old.state }
{
    draws.draw(u32::from(last) + 1) as u8
}

#[tactic(auto, unfolding(crate::specs::Values::letter_drawn))]
fn draw_letter(draws: &mut Draws) -> u8
    ensures letter { result ≡ spec.letter_drawn draws.old.state }
    ensures state { draws.new.state ≡ next draws.old.state }
{
    97 + draws.draw(26) as u8
}

fn draw_letters(alloc: Global, draws: &mut Draws, count: u8) -> Result<Text, OutOfMemory>
    ensures item { IfOk result (λ text. text ≡ (spec.letters_drawn count draws.old.state).0) }
    ensures state { OnOk result (draws.new.state ≡ (spec.letters_drawn count draws.old.state).1) }
{
    let mut text = Text::new(alloc);
    for _turn in 0..count {
        text.push(draw_letter(draws))?;
    }
    Ok(text)
}

fn draw_numbers(alloc: Global, draws: &mut Draws, count: u8) -> Result<Row<Value>, OutOfMemory>
    ensures item { IfOk result (λ items. map val items ≡ (spec.numbers_drawn count draws.old.state).0) }
    ensures state { OnOk result (draws.new.state ≡ (spec.numbers_drawn count draws.old.state).1) }
{
    let mut items = Row::new(alloc);
    for _turn in 0..count {
        items.push(draw_number(draws))?;
    }
    Ok(items)
}

#[tactic(auto, using(type_trees::proofs::Views::tree_rules))]
fn draw_pair(alloc: Global, draws: &mut Draws) -> Result<Value, OutOfMemory>
    ensures item { IfOk result (λ value. val value ≡ (spec.pair_drawn draws.old.state).0) }
    ensures state { OnOk result (draws.new.state ≡ (spec.pair_drawn draws.old.state).1) }
{
    let mut slots = Row::new(alloc);
    slots.push(Slot::Present(draw_number(draws)))?;
    slots.push(Slot::Present(draw_number(draws)))?;
    Ok(Value::Struct(slots))
}

#[tactic(auto, using(type_trees::proofs::Views::tree_rules))]
fn draw_text(alloc: Global, draws: &mut Draws, bound: u8) -> Result<Value, OutOfMemory>
    ensures item { IfOk result (λ value. val value ≡ (spec.text_drawn bound draws.old.state).0) }
    ensures state { OnOk result (draws.new.state ≡ (spec.text_drawn bound draws.old.state).1) }
{
    let count = draw_up_to(draws, bound);
    Ok(Value::Str(draw_letters(alloc, draws, count)?))
}

#[tactic(auto, using(type_trees::proofs::Views::tree_rules))]
fn draw_shorts(alloc: Global, draws: &mut Draws, bound: u8) -> Result<Value, OutOfMemory>
    ensures item { IfOk result (λ value. val value ≡ (spec.shorts_drawn bound draws.old.state).0) }
    ensures state { OnOk result (draws.new.state ≡ (spec.shorts_drawn bound draws.old.state).1) }
{
    let count = draw_up_to(draws, bound);
    Ok(Value::List(draw_numbers(alloc, draws, count)?))
}

/// A value of what a member holds.
#[tactic(auto, using(type_trees::proofs::Views::tree_rules), unfolding(crate::specs::Values::value_drawn))]
fn draw_value(alloc: Global, draws: &mut Draws, sort: Sort) -> Result<Value, OutOfMemory>
    ensures item { IfOk result (λ value. val value ≡ (spec.value_drawn sort draws.old.state).0) }
    ensures state { OnOk result (draws.new.state ≡ (spec.value_drawn sort draws.old.state).1) }
{
    match sort {
        Sort::Long => Ok(draw_number(draws)),
        Sort::Octet => Ok(Value::Int(i128::from(draw_up_to(draws, 255)))),
        Sort::Text(bound) => draw_text(alloc, draws, bound),
        Sort::Shorts(bound) => draw_shorts(alloc, draws, bound),
        Sort::Literals(last) => Ok(Value::Int(i128::from(draw_up_to(draws, last)))),
        Sort::Pair => draw_pair(alloc, draws),
    }
}

#[tactic(auto, using(type_trees::proofs::Views::tree_rules))]
fn draw_present(alloc: Global, draws: &mut Draws, sort: Sort) -> Result<Slot, OutOfMemory>
    ensures item { IfOk result (λ slot. body_val slot ≡ (spec.present_drawn sort draws.old.state).0) }
    ensures state { OnOk result (draws.new.state ≡ (spec.present_drawn sort draws.old.state).1) }
{
    Ok(Slot::Present(draw_value(alloc, draws, sort)?))
}

/// The value of a member; an optional one may be absent.
#[tactic(auto, using(type_trees::proofs::Views::tree_rules), unfolding(crate::specs::Values::slot_drawn))]
fn draw_slot(alloc: Global, draws: &mut Draws, plan: &Plan) -> Result<Slot, OutOfMemory>
    ensures item { IfOk result (λ slot. body_val slot ≡ (spec.slot_drawn plan.now draws.old.state).0) }
    ensures state { OnOk result (draws.new.state ≡ (spec.slot_drawn plan.now draws.old.state).1) }
{
    if !plan.optional {
        return draw_present(alloc, draws, plan.sort);
    }
    if draws.draw(2) == 0 {
        return Ok(Slot::Absent);
    }
    draw_present(alloc, draws, plan.sort)
}

/// The values of the members, one after another.
pub(crate) fn draw_slots(
    alloc: Global,
    draws: &mut Draws,
    plans: &[Plan],
) -> Result<Row<Slot>, OutOfMemory>
    ensures item { IfOk result (λ slots. map body_val slots ≡ (spec.slots_drawn plans.now draws.old.state).0) }
    ensures state { OnOk result (draws.new.state ≡ (spec.slots_drawn plans.now draws.old.state).1) }
{
    let mut slots = Row::new(alloc);
    for plan in plans {
        slots.push(draw_slot(alloc, draws, plan)?)?;
    }
    Ok(slots)
}
