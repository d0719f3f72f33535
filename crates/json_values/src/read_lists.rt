//! Lists of numbers and of literals, item by item without a look at the type.
ghost use Rattle.std.specs.Prelude.{◌≡◌, ◌≤◌, true, map, List, IfOk, IfErr};
ghost use Rattle.std.specs.Str.{is_utf8};
ghost use Rattle.serde_json.specs.View.{view, items_view};
ghost use Rattle.xt_shapes.specs.Lists.{all};
ghost use Rattle.type_trees.specs.View.{val};
ghost use Rattle.type_trees.specs.declared.types.Literal.{Literal};
ghost use Rattle.json_values.specs.declared.faults.ValueFault.TheVariants.{OutOfMemory};
ghost use Rattle.json_values.specs.Indices.{HoldsValues};
ghost use Rattle.json_values.specs.Names.{literal_names};
ghost use Rattle.json_values.specs.Read as spec;
ghost use Rattle.json_values.specs.Steps.{FailsAs, beneath, steps_of};
ghost use Rattle.xt_shapes.specs.declared.leaves.Step.{Step};

use crate::faults::{JsonRule, ValueFault, below};
use crate::indices::ValueIndex;
use crate::leaves::{read_prim, wrong};
use serde_json::Value as Data;
use std::alloc::Global;
use type_trees::{Literal, Value};
use xt_lists::Row;
use xt_shapes::{Prim, Step};

/// A number of a list.
#[inline(always)]
fn read_number(prim: Prim, part: &Data) -> Result<Value, ValueFault>
    ensures ok { IfOk result (λ v. beneath Step.Element (spec.prim_of prim (view part.now)) ≡ Ok (val v)) }
    ensures err { IfErr result (λ e. beneath Step.Element (spec.prim_of prim (view part.now)) ≡ Err e) }
    ensures short { IfErr result (λ e. steps_of e ≤ 1) }
{
    match read_prim(prim, part) {
        Ok(value) => Ok(value),
        Err(fault) => Err(below(Step::Element, fault)),
    }
}

/// The numbers of a list.
pub(crate) fn read_numbers(
    alloc: Global,
    prim: Prim,
    items: &[Data],
) -> Result<Row<Value>, ValueFault>
    ensures ok { IfOk result (λ vs. spec.items_of (spec.prim_of prim) (items_view items.now) ≡ Ok (map val vs)) }
    ensures err { FailsAs (spec.items_of (spec.prim_of prim) (items_view items.now)) result }
    ensures short { IfErr result (λ e. steps_of e ≤ 1) }
{
    let mut values = Row::new(alloc);
    values.reserve(items.len())?;
    for item in items {
        let value = read_number(prim, item)?;
        values.push(value)?;
    }
    Ok(values)
}

/// The literal of a list that is named.
#[tactic(auto, using(crate::proofs::DataViews::data_rules, type_trees::proofs::Views::val_rules))]
fn read_indexed(index: &ValueIndex, part: &Data) -> Result<Value, ValueFault>
    ensures ok { (ls : List Literal) → HoldsValues ls index.now.by_name → IfOk result (λ v. beneath Step.Element (spec.literal_of ls (view part.now)) ≡ Ok (val v)) }
    ensures err { (ls : List Literal) → HoldsValues ls index.now.by_name → IfErr result (λ e. beneath Step.Element (spec.literal_of ls (view part.now)) ≡ Err e) }
    ensures short { IfErr result (λ e. steps_of e ≤ 1) }
{
    match part {
        Data::String(text) => match index.value_named(text.as_str()) {
            Some(value) => Ok(Value::Int(i128::from(value))),
            None => Err(below(Step::Element, wrong(JsonRule::Literal))),
        },
        Data::Null | Data::Bool(_) | Data::Number(_) | Data::Array(_) | Data::Object(_) => Err(
            below(Step::Element, wrong(JsonRule::Kind)),
        ),
    }
}

/// The values of a list of literals, by an index of their names.
pub(crate) fn read_literals(
    alloc: Global,
    literals: &[Literal],
    items: &[Data],
) -> Result<Row<Value>, ValueFault>
    requires { all is_utf8 (literal_names literals.now) ≡ true }
    ensures ok { IfOk result (λ vs. spec.items_of (spec.literal_of literals.now) (items_view items.now) ≡ Ok (map val vs)) }
    ensures err { FailsAs (spec.items_of (spec.literal_of literals.now) (items_view items.now)) result }
    ensures short { IfErr result (λ e. steps_of e ≤ 1) }
{
    let index = ValueIndex::new(alloc, literals)?;
    let mut values = Row::new(alloc);
    values.reserve(items.len())?;
    for item in items {
        let value = read_indexed(&index, item)?;
        values.push(value)?;
    }
    Ok(values)
}
