ghost use Rattle.std.specs.Prelude.{◌≡◌, ◌≤◌, true, Some, IfOk};
ghost use Rattle.json.specs.Tree.{HasNumbers};
ghost use Rattle.json.specs.Value.{value_view};
ghost use Rattle.xt_shapes.specs.Vals as vals;
ghost use Rattle.type_rules.specs.Places.{depth};
ghost use Rattle.type_trees.specs.View.{tree, val, cases_tree};
ghost use Rattle.json_values.specs.Names.{has_text_names};
ghost use Rattle.dynamic_data.specs.numbers.Walks as spec;

use json::{Value as Json, to_vec};
use json_values::{ValueFault, read_json};
use std::alloc::Global;
use type_trees::{Case, Value, XType, select};
use xt_lists::OutOfMemory;

#[tactic(auto, using(type_trees::proofs::Views::val_rules))]
fn number_in(value: &Value) -> i128
    ensures { result ≡ vals.number_in (val value.now) }
{
    match value {
        Value::Int(number) => *number,
        Value::Str(_) | Value::List(_) | Value::Map(_) | Value::Struct(_) | Value::Union(_) => 0,
    }
}

// The number that a discriminator means.
fn disc_in(alloc: Global, ty: &XType, part: &Json<'_>) -> Result<Option<i128>, OutOfMemory>
    requires deep { depth (tree ty.now) ≤ 16 }
    requires named { has_text_names (tree ty.now) ≡ true }
    requires writable { HasNumbers (value_view part.now) }
    ensures { IfOk result (λ number. number ≡ spec.disc_in (tree ty.now) (Some (value_view part.now))) }
{
    let text = to_vec(alloc, part)?;
    match read_json(alloc, ty, text.as_slice()) {
        Ok(value) => Ok(Some(number_in(&value))),
        Err(ValueFault::OutOfMemory) => Err(OutOfMemory),
        Err(ValueFault::NotJson | ValueFault::Wrong { .. }) => Ok(None),
    }
}

/// The case that the discriminator of a union selects.
pub(crate) fn case_in(
    alloc: Global,
    disc: &XType,
    cases: &[Case],
    part: &Json<'_>,
) -> Result<Option<u32>, OutOfMemory>
    requires deep { depth (tree disc.now) ≤ 16 }
    requires named { has_text_names (tree disc.now) ≡ true }
    requires writable { HasNumbers (value_view part.now) }
    ensures { IfOk result (λ id. id ≡ spec.case_in (tree disc.now) (cases_tree cases.now) (value_view part.now)) }
{
    let Some(value) = part.get("d") else {
        return Ok(None);
    };
    match disc_in(alloc, disc, value)? {
        Some(number) => Ok(select(cases, number)),
        None => Ok(None),
    }
}
