//! Lists of numbers and of literals, item by item without a look at the type.
ghost use Rattle.std.specs.Prelude.{◌≡◌, ◌++◌, List, true, OnOk};
ghost use Rattle.std.specs.Str.{is_utf8};
ghost use Rattle.json.specs.Tree.{json_tokens, items_tokens};
ghost use Rattle.serde_json.specs.Written.{outline, items_outline};
ghost use Rattle.xt_shapes.specs.Lists.{all};
ghost use Rattle.type_trees.specs.View.{val, vals};
ghost use Rattle.type_trees.specs.declared.types.Literal.{Literal};
ghost use Rattle.json_values.specs.Indices.{HoldsTexts};
ghost use Rattle.json_values.specs.Names.{literal_names};
ghost use Rattle.json_values.specs.Written as spec;

use crate::indices::NameIndex;
use crate::write::write_prim;
use json::Writer;
use std::alloc::{AllocError, Global};
use type_trees::{Literal, Value};
use xt_shapes::Prim;

#[inline(always)]
#[tactic(auto, using(type_trees::proofs::Views::val_rules))]
fn write_number(prim: Prim, value: &Value, out: &mut Writer) -> Result<(), AllocError>
    ensures ok { OnOk result (out.new.tokens ≡ out.old.tokens ++ json_tokens (outline (spec.int_data (spec.prim_data prim) (val value.now)))) }
    ensures before { out.new.before ≡ out.old.before }
{
    match value {
        Value::Int(number) => write_prim(prim, *number, out),
        _ => out.null(),
    }
}

/// The rest of a list of numbers, with its end.
pub(crate) fn write_numbers(
    prim: Prim,
    values: &[Value],
    out: &mut Writer,
) -> Result<(), AllocError>
    ensures ok { OnOk result (out.new.tokens ≡ out.old.tokens ++ items_tokens (items_outline (spec.vals_data (spec.int_data (spec.prim_data prim)) (vals values.now)))) }
    ensures before { out.new.before ≡ out.old.before }
{
    for value in values {
        write_number(prim, value, out)?;
    }
    out.end_array()
}

#[tactic(auto, using(type_trees::proofs::Views::val_rules))]
fn write_indexed(index: &NameIndex, value: &Value, out: &mut Writer) -> Result<(), AllocError>
    ensures ok { (ls : List Literal) → HoldsTexts ls index.now.by_value → OnOk result (out.new.tokens ≡ out.old.tokens ++ json_tokens (outline (spec.int_data (spec.literal_data ls) (val value.now)))) }
    ensures before { out.new.before ≡ out.old.before }
{
    let Value::Int(number) = value else {
        return out.null();
    };
    match index.name_of(*number) {
        Some(name) => out.string(name),
        None => out.null(),
    }
}

/// The rest of a list of literals, with its end, by an index of their values.
pub(crate) fn write_literals(
    alloc: Global,
    literals: &[Literal],
    values: &[Value],
    out: &mut Writer,
) -> Result<(), AllocError>
    requires { all is_utf8 (literal_names literals.now) ≡ true }
    ensures ok { OnOk result (out.new.tokens ≡ out.old.tokens ++ items_tokens (items_outline (spec.vals_data (spec.int_data (spec.literal_data literals.now)) (vals values.now)))) }
    ensures before { out.new.before ≡ out.old.before }
{
    let Ok(index) = NameIndex::new(alloc, literals) else {
        return Err(AllocError);
    };
    for value in values {
        write_indexed(&index, value, out)?;
    }
    out.end_array()
}
