ghost use Rattle.std.specs.Prelude.{◌≡◌, Ok, Err, None, IfOk};
ghost use Rattle.type_trees.specs.View.{tree, val};
ghost use Rattle.type_rules.specs.Valid.{type_fault};
ghost use Rattle.settled_parts.specs.Settling.{outcome_val};
ghost use Rattle.tool_samples.specs.lines.Lines as lines;

use dynamic_data::to_json;
use settled_parts::Outcome;
use std::alloc::Global;
use type_trees::{Value, XType};
use xcdr_model::Why;
use xt_lists::{OutOfMemory, Text};

/// `ok` and a value as JSON.
pub fn value_text(alloc: Global, ty: &XType, value: &Value) -> Result<Text, OutOfMemory>
    requires { type_fault (tree ty.now) ≡ None }
    ensures { IfOk result (λ text. text ≡ lines.value_text (tree ty.now) (val value.now)) }
{
    let json = to_json(alloc, ty, value)?;
    let mut text = Text::from_octets(alloc, b"ok ")?;
    text.append(json.octets())?;
    Ok(text)
}

/// What a reading came to: `ok` and the value as JSON, or that it is discarded, or that a member had to be understood.
pub fn outcome_text(alloc: Global, ty: &XType, outcome: &Outcome) -> Result<Text, OutOfMemory>
    requires { type_fault (tree ty.now) ≡ None }
    ensures { IfOk result (λ text. text ≡ lines.outcome_text (tree ty.now) (Ok (outcome_val outcome.now))) }
{
    match outcome {
        Outcome::Sample(value) => value_text(alloc, ty, value),
        Outcome::Discarded => Text::from_octets(alloc, b"discarded"),
        Outcome::MustUnderstand => Text::from_octets(alloc, b"must-understand"),
    }
}

/// The place of the first fault, and why.
pub fn malformed_text(alloc: Global, at: u64, why: Why) -> Result<Text, OutOfMemory>
    ensures { IfOk result (λ text. text ≡ lines.malformed_text (record { at = at; why = why })) }
{
    let text = format!(in alloc; "malformed {at} {why}")?;
    Text::from_octets(alloc, text.as_bytes())
}
