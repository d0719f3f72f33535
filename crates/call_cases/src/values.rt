//! Types of IDL texts, and values of JSON.
ghost use Rattle.std.specs.Prelude.{◌≡◌, None, IfOk};
ghost use Rattle.type_trees.specs.View.{tree};
ghost use Rattle.type_rules.specs.Valid.{type_fault};

use crate::answers::Answer;
use crate::cases::Case;
use crate::trouble::Trouble;
use dynamic_data::{from_json, to_json};
use json::Scratch;
use packed_json::{plan_of, read_taped, write_tree};
use packed_writer::write_plain;
use settled_parts::Outcome;
use std::alloc::Global;
use type_rules::check_type;
use type_trees::{Named, Pair, Slot, Value, XType};
use type_values::copy_value;
use xcdr_samples::read_sample2;
use xt_idl::{IdlFault, parse};
use xt_lists::{Row, Text};
use xt_shapes::Rep;
use xt_wire::cursor::SliceCursor;

/// The most octets that `parse` takes.
const MOST_TEXT: usize = 1_048_576;

/// The types that the text declares, or why it declares none.
pub fn parsed(alloc: Global, text: &str) -> Result<Result<Row<Named>, IdlFault>, Trouble> {
    if text.len() > MOST_TEXT {
        return Err(Trouble::Words);
    }
    Ok(parse(alloc, text.as_bytes()))
}

/// The types that the text declares.
pub fn types_of(alloc: Global, text: &str) -> Result<Row<Named>, Trouble> {
    match parsed(alloc, text)? {
        Ok(types) => Ok(types),
        Err(fault) => Err(Trouble::idl(alloc, &fault)),
    }
}

/// The type, if it breaks no rule.
fn checked(alloc: Global, ty: XType) -> Result<Box<XType>, Trouble>
    ensures { IfOk result (λ ty. type_fault (tree ty.value) ≡ None) }
{
    match check_type(&ty) {
        Ok(()) => Ok(Box::new(alloc, ty)?),
        Err(fault) => Err(Trouble::invalid(alloc, &fault)),
    }
}

/// The last type that the text declares. It breaks no rule. It comes in a box, as values do: letting go of a box is one call, and of a type
/// a part of its own for each kind of type, which is proved again at each place where a call may end.
pub fn type_of(alloc: Global, text: &str) -> Result<Box<XType>, Trouble>
    ensures { IfOk result (λ ty. type_fault (tree ty.value) ≡ None) }
{
    match types_of(alloc, text)?.pop() {
        Some(named) => checked(alloc, named.ty),
        None => Err(Trouble::Words),
    }
}

/// The value that the JSON gives for the type.
pub fn value_of(alloc: Global, ty: &XType, json: &str) -> Result<Box<Value>, Trouble>
    requires { type_fault (tree ty.now) ≡ None }
{
    match from_json(alloc, ty, json.as_bytes()) {
        Ok(value) => Ok(Box::new(alloc, value)?),
        Err(fault) => Err(Trouble::json(alloc, &fault)),
    }
}

/// The value that a tape of the JSON's tokens gives for the type, if it gives one. It comes packed, and is read from the sample that it makes.
pub fn taped_value(alloc: Global, ty: &XType, json: &str) -> Option<Box<Value>>
    requires { type_fault (tree ty.now) ≡ None }
{
    let mut scratch = Scratch::new(alloc);
    let packed = read_taped(alloc, ty, json.as_bytes(), &mut scratch)?;
    let sample = write_plain(Rep::Xcdr2, ty, &packed, Vec::new(alloc))?;
    let mut cursor = SliceCursor::new(sample.as_slice());
    match read_sample2(alloc, ty, &mut cursor) {
        Ok(Outcome::Sample(value)) => match Box::new(alloc, value) {
            Ok(value) => Some(value),
            Err(_) => None,
        },
        _ => None,
    }
}

/// The value of a case, of the writer's type where there is one.
pub fn given_value(alloc: Global, case: &Case<'_>) -> Result<Box<Value>, Trouble> {
    let text = if case.writer.is_empty() {
        case.ty
    } else {
        case.writer
    };
    let ty = type_of(alloc, text)?;
    value_of(alloc, &ty, case.value)
}

/// The pair that a structure of a key and a value stands for.
fn pair_of(alloc: Global, item: &Value) -> Result<Pair, Trouble> {
    let Value::Struct(slots) = item else {
        return Err(Trouble::Words);
    };
    let [Slot::Present(key), Slot::Present(value)] = slots.as_slice() else {
        return Err(Trouble::Words);
    };
    Ok(Pair {
        key: copy_value(alloc, key)?,
        value: copy_value(alloc, value)?,
    })
}

fn listed_pairs(alloc: Global, items: &[Value]) -> Result<Row<Pair>, Trouble> {
    let mut pairs = Row::new(alloc);
    for item in items {
        pairs.push(pair_of(alloc, item)?)?;
    }
    Ok(pairs)
}

fn copied_pairs(alloc: Global, pairs: &[Pair]) -> Result<Row<Pair>, Trouble> {
    let mut copy = Row::new(alloc);
    for pair in pairs {
        copy.push(Pair {
            key: copy_value(alloc, &pair.key)?,
            value: copy_value(alloc, &pair.value)?,
        })?;
    }
    Ok(copy)
}

/// The pairs of a map, or those that a list stands for: in no map that JSON gives does a key come again.
pub fn pairs_of(alloc: Global, value: &Value) -> Result<Row<Pair>, Trouble> {
    match value {
        Value::Map(pairs) => copied_pairs(alloc, pairs.as_slice()),
        Value::List(items) => listed_pairs(alloc, items.as_slice()),
        _ => Err(Trouble::Words),
    }
}

/// The text as a string, where it is one.
pub fn string_of(alloc: Global, text: &Text) -> Result<String, Trouble> {
    match str::from_utf8(text.octets()) {
        Ok(text) => Ok(String::from_str(alloc, text)?),
        Err(_) => Err(Trouble::Words),
    }
}

/// The JSON of a value.
pub fn json_of(alloc: Global, ty: &XType, value: &Value) -> Result<String, Trouble>
    requires { type_fault (tree ty.now) ≡ None }
{
    string_of(alloc, &to_json(alloc, ty, value)?)
}

/// The JSON of a value by the plan of its type, if it gives one.
pub fn planned_json(alloc: Global, ty: &XType, value: &Value) -> Option<Text> {
    let plan = plan_of(alloc, ty)?;
    let mut text = Text::new(alloc);
    write_tree(&plan, value, &mut text)?;
    Some(text)
}

/// The JSON of a value, as an answer.
pub fn json_told(alloc: Global, ty: &XType, value: &Value) -> Result<Answer, Trouble>
    requires { type_fault (tree ty.now) ≡ None }
{
    Ok(Answer::Text(json_of(alloc, ty, value)?))
}
