ghost use Rattle.std.specs.Prelude.{◌≡◌, ◌^◌, IfOk, IfErr};
ghost use Rattle.serde_json.specs.View.{view};
ghost use Rattle.type_trees.specs.View.{val};
ghost use Rattle.xt_shapes.specs.Vals.{text};
ghost use Rattle.json_values.specs.declared.faults.ValueFault.TheVariants.{OutOfMemory};
ghost use Rattle.json_values.specs.Steps.{FailsAs, here, steps_of};
ghost use Rattle.json_values.specs.Read as spec;
ghost use Rattle.json_values.specs.Indices.{value_named};
ghost use Rattle.xt_shapes.specs.Typing.{of_prim, is_below};
ghost use Rattle.std.specs.Prelude.{bytes_eq, Some, option_map};
ghost use Rattle.std.specs.Int.{w32, w64};

use crate::faults::{JsonRule, ValueFault};
use crate::names::is_named;
use hex::{FromHex, FromHexError};
use serde_json::Value as Data;
use std::alloc::Global;
use type_trees::{Literal, Path, Value};
use type_values::{fits_bits, is_of_prim, is_past, is_text_within};
use xt_lists::Text;
use xt_shapes::Prim;

/// A fault at the place that is read.
#[inline(always)]
pub(crate) fn wrong(rule: JsonRule) -> ValueFault
    ensures { Err result ≡ here {A = Value} rule }
{
    ValueFault::Wrong {
        path: Path::empty(),
        rule,
    }
}

#[tactic(auto, using(crate::proofs::DataViews::data_rules, type_trees::proofs::Views::val_rules))]
#[inline(always)]
fn read_boolean(part: &Data) -> Result<Value, ValueFault>
    ensures ok { IfOk result (λ v. spec.boolean_of (view part.now) ≡ Ok (val v)) }
    ensures err { IfErr result (λ e. spec.boolean_of (view part.now) ≡ Err e) }
    ensures short { IfErr result (λ e. steps_of e ≡ 0) }
{
    match part {
        Data::Bool(truth) => Ok(Value::Int(if *truth { 1 } else { 0 })),
        Data::Null | Data::Number(_) | Data::String(_) | Data::Array(_) | Data::Object(_) => Err(
            wrong(JsonRule::Kind),
        ),
    }
}

#[tactic(auto, using(crate::proofs::DataViews::data_rules, type_trees::proofs::Views::val_rules))]
#[inline(always)]
fn read_whole(prim: Prim, part: &Data) -> Result<Value, ValueFault>
    ensures ok { IfOk result (λ v. spec.whole_of (of_prim prim) (view part.now) ≡ Ok (val v)) }
    ensures err { IfErr result (λ e. spec.whole_of (of_prim prim) (view part.now) ≡ Err e) }
    ensures short { IfErr result (λ e. steps_of e ≡ 0) }
{
    match part {
        Data::Number(number) => match number.as_i128() {
            None => Err(wrong(JsonRule::Range)),
            Some(number) => if is_of_prim(prim, number) {
                Ok(Value::Int(number))
            } else {
                Err(wrong(JsonRule::Range))
            },
        },
        Data::Null | Data::Bool(_) | Data::String(_) | Data::Array(_) | Data::Object(_) => Err(
            wrong(JsonRule::Kind),
        ),
    }
}

#[tactic(auto, using(crate::proofs::DataViews::data_rules, type_trees::proofs::Views::val_rules))]
#[inline(always)]
pub(crate) fn read_mask(bits: u8, part: &Data) -> Result<Value, ValueFault>
    ensures ok { IfOk result (λ v. spec.whole_of (is_below (2 ^ bits)) (view part.now) ≡ Ok (val v)) }
    ensures err { IfErr result (λ e. spec.whole_of (is_below (2 ^ bits)) (view part.now) ≡ Err e) }
    ensures short { IfErr result (λ e. steps_of e ≡ 0) }
{
    match part {
        Data::Number(number) => match number.as_i128() {
            None => Err(wrong(JsonRule::Range)),
            Some(number) => if fits_bits(bits, number) {
                Ok(Value::Int(number))
            } else {
                Err(wrong(JsonRule::Range))
            },
        },
        Data::Null | Data::Bool(_) | Data::String(_) | Data::Array(_) | Data::Object(_) => Err(
            wrong(JsonRule::Kind),
        ),
    }
}

#[tactic(auto, using(crate::proofs::DataViews::data_rules, type_trees::proofs::Views::val_rules))]
#[inline(always)]
fn read_single(part: &Data) -> Result<Value, ValueFault>
    ensures ok { IfOk result (λ v. spec.bits_of w32 4 (view part.now) ≡ Ok (val v)) }
    ensures err { IfErr result (λ e. spec.bits_of w32 4 (view part.now) ≡ Err e) }
    ensures short { IfErr result (λ e. steps_of e ≡ 0) }
{
    match part {
        Data::String(text) => match <[u8; 4]>::from_hex(text.as_str()) {
            Ok(octets) => Ok(Value::Int(i128::from(u32::from_be_bytes(octets)))),
            Err(_) => Err(wrong(JsonRule::Text)),
        },
        Data::Null | Data::Bool(_) | Data::Number(_) | Data::Array(_) | Data::Object(_) => Err(
            wrong(JsonRule::Kind),
        ),
    }
}

#[tactic(auto, using(crate::proofs::DataViews::data_rules, type_trees::proofs::Views::val_rules))]
#[inline(always)]
fn read_double(part: &Data) -> Result<Value, ValueFault>
    ensures ok { IfOk result (λ v. spec.bits_of w64 8 (view part.now) ≡ Ok (val v)) }
    ensures err { IfErr result (λ e. spec.bits_of w64 8 (view part.now) ≡ Err e) }
    ensures short { IfErr result (λ e. steps_of e ≡ 0) }
{
    match part {
        Data::String(text) => match <[u8; 8]>::from_hex(text.as_str()) {
            Ok(octets) => Ok(Value::Int(i128::from(u64::from_be_bytes(octets)))),
            Err(_) => Err(wrong(JsonRule::Text)),
        },
        Data::Null | Data::Bool(_) | Data::Number(_) | Data::Array(_) | Data::Object(_) => Err(
            wrong(JsonRule::Kind),
        ),
    }
}

#[inline(always)]
pub(crate) fn read_prim(prim: Prim, part: &Data) -> Result<Value, ValueFault>
    ensures ok { IfOk result (λ v. spec.prim_of prim (view part.now) ≡ Ok (val v)) }
    ensures err { IfErr result (λ e. spec.prim_of prim (view part.now) ≡ Err e) }
    ensures short { IfErr result (λ e. steps_of e ≡ 0) }
{
    match prim {
        Prim::Boolean => read_boolean(part),
        Prim::Float32 => read_single(part),
        Prim::Float64 => read_double(part),
        Prim::Byte
        | Prim::Int8
        | Prim::Uint8
        | Prim::Int16
        | Prim::Uint16
        | Prim::Int32
        | Prim::Uint32
        | Prim::Int64
        | Prim::Uint64
        | Prim::Char8 => read_whole(prim, part),
    }
}

/// The value of the first literal with that name, as names stand in JSON.
pub fn literal_named(literals: &[Literal], text: &[u8]) -> Option<i32>
    ensures { result ≡ value_named literals.now text.now }
{
    for literal in literals {
        if is_named(&literal.name, text) {
            return Some(literal.value);
        }
    }
    None
}

fn read_named(literals: &[Literal], text: &[u8]) -> Result<Value, ValueFault>
    ensures ok { IfOk result (λ v. spec.literal_named literals.now text.now ≡ Ok (val v)) }
    ensures err { IfErr result (λ e. spec.literal_named literals.now text.now ≡ Err e) }
    ensures short { IfErr result (λ e. steps_of e ≡ 0) }
{
    match literal_named(literals, text) {
        Some(value) => Ok(Value::Int(i128::from(value))),
        None => Err(wrong(JsonRule::Literal)),
    }
}

#[tactic(auto, using(crate::proofs::DataViews::data_rules))]
pub(crate) fn read_literal(literals: &[Literal], part: &Data) -> Result<Value, ValueFault>
    ensures ok { IfOk result (λ v. spec.literal_of literals.now (view part.now) ≡ Ok (val v)) }
    ensures err { IfErr result (λ e. spec.literal_of literals.now (view part.now) ≡ Err e) }
    ensures short { IfErr result (λ e. steps_of e ≡ 0) }
{
    match part {
        Data::String(text) => read_named(literals, text.as_bytes()),
        Data::Null | Data::Bool(_) | Data::Number(_) | Data::Array(_) | Data::Object(_) => Err(
            wrong(JsonRule::Kind),
        ),
    }
}

/// The first rule that octets break as a string of this bound: `Text` where a NUL stands in them, `Bound` where they are too many.
#[inline(always)]
pub fn octets_fault(bound: u32, octets: &[u8]) -> Option<JsonRule>
    ensures { spec.octets_of bound octets.now ≡ spec.unless_fault result (text octets.now) }
{
    if !is_text_within(0, octets) {
        return Some(JsonRule::Text);
    }
    if is_past(bound, octets.len()) {
        return Some(JsonRule::Bound);
    }
    None
}

#[tactic(auto, using(type_trees::proofs::Views::val_rules))]
fn read_octets(bound: u32, octets: Vec<u8>) -> Result<Value, ValueFault>
    ensures ok { IfOk result (λ v. spec.octets_of bound octets.items ≡ Ok (val v)) }
    ensures err { IfErr result (λ e. spec.octets_of bound octets.items ≡ Err e) }
    ensures short { IfErr result (λ e. steps_of e ≡ 0) }
{
    match octets_fault(bound, octets.as_slice()) {
        Some(rule) => Err(wrong(rule)),
        None => Ok(Value::Str(Text::from_vec(octets))),
    }
}

pub(crate) fn read_hex(alloc: Global, bound: u32, part: Option<&Data>) -> Result<Value, ValueFault>
    ensures ok { IfOk result (λ v. spec.hex_of bound (option_map (λ d. view d.now) part.entry) ≡ Ok (val v)) }
    ensures err { FailsAs (spec.hex_of bound (option_map (λ d. view d.now) part.entry)) result }
    ensures short { IfErr result (λ e. steps_of e ≡ 0) }
{
    match part {
        None => Err(wrong(JsonRule::Missing)),
        Some(part) => read_digits(alloc, bound, part),
    }
}

#[tactic(auto, using(crate::proofs::DataViews::data_rules))]
fn read_digits(alloc: Global, bound: u32, part: &Data) -> Result<Value, ValueFault>
    ensures ok { IfOk result (λ v. spec.hex_of bound (Some (view part.now)) ≡ Ok (val v)) }
    ensures err { FailsAs (spec.hex_of bound (Some (view part.now))) result }
    ensures short { IfErr result (λ e. steps_of e ≡ 0) }
{
    match part {
        Data::String(text) => match hex::decode(alloc, text.as_str()) {
            Ok(octets) => read_octets(bound, octets),
            Err(FromHexError::OutOfMemory) => Err(ValueFault::OutOfMemory),
            Err(FromHexError::OddLength) => Err(wrong(JsonRule::Text)),
            Err(FromHexError::InvalidHexCharacter { .. }) => Err(wrong(JsonRule::Text)),
            Err(FromHexError::InvalidStringLength) => Err(wrong(JsonRule::Text)),
        },
        Data::Null | Data::Bool(_) | Data::Number(_) | Data::Array(_) | Data::Object(_) => Err(
            wrong(JsonRule::Kind),
        ),
    }
}
