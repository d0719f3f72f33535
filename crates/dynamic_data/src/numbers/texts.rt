ghost use Rattle.std.specs.Prelude.{◌≡◌, ◌≢◌, ◌≤◌, ⊤, true, List, None, Some, Ok, Err, IfOk, MatchOption};
ghost use Rattle.json.specs.Tree.{HasNumbers};
ghost use Rattle.json.specs.Value.{value_view};
ghost use Rattle.xt_shapes.specs.declared.leaves.Step.{Step};
ghost use Rattle.xt_shapes.specs.Typing.{has_type};
ghost use Rattle.type_trees.specs.Bridge.{type_shape};
ghost use Rattle.type_trees.specs.View.{tree, val};
ghost use Rattle.type_rules.specs.Places.{depth};
ghost use Rattle.type_rules.specs.Valid.{type_fault};
ghost use Rattle.json_values.specs.Names.{has_text_names};
ghost use Rattle.json_values.specs.Read.{read_as};
ghost use Rattle.json_values.specs.Steps.{FailsAs};
ghost use Rattle.json_values.specs.declared.faults.JsonRule.{JsonRule as AnyRule};
ghost use Rattle.json_values.specs.declared.faults.ValueFault.TheVariants.{Wrong, OutOfMemory as NoMemory};
ghost use Rattle.dynamic_data.specs.declared.numbers.forms.Form.{Form as AnyForm};
ghost use Rattle.dynamic_data.specs.numbers.Forms.{LeafTurns, TurnsText, too_large};
ghost use Rattle.dynamic_data.specs.numbers.Texts.{ShowsNumbers, bits_text, document, read_numbers, with_range};

use crate::numbers::forms::Form;
use crate::numbers::walk::turn;
use crate::texts::from_json;
use json::{Error, Reader, Scratch, Value as Json, Writer};
use json_values::{JsonRule, ValueFault};
use std::alloc::Global;
use type_trees::{Path, Value, XType};
use xt_lists::{OutOfMemory, Text};

// `serde_json` reads arrays and objects that nest this deep.
const MAX_DEPTH: usize = 127;

// The tree of a text.
fn parsed<'t>(
    alloc: Global,
    text: &'t str,
    scratch: &'t mut Scratch,
) -> Result<Option<Json<'t>>, OutOfMemory>
    ensures tree { IfOk result (λ found. MatchOption found (document text.now ≡ None) (λ part. document text.now ≡ Some (value_view part))) }
    ensures writable { IfOk result (λ found. MatchOption found ⊤ (λ part. HasNumbers (value_view part))) }
{
    let mut reader = Reader::new(text, scratch)?;
    match Json::read(alloc, &mut reader, MAX_DEPTH) {
        Ok(part) => if reader.next().is_some() {
            Ok(None)
        } else {
            Ok(Some(part))
        },
        Err(Error::OutOfMemory) => Err(OutOfMemory),
        Err(Error::Invalid | Error::TooLong | Error::DuplicateKey) => Ok(None),
    }
}

// The text along a type, and None for octets that are no JSON.
fn turned(
    alloc: Global,
    form: Form,
    ty: &XType,
    octets: &[u8],
) -> Result<Option<Vec<u8>>, OutOfMemory>
    requires deep { depth (tree ty.now) ≤ 16 }
    requires named { has_text_names (tree ty.now) ≡ true }
    ensures { IfOk result (λ found. MatchOption found (document octets.now ≡ None) (λ text. TurnsText (LeafTurns form) (tree ty.now) (document octets.now) text.items)) }
{
    let Ok(text) = std::str::from_utf8(octets) else {
        return Ok(None);
    };
    let mut scratch = Scratch::new(alloc);
    let Some(part) = parsed(alloc, text, &mut scratch)? else {
        return Ok(None);
    };
    let mut writer = Writer::new(Vec::with_capacity(alloc, octets.len())?);
    turn(alloc, form, ty, &part, &mut writer)?;
    Ok(Some(writer.into_inner()))
}

/// The JSON of a value of a valid type with a number in place of each text that is the raw bits of a finite float, as `to_json` writes
/// them: a number that reads as that float, with a point or an exponent. The bits of a NaN or an infinity stay. A text that is no JSON
/// stays as it is.
pub fn with_numbers(alloc: Global, ty: &XType, text: &[u8]) -> Result<Text, OutOfMemory>
    requires { type_fault (tree ty.now) ≡ None }
    ensures { IfOk result (λ shown. ShowsNumbers (tree ty.now) text.now shown) }
{
    match turned(alloc, Form::Numbers, ty, text)? {
        Some(shown) => Ok(Text::from_vec(shown)),
        None => Text::from_octets(alloc, text),
    }
}

// The value that a text means with raw bits for numbers.
fn read_bits(alloc: Global, form: Form, ty: &XType, text: &[u8]) -> Result<Value, ValueFault>
    requires valid { type_fault (tree ty.now) ≡ None }
    requires bits { form ≢ AnyForm.Numbers }
    ensures ok { IfOk result (λ value. read_as (tree ty.now) (bits_text (too_large form) (tree ty.now) text.now) ≡ Ok (val value)) }
    ensures typed { IfOk result (λ value. has_type (type_shape ty.now) (val value) ≡ true) }
    ensures err { FailsAs (read_as (tree ty.now) (bits_text (too_large form) (tree ty.now) text.now)) result }
{
    match turned(alloc, form, ty, text)? {
        Some(bits) => from_json(alloc, ty, bits.as_slice()),
        None => from_json(alloc, ty, text),
    }
}

// The rule where a text ends with `Text` and, with a number in place of each that is too large, with this one.
fn rule_beside(rule: JsonRule) -> JsonRule
    ensures { (path other : List Step) → with_range (Err (Wrong path AnyRule.Text)) (Err (Wrong other rule)) ≡ Err (Wrong path result) }
{
    match rule {
        JsonRule::Kind => JsonRule::Range,
        JsonRule::Unknown
        | JsonRule::Missing
        | JsonRule::Range
        | JsonRule::Literal
        | JsonRule::Text
        | JsonRule::Bound
        | JsonRule::Count
        | JsonRule::Twice
        | JsonRule::Case => JsonRule::Text,
    }
}

// The fault of a text that ends with `Text` at a place.
fn text_fault(alloc: Global, ty: &XType, text: &[u8], path: Path) -> ValueFault
    requires { type_fault (tree ty.now) ≡ None }
    ensures { (result ≢ NoMemory) → with_range (Err (Wrong path AnyRule.Text)) (read_as (tree ty.now) (bits_text (too_large AnyForm.BitsOrZero) (tree ty.now) text.now)) ≡ Err result }
{
    match read_bits(alloc, Form::BitsOrZero, ty, text) {
        Ok(_) | Err(ValueFault::NotJson) => ValueFault::Wrong {
            path,
            rule: JsonRule::Text,
        },
        Err(ValueFault::Wrong { rule, .. }) => ValueFault::Wrong {
            path,
            rule: rule_beside(rule),
        },
        Err(ValueFault::OutOfMemory) => ValueFault::OutOfMemory,
    }
}

// The fault of a text that ends with one where raw bits stand for numbers.
fn fault_of(alloc: Global, ty: &XType, text: &[u8], fault: ValueFault) -> ValueFault
    requires { type_fault (tree ty.now) ≡ None }
    ensures { (result ≢ NoMemory) → with_range (Err fault) (read_as (tree ty.now) (bits_text (too_large AnyForm.BitsOrZero) (tree ty.now) text.now)) ≡ Err result }
{
    match fault {
        ValueFault::NotJson => ValueFault::NotJson,
        ValueFault::Wrong { path, rule } => if rule == JsonRule::Text {
            text_fault(alloc, ty, text, path)
        } else {
            ValueFault::Wrong { path, rule }
        },
        ValueFault::OutOfMemory => ValueFault::OutOfMemory,
    }
}

/// The value of a valid type that a JSON text means, where a float is its raw bits, as `from_json` reads them, or a number: the nearest
/// float, ties to even. A number to which no finite float is the nearest is `Range`; otherwise faults are those of `from_json`.
pub fn from_numbers(alloc: Global, ty: &XType, text: &[u8]) -> Result<Value, ValueFault>
    requires { type_fault (tree ty.now) ≡ None }
    ensures ok { IfOk result (λ value. read_numbers (tree ty.now) text.now ≡ Ok (val value)) }
    ensures typed { IfOk result (λ value. has_type (type_shape ty.now) (val value) ≡ true) }
    ensures err { FailsAs (read_numbers (tree ty.now) text.now) result }
{
    match read_bits(alloc, Form::Bits, ty, text) {
        Ok(value) => Ok(value),
        Err(fault) => Err(fault_of(alloc, ty, text, fault)),
    }
}
