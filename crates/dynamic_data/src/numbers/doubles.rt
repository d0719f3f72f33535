ghost use Rattle.std.specs.Prelude.{◌≡◌, true, IfSome};
ghost use Rattle.std.specs.Int.{w64};
ghost use Rattle.std.specs.Float.{binary64, float_is_finite};
ghost use Rattle.hex.specs.Hex.{decode_sized};
ghost use Rattle.json.specs.Json.{number, string};
ghost use Rattle.json.specs.Tree.{HasNumbers};
ghost use Rattle.json.specs.Value.{value_view};
ghost use Rattle.dynamic_data.specs.numbers.Floats as spec;
ghost use Rattle.dynamic_data.specs.numbers.Forms.{LeafTurns, Puts, too_large};
ghost use Rattle.dynamic_data.specs.declared.numbers.forms.Form.{Form as AnyForm};
ghost use Rattle.xt_shapes.specs.declared.leaves.Primitive.{Primitive};

use crate::numbers::forms::Form;
use crate::numbers::leaves::{keep, put_too_large};
use hex::FromHex;
use json::{Value as Json, Writer};
use json_values::text_of;
use std::num::f64_from_bits_with_nan;
use xt_lists::OutOfMemory;

fn digits_of(float: f64) -> [u8; 16]
    requires { float_is_finite float ≡ true }
    ensures { result ≡ spec.hex_text w64 binary64 float }
{
    let mut digits = [0u8; 16];
    match hex::encode_to_slice(float.to_bits().to_be_bytes(), &mut digits) {
        Ok(()) => {}
        Err(_) => {}
    }
    digits
}

// The bits that a text is in hexadecimal, and 0 where it is none.
fn bits_in(text: &str) -> u64
    ensures { result ≡ spec.bits_in w64 (decode_sized text.now 8) }
{
    match <[u8; 8]>::from_hex(text) {
        Ok(octets) => u64::from_be_bytes(octets),
        Err(_) => 0,
    }
}

// The finite float whose raw bits a text is, as they are written.
fn float_in(text: &str) -> Option<f64>
    ensures value { result ≡ spec.float_in w64 8 binary64 (string text.now) }
    ensures finite { IfSome result (λ x. float_is_finite x ≡ true) }
{
    let float = f64_from_bits_with_nan(bits_in(text));
    if float.is_finite() && digits_of(float).as_slice() == text.as_bytes() {
        Some(float)
    } else {
        None
    }
}

fn show(text: &str, out: &mut Writer) -> Result<(), OutOfMemory>
    ensures { Puts (LeafTurns AnyForm.Numbers Primitive.Float64) (string text.now) result out.old out.new }
{
    match float_in(text) {
        Some(float) => out.float(float)?,
        None => out.string(text)?,
    }
    Ok(())
}

fn put_digits(float: f64, out: &mut Writer) -> Result<(), OutOfMemory>
    requires { float_is_finite float ≡ true }
    ensures { Puts (λ j k. k ≡ j) (string (spec.hex_text w64 binary64 float)) result out.old out.new }
{
    let digits = digits_of(float);
    out.string(text_of(digits.as_slice()))?;
    Ok(())
}

fn put_bits(form: Form, text: &str, out: &mut Writer) -> Result<(), OutOfMemory>
    ensures { Puts (λ j k. k ≡ spec.float_bits (too_large form) w64 binary64 j) (number text.now) result out.old out.new }
{
    match fast_float::parse::<f64, _>(text) {
        Ok(float) if float.is_finite() => put_digits(float, out),
        Ok(_) | Err(_) => put_too_large(form, out),
    }
}

/// Writes what may stand in place of a float of 64 bits.
pub(crate) fn turn_double(form: Form, part: &Json<'_>, out: &mut Writer) -> Result<(), OutOfMemory>
    requires { HasNumbers (value_view part.now) }
    ensures { Puts (LeafTurns form Primitive.Float64) (value_view part.now) result out.old out.new }
{
    match (form, part) {
        (Form::Numbers, Json::String(text)) => show(text, out),
        (Form::Bits | Form::BitsOrZero, Json::Number(text)) => put_bits(form, text, out),
        (_, _) => keep(part, out),
    }
}
