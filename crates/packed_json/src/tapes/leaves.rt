ghost use Rattle.std.specs.Prelude.{◌≡◌, ◌^◌, ◌<◌, ◌==◌, true, false, cond, pos, length, slice_index, Some, Ok, IfSome, IsTrue, option_and_then};
ghost use Rattle.std.specs.Int.{w32, w64};
ghost use Rattle.json.specs.Json.{Json};
ghost use Rattle.json.specs.Find.{BeginsWith};
ghost use Rattle.serde_json.specs.Data.{string};
ghost use Rattle.serde_json.specs.Find.{as_integer};
ghost use Rattle.serde_json.specs.Read.{number_of, number_from};
ghost use Rattle.xt_shapes.specs.Typing.{of_prim, is_below};
ghost use Rattle.xt_shapes.specs.Vals.{int};
ghost use Rattle.json_values.specs.Read as spec;
ghost use Rattle.packed_reader.specs.View.{packed_val};
ghost use Rattle.packed_json.specs.Tapes.{Reads, ReadsNumber, whole_in};

use fast_float::Numeral;
use hex::FromHex;
use json::Element;
use json_values::{literal_named, octets_fault};
use packed_reader::Packed;
use type_trees::Literal;
use type_values::{fits_bits, is_of_prim};
use xt_shapes::Prim;

/// Structures of more members and enumerations of more literals aren't read, since their names are looked through one by one.
pub(crate) const MANY: usize = 64;

// A whole number of 64 bits.
#[tactic(auto, using(packed_reader::proofs::Views::packed_rules))]
fn integer<'a>(number: i128) -> Option<Packed<'a>>
    ensures { IfSome result (λ value. packed_val value ≡ int number) }
{
    if let Ok(natural) = u64::try_from(number) {
        return Some(Packed::Natural(natural));
    }
    match i64::try_from(number) {
        Ok(whole) => Some(Packed::Whole(whole)),
        Err(_) => None,
    }
}

fn truth_number(truth: bool) -> i128
    ensures { result ≡ cond truth (pos 1) (pos 0) }
{
    if truth { 1 } else { 0 }
}

fn read_boolean(part: &Element<'_, '_>) -> Option<i128>
    ensures { ReadsNumber spec.boolean_of part.now result }
{
    let truth = part.as_bool()?;
    Some(truth_number(truth))
}

// The number below 0 that stands after a `-`.
fn below_zero(numeral: &Numeral<'_>) -> Option<i128>
    ensures { IfSome result (λ n. option_and_then as_integer (number_from true numeral.now) ≡ Some n) }
{
    let number = numeral.to_i64(true)?;
    if number < 0 {
        Some(i128::from(number))
    } else {
        None
    }
}

fn from_zero(numeral: &Numeral<'_>) -> Option<i128>
    ensures { IfSome result (λ n. option_and_then as_integer (number_from false numeral.now) ≡ Some n) }
{
    let number = numeral.to_u64()?;
    Some(i128::from(number))
}

fn has_minus(text: &[u8]) -> bool
    ensures value { result ≡ (slice_index text.now 0 == 45) }
    ensures some { IsTrue result → 0 < length text.now }
{
    !text.is_empty() && text[0] == b'-'
}

// The whole number of 64 bits that a number's text writes with neither a point nor an exponent; None for `-0`.
fn whole_in_text(text: &[u8]) -> Option<i128>
    ensures { IfSome result (λ n. option_and_then as_integer (number_of text.now) ≡ Some n) }
{
    if has_minus(text) {
        return below_zero(&Numeral::scan(&text[1..]));
    }
    from_zero(&Numeral::scan(text))
}

fn whole(part: &Element<'_, '_>) -> Option<i128>
    ensures { (j : Json) → BeginsWith part.now j → IfSome result (λ n. whole_in j ≡ Some n) }
{
    let text = part.as_number()?;
    whole_in_text(text.as_bytes())
}

fn read_whole(prim: Prim, part: &Element<'_, '_>) -> Option<i128>
    ensures { ReadsNumber (spec.whole_of (of_prim prim)) part.now result }
{
    let number = whole(part)?;
    if is_of_prim(prim, number) {
        Some(number)
    } else {
        None
    }
}

fn single_in(text: &str) -> Option<i128>
    ensures { IfSome result (λ n. spec.bits_of w32 4 (string text.now) ≡ Ok (int n)) }
{
    match <[u8; 4]>::from_hex(text) {
        Ok(octets) => Some(i128::from(u32::from_be_bytes(octets))),
        Err(_) => None,
    }
}

fn double_in(text: &str) -> Option<i128>
    ensures { IfSome result (λ n. spec.bits_of w64 8 (string text.now) ≡ Ok (int n)) }
{
    match <[u8; 8]>::from_hex(text) {
        Ok(octets) => Some(i128::from(u64::from_be_bytes(octets))),
        Err(_) => None,
    }
}

fn read_single(part: &Element<'_, '_>) -> Option<i128>
    ensures { ReadsNumber (spec.bits_of w32 4) part.now result }
{
    let text = part.as_str()?;
    single_in(text)
}

fn read_double(part: &Element<'_, '_>) -> Option<i128>
    ensures { ReadsNumber (spec.bits_of w64 8) part.now result }
{
    let text = part.as_str()?;
    double_in(text)
}

/// The number that a primitive is.
pub(crate) fn read_number(prim: Prim, part: &Element<'_, '_>) -> Option<i128>
    ensures { ReadsNumber (spec.prim_of prim) part.now result }
{
    match prim {
        Prim::Boolean => read_boolean(part),
        Prim::Float32 => read_single(part),
        Prim::Float64 => read_double(part),
        Prim::Byte
        | Prim::Int8
        | Prim::Uint8
        | Prim::Int16
        | Prim::Uint16
        | Prim::Int32
        | Prim::Uint32
        | Prim::Int64
        | Prim::Uint64
        | Prim::Char8 => read_whole(prim, part),
    }
}

/// The value of a primitive.
pub(crate) fn read_prim<'a>(prim: Prim, part: &Element<'_, '_>) -> Option<Packed<'a>>
    ensures { Reads (spec.prim_of prim) 0 part.now result }
{
    let number = read_number(prim, part)?;
    integer(number)
}

fn mask_number(bits: u8, part: &Element<'_, '_>) -> Option<i128>
    ensures { ReadsNumber (spec.whole_of (is_below (2 ^ bits))) part.now result }
{
    let number = whole(part)?;
    if fits_bits(bits, number) {
        Some(number)
    } else {
        None
    }
}

/// The value of a bitmask.
pub(crate) fn read_mask<'a>(bits: u8, part: &Element<'_, '_>) -> Option<Packed<'a>>
    ensures { Reads (spec.whole_of (is_below (2 ^ bits))) 0 part.now result }
{
    let number = mask_number(bits, part)?;
    integer(number)
}

fn literal_number(literals: &[Literal], text: &[u8]) -> Option<i128>
    ensures { IfSome result (λ n. spec.literal_named literals.now text.now ≡ Ok (int n)) }
{
    if literals.len() > MANY {
        return None;
    }
    let value = literal_named(literals, text)?;
    Some(i128::from(value))
}

fn named_number(literals: &[Literal], part: &Element<'_, '_>) -> Option<i128>
    ensures { ReadsNumber (spec.literal_of literals.now) part.now result }
{
    let text = part.as_str()?;
    literal_number(literals, text.as_bytes())
}

/// The value of the literal that is named.
pub(crate) fn read_literal<'a>(literals: &[Literal], part: &Element<'_, '_>) -> Option<Packed<'a>>
    ensures { Reads (spec.literal_of literals.now) 0 part.now result }
{
    let number = named_number(literals, part)?;
    integer(number)
}

#[tactic(auto, using(packed_reader::proofs::Views::packed_rules))]
fn octets_in<'a>(bound: u32, text: &'a [u8]) -> Option<Packed<'a>>
    ensures { IfSome result (λ v. spec.octets_of bound text.now ≡ Ok (packed_val v)) }
{
    if octets_fault(bound, text).is_some() {
        return None;
    }
    Some(Packed::Text(text))
}

/// The value of a string type where it stands as a string.
pub(crate) fn read_text<'a>(bound: u32, part: &Element<'_, 'a>) -> Option<Packed<'a>>
    ensures { Reads (spec.text_of bound) 0 part.now result }
{
    let text = part.as_str()?;
    octets_in(bound, text.as_bytes())
}
