//! The raw bits of floats, as texts of hexadecimal digits.
ghost use Rattle.std.specs.Prelude.{◌≡◌, ◌++◌, ◌∷◌, pos, length, IfSome};
ghost use Rattle.json.specs.Print.{quoted};
ghost use Rattle.hex.specs.Hex.{encode_lower};
ghost use Rattle.std.specs.Int.{w32, w64};
ghost use Rattle.serde_json.specs.Written.{comma_if, compact_text};
ghost use Rattle.json_values.specs.Written.{bits_text};

use crate::sinks::{Sink, add_behind_comma};

// The digits of four octets, in quotes behind a comma.
#[inline(always)]
fn digits32(octets: &[u8]) -> [u8; 11]
    requires { length octets.now ≡ 4 }
    ensures { result ≡ 44 ∷ quoted (encode_lower octets.now) }
{
    let mut digits = [b'"'; 11];
    digits[0] = b',';
    match hex::encode_to_slice(octets, &mut digits[2..10]) {
        Ok(()) => {}
        Err(_) => {}
    }
    digits
}

// The digits of eight octets, in quotes behind a comma.
#[inline(always)]
fn digits64(octets: &[u8]) -> [u8; 19]
    requires { length octets.now ≡ 8 }
    ensures { result ≡ 44 ∷ quoted (encode_lower octets.now) }
{
    let mut digits = [b'"'; 19];
    digits[0] = b',';
    match hex::encode_to_slice(octets, &mut digits[2..18]) {
        Ok(()) => {}
        Err(_) => {}
    }
    digits
}

/// The bits of a float of four octets, behind others or none.
#[inline(always)]
pub(crate) fn put_single<S: Sink>(is_later: bool, bits: u32, out: &mut S) -> Option<()>
    ensures { IfSome result (λ u. S.held out.new ≡ S.held out.old ++ (comma_if is_later ++ compact_text (bits_text w32 (pos bits)))) }
{
    let digits = digits32(bits.to_be_bytes().as_slice());
    add_behind_comma(is_later, digits.as_slice(), out)
}

/// The bits of a float of eight octets, behind others or none.
#[inline(always)]
pub(crate) fn put_double<S: Sink>(is_later: bool, bits: u64, out: &mut S) -> Option<()>
    ensures { IfSome result (λ u. S.held out.new ≡ S.held out.old ++ (comma_if is_later ++ compact_text (bits_text w64 (pos bits)))) }
{
    let digits = digits64(bits.to_be_bytes().as_slice());
    add_behind_comma(is_later, digits.as_slice(), out)
}
