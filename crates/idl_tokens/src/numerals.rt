ghost use Rattle.std.specs.Prelude.{◌≡◌, ◌<◌, ◌≤◌, ◌+◌, ◌^◌, length, min, IfSome};
ghost use Rattle.idl_tokens.specs.Numerals as spec;

use crate::classes::{Class, byte, is_all};

fn is_plain_numeral(text: &[u8]) -> bool
    requires { 0 < length text.now }
    ensures { result ≡ spec.is_plain_numeral text.now }
{
    if byte(text, 0) != b'0' {
        return is_all(Class::Decimal, text, 0);
    }
    if byte(text, 1) == b'x' {
        return is_all(Class::Hex, text, 2) && text.len() != 2;
    }
    is_all(Class::Octal, text, 1)
}

fn unsigned(text: &[u8]) -> &[u8]
    ensures value { result.now ≡ spec.unsigned text.now }
    ensures rest { length text.now ≤ length result.now + 1 }
{
    if byte(text, 0) == b'-' {
        &text[1..]
    } else {
        text
    }
}

#[tactic(auto, unfolding(crate::specs::Numerals::is_numeral))]
pub(crate) fn is_numeral(text: &[u8]) -> bool
    requires { 1 < length (spec.unsigned text.now) + 1 }
    ensures { result ≡ spec.is_numeral text.now }
{
    is_plain_numeral(unsigned(text))
}

const LARGEST: u64 = 1 << 40;

fn digit(b: u8) -> u64
    ensures value { result ≡ spec.digit b }
    ensures small { result < 256 }
{
    if b <= b'9' {
        u64::from(b.saturating_sub(b'0'))
    } else if b <= b'F' {
        u64::from(b.saturating_sub(b'A' - 10))
    } else {
        u64::from(b.saturating_sub(b'a' - 10))
    }
}

#[tactic(auto, using(crate::proofs::Numbers::capped))]
fn in_base(base: u64, digits: &[u8]) -> u64
    requires { (1 ≤ base) × (base ≤ 16) }
    ensures { result ≡ min (spec.in_base base digits.now) 1099511627776 }
{
    let mut n: u64 = 0;
    for b in digits {
        n = (base * n + digit(*b)).min(LARGEST);
    }
    n
}

fn plain_value(text: &[u8]) -> u64
    requires { 0 < length text.now }
    ensures { result ≡ min (spec.plain_value text.now) 1099511627776 }
{
    if byte(text, 0) != b'0' {
        return in_base(10, text);
    }
    if byte(text, 1) == b'x' {
        return in_base(16, &text[2..]);
    }
    in_base(8, &text[1..])
}

/// A numeral's number without its sign, or 2 ^ 40 where it is greater.
#[tactic(auto, unfolding(crate::specs::Numerals::magnitude))]
pub fn magnitude(text: &[u8]) -> u64
    ensures { result ≡ min (spec.magnitude text.now) 1099511627776 }
{
    let digits = unsigned(text);
    if digits.is_empty() {
        return 0;
    }
    plain_value(digits)
}

/// Whether a numeral has a sign.
pub fn is_negative(text: &[u8]) -> bool
    ensures { result ≡ spec.is_negative text.now }
{
    byte(text, 0) == b'-'
}

/// A numeral's number; None where it is not from `low` to `high`. `-0` is 0.
#[tactic(auto, unfolding(crate::specs::Numerals::unsigned_in))]
pub fn unsigned_in(low: u64, high: u64, spelling: &[u8]) -> Option<u64>
    requires { high < 2 ^ 40 }
    ensures value { result ≡ spec.unsigned_in low high spelling.now }
    ensures within { IfSome result (λ n. n ≤ high) }
{
    let n = magnitude(spelling);
    if (!is_negative(spelling) || n == 0) && low <= n && n <= high {
        Some(n)
    } else {
        None
    }
}

/// A numeral's number; None where it is not from -2,147,483,648 to 2,147,483,647.
#[tactic(auto, unfolding(crate::specs::Numerals::signed_32))]
pub fn signed_32(spelling: &[u8]) -> Option<i32>
    ensures { result ≡ spec.signed_32 spelling.now }
{
    let n = magnitude(spelling);
    if is_negative(spelling) {
        if n <= 2_147_483_648 {
            return Some((-(n as i64)) as i32);
        }
        return None;
    }
    if n <= 2_147_483_647 {
        Some(n as i32)
    } else {
        None
    }
}
