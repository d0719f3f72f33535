ghost use Rattle.std.specs.Prelude.{◌≡◌, ◌^◌, ◌<◌, ◌&&◌, nat_lt, not, ◌==◌};
ghost use Rattle.xt_shapes.specs.Lists.{has, all};
ghost use Rattle.xt_shapes.specs.Typing as spec;

#[tactic(auto, using(crate::proofs::Powers::wide_test, crate::proofs::Powers::shifted))]
fn is_below_power(number: u128, bits: u8) -> bool
    requires { number < 2 ^ 127 }
    ensures { result ≡ nat_lt number (2 ^ bits) }
{
    bits >= 127 || number >> bits == 0
}

/// Whether `number` is a value of a bitmask of that many bits.
#[tactic(auto, using(crate::proofs::Powers::below_magnitude))]
pub fn fits_bits(bits: u8, number: i128) -> bool
    ensures { result ≡ spec.is_below (2 ^ bits) number }
{
    number >= 0 && is_below_power(number.unsigned_abs(), bits)
}

/// Whether that many are more than the bound, where 0 is no bound.
pub fn is_past(bound: u32, count: usize) -> bool
    ensures { result ≡ spec.is_past bound count }
{
    bound != 0 && u64::from(bound) < count as u64
}

fn has_no_nul(octets: &[u8]) -> bool
    ensures { result ≡ (all (λ b. nat_lt b 256) octets.now && not (has (λ b. b == 0) octets.now)) }
{
    octets.iter().all(|octet| *octet != 0)
}

/// Whether these octets are a string's within the bound: no NUL is among them.
pub fn is_text_within(bound: u32, octets: &[u8]) -> bool
    ensures { result ≡ spec.is_text_within bound octets.now }
{
    !is_past(bound, octets.len()) && has_no_nul(octets)
}
