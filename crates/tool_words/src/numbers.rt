ghost use Rattle.std.specs.Prelude.{◌≡◌, ◌≤◌, ◌<◌, ◌^◌, IfSome};
ghost use Rattle.tool_words.specs.Words as spec;

fn is_digit(octet: u8) -> bool
    ensures { result ≡ spec.is_digit octet }
{
    matches!(octet, b'0'..=b'9')
}

// The number that the digits spell, where it is below the most.
#[tactic(auto, using(crate::proofs::Valued::valued_past))]
fn valued(most: u128, digits: &[u8]) -> Option<u128>
    requires { most ≤ 2 ^ 64 }
    ensures value { result ≡ spec.valued most 0 digits.now }
    ensures below { IfSome result (λ number. number < most) }
{
    let mut number: u128 = 0;
    for digit in digits {
        if most <= number {
            return None;
        }
        if !is_digit(*digit) {
            return None;
        }
        number = 10 * number + u128::from(*digit - b'0');
    }
    if number < most { Some(number) } else { None }
}

fn leads(text: &[u8]) -> bool
    ensures { result ≡ spec.leads text.now }
{
    match text {
        [] => false,
        [first, _, ..] => *first != b'0',
        [_] => true,
    }
}

fn number_of(most: u128, text: &[u8]) -> Option<u128>
    requires { most ≤ 2 ^ 64 }
    ensures value { result ≡ spec.number_below most text.now }
    ensures below { IfSome result (λ number. number < most) }
{
    if leads(text) {
        valued(most, text)
    } else {
        None
    }
}

/// The number below `most` that decimal digits without a leading zero spell.
pub fn number_below(most: u32, text: &[u8]) -> Option<u32>
    ensures value { result ≡ spec.number_below most text.now }
    ensures below { IfSome result (λ number. number < most) }
{
    let number = number_of(u128::from(most), text)?;
    Some(number as u32)
}

/// The same, unless it is 0.
pub fn count_below(most: u32, text: &[u8]) -> Option<u32>
    ensures value { result ≡ spec.count_below most text.now }
    ensures some { IfSome result (λ count. 1 ≤ count) }
    ensures below { IfSome result (λ count. count < most) }
{
    let count = number_below(most, text)?;
    if count == 0 { None } else { Some(count) }
}

/// The number of 64 bits that decimal digits without a leading zero spell.
pub fn long_number(text: &[u8]) -> Option<u64>
    ensures { result ≡ spec.long_number text.now }
{
    let number = number_of(1 << 64, text)?;
    Some(number as u64)
}
