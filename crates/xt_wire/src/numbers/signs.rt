//! Numbers with sign, in two's complement.
ghost use Rattle.std.specs.Prelude.{◌≡◌, ◌+◌, ◌<◌, ◌≤◌, ◌^◌, ◌==◌, true};
ghost use Rattle.xcdr_model.specs.Numbers as numbers;
ghost use Rattle.xt_shapes.specs.Sizes as sizes;
ghost use Rattle.xt_wire.specs.numbers.Units.{IsUnit};

use xt_shapes::Prim;

// The number with sign that has so many octets, of which this is the greatest.
#[tactic(auto, using(crate::proofs::OfNumbers::SignSteps::sign_rules))]
#[inline(always)]
fn with_sign(size: u32, greatest: u64, number: u64) -> i128
    requires size { IsUnit size }
    requires greatest { greatest + 1 ≡ 256 ^ size }
    requires most { number ≤ greatest }
    ensures { result ≡ numbers.with_sign size true number }
{
    if number > greatest / 2 {
        -1 - i128::from(greatest - number)
    } else {
        i128::from(number)
    }
}

/// The value of a primitive whose octets are this number: a float is its raw bits, and a boolean its octet.
#[tactic(auto, using(crate::proofs::OfNumbers::SignSteps::sign_rules))]
#[inline(always)]
pub fn prim_value(prim: Prim, number: u64) -> i128
    requires { number < 256 ^ sizes.size prim }
    ensures { result ≡ numbers.with_sign (sizes.size prim) (sizes.is_signed prim) number }
{
    match prim {
        Prim::Int8 => with_sign(1, 0xFF, number),
        Prim::Int16 => with_sign(2, 0xFFFF, number),
        Prim::Int32 => with_sign(4, 0xFFFF_FFFF, number),
        Prim::Int64 => with_sign(8, 0xFFFF_FFFF_FFFF_FFFF, number),
        Prim::Boolean => i128::from(number),
        Prim::Byte => i128::from(number),
        Prim::Uint8 => i128::from(number),
        Prim::Uint16 => i128::from(number),
        Prim::Uint32 => i128::from(number),
        Prim::Uint64 => i128::from(number),
        Prim::Float32 => i128::from(number),
        Prim::Float64 => i128::from(number),
        Prim::Char8 => i128::from(number),
    }
}

/// The value of an enumeration whose holder, of so many octets, has this number: it has a sign only where it has four.
#[tactic(auto, using(crate::proofs::OfNumbers::SignSteps::sign_rules))]
#[inline(always)]
pub fn enum_value(size: u32, number: u64) -> i128
    requires size { IsUnit size }
    requires below { number < 256 ^ size }
    ensures { result ≡ numbers.with_sign size (size == 4) number }
{
    if size == 4 {
        return with_sign(4, 0xFFFF_FFFF, number);
    }
    i128::from(number)
}
