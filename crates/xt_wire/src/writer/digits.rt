//! Numbers as octets (DDS-XTypes 1.3, 7.4).
ghost use Rattle.std.specs.Prelude.{◌≡◌, take, reverse};
ghost use Rattle.xcdr_model.specs.Numbers as spec;
ghost use Rattle.xcdr_model.specs.Numbers.{octets};
ghost use Rattle.xt_wire.specs.numbers.Units.{IsUnit};

use byteorder::{ByteOrder, LittleEndian};
use xt_shapes::Order;

/// The `size` low octets of a number in the order, at the front. `size` is 1, 2, 4 or 8.
pub fn octets_of(order: Order, size: u32, number: u128) -> [u8; 16]
    requires { IsUnit size }
    ensures { take size result ≡ octets order size number }
{
    match order {
        Order::Little => low_octets(size, number),
        Order::Big => high_octets(size, number),
    }
}

fn high_octets(size: u32, number: u128) -> [u8; 16]
    requires { IsUnit size }
    ensures { take size result ≡ reverse (spec.low_octets size number) }
{
    let low = low_octets(size, number);
    let mut octets = [0u8; 16];
    for at in 0..size as usize {
        octets[at] = low[size as usize - 1 - at];
    }
    octets
}

fn low_octets(size: u32, number: u128) -> [u8; 16]
    requires { IsUnit size }
    ensures { take size result ≡ spec.low_octets size number }
{
    let mut octets = [0u8; 16];
    LittleEndian::write_u128(&mut octets, number);
    octets
}

/// A number that may have a sign as the number of its octets, in two's complement. `size` is 1, 2, 4 or 8.
#[inline(always)]
pub fn raw(size: u32, number: i128) -> u128
    requires { IsUnit size }
    ensures { result ≡ spec.raw size number }
{
    if number >= 0 {
        return number.unsigned_abs();
    }
    let all = 256u128.pow(size);
    all.saturating_sub(number.unsigned_abs())
}
