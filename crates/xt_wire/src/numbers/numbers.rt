ghost use Rattle.std.specs.Prelude.{◌≡◌, ◌<◌, ◌^◌, length};
ghost use Rattle.xcdr_model.specs.Numbers as spec;
ghost use Rattle.xt_wire.specs.numbers.Units.{IsUnit};

use byteorder::{BigEndian, ByteOrder, LittleEndian};
use xt_shapes::Order;

/// The number of these octets, of which there are 1, 2, 4 or 8, in this order.
#[inline(always)]
pub fn number(order: Order, octets: &[u8]) -> u64
    requires { IsUnit (length octets.now) }
    ensures value { result ≡ spec.number order octets.now }
    ensures below { result < 256 ^ length octets.now }
{
    match order {
        Order::Big => number_in::<BigEndian>(octets),
        Order::Little => number_in::<LittleEndian>(octets),
    }
}

#[inline(always)]
fn number_in<T: ByteOrder>(octets: &[u8]) -> u64
    requires { IsUnit (length octets.now) }
    ensures value { result ≡ T.number_of (length octets.now) octets.now }
    ensures below { result < 256 ^ length octets.now }
{
    match octets.len() {
        1 => T::read_uint(octets, 1),
        2 => u64::from(T::read_u16(octets)),
        4 => u64::from(T::read_u32(octets)),
        _ => T::read_u64(octets),
    }
}
