// Lists of numbers.
ghost use Rattle.std.specs.Prelude.{◌≡◌, ◌≤◌, ◌<◌, ◌==◌, ◌&&◌, cond, min, nat_lt, IfSome};
ghost use Rattle.xt_shapes.specs.Lists.{has};
ghost use Rattle.xt_shapes.specs.Sizes as sizes;
ghost use Rattle.xcdr_model.specs.Numbers as numbers;
ghost use Rattle.xt_wire.specs.numbers.Units.{IsUnit};
ghost use Rattle.packed_reader.specs.Spots.{spot_of};
ghost use Rattle.packed_reader.specs.Reads.{most, ReadsNumbers};

use crate::ahead::Ahead;
use crate::numbers::{next_octets, padding_in};
use crate::values::Numbers;
use xt_shapes::{Order, Prim, Rep};
use xt_wire::numbers::{is_boolean, prim_size};

// The padding before the first of so many numbers of that size; none is before none.
#[inline(always)]
fn padding_before(rep: Rep, size: u32, count: u64, place: u64) -> u64
    requires { IsUnit size }
    ensures octets { result ≡ cond (count == 0) 0 (numbers.padding (min size (most rep)) place) }
    ensures few { result < 8 }
{
    if count == 0 {
        return 0;
    }
    padding_in(rep, size, place)
}

fn has_above_one(octets: &[u8]) -> bool
    ensures { result ≡ has (λ b. nat_lt 1 b) octets.now }
{
    for octet in octets {
        if *octet > 1 {
            return true;
        }
    }
    false
}

// Whether one of the octets is none of the two values of a boolean.
#[inline(always)]
fn has_no_truth(prim: Prim, octets: &[u8]) -> bool
    ensures { result ≡ (sizes.is_boolean prim && has (λ b. nat_lt 1 b) octets.now) }
{
    is_boolean(prim) && has_above_one(octets)
}

/// So many numbers, one after another.
#[inline(always)]
pub(crate) fn read_numbers<'a>(
    rep: Rep,
    order: Order,
    prim: Prim,
    count: u64,
    ahead: Ahead<'a>,
) -> Option<(Numbers<'a>, Ahead<'a>)>
    ensures many { IfSome result (λ x. x.0.count ≡ count) }
    ensures value { IfSome result (λ x. ReadsNumbers rep order prim count (spot_of ahead.entry) x.0 (spot_of x.1)) }
{
    let size = prim_size(prim);
    let (_, aligned) = next_octets(padding_before(rep, size, count, ahead.place), ahead)?;
    if count > aligned.rest.len() as u64 / u64::from(size) {
        return None;
    }
    let (octets, behind) = next_octets(count * u64::from(size), aligned)?;
    if has_no_truth(prim, octets) {
        return None;
    }
    Some((
        Numbers {
            prim,
            order,
            count,
            octets,
        },
        behind,
    ))
}
