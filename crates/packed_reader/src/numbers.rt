ghost use Rattle.std.specs.Prelude.{◌≡◌, ◌<◌, ◌^◌, Ok, IfSome, length, min};
ghost use Rattle.xcdr_model.specs.Numbers as spec;
ghost use Rattle.xt_wire.specs.numbers.Units.{IsUnit};
ghost use Rattle.xcdr_model.specs.Reading.{number_at, octets_at};
ghost use Rattle.packed_reader.specs.Reads.{most};
ghost use Rattle.packed_reader.specs.Spots.{spot_of, IsFront, IsRegion};

use crate::ahead::Ahead;
use xt_shapes::{Order, Rep};
use xt_wire::numbers::{number, padding};

// What a number of that size is aligned to.
#[inline(always)]
fn unit_of(rep: Rep, size: u32) -> u32
    requires { IsUnit size }
    ensures value { result ≡ min size (most rep) }
    ensures unit { IsUnit result }
{
    match rep {
        Rep::Xcdr1 => size,
        Rep::Xcdr2 => size.min(4),
    }
}

/// The padding before a number of that size.
#[inline(always)]
pub(crate) fn padding_in(rep: Rep, size: u32, place: u64) -> u64
    requires { IsUnit size }
    ensures octets { result ≡ spec.padding (min size (most rep)) place }
    ensures few { result < 8 }
{
    padding(unit_of(rep, size), place)
}

/// The next number of `size` octets, aligned to it, and in XCDR2 at most to 4.
#[inline(always)]
pub(crate) fn next_aligned<'a>(
    rep: Rep,
    order: Order,
    size: u32,
    ahead: Ahead<'a>,
) -> Option<(u64, Ahead<'a>)>
    requires { IsUnit size }
    ensures below { IfSome result (λ x. x.0 < 256 ^ size) }
    ensures room { IfSome result (λ x. spec.padding (min size (most rep)) ahead.entry.place < length ahead.entry.rest.now) }
    ensures later { IfSome result (λ x. length x.1.rest.now < length ahead.entry.rest.now) }
    ensures value { IfSome result (λ x. number_at (most rep) order size (spot_of ahead.entry) ≡ Ok (x.0, spot_of x.1)) }
{
    let pad = padding_in(rep, size, ahead.place);
    let count = pad + u64::from(size);
    if (ahead.rest.len() as u64) < count {
        return None;
    }
    let (_, padded) = ahead.rest.split_at(pad as usize);
    let (octets, rest) = padded.split_at(size as usize);
    Some((
        number(order, octets),
        Ahead {
            rest,
            place: ahead.place + count,
        },
    ))
}

/// The next number of four octets: a count or the word of a header.
#[inline(always)]
pub(crate) fn next_word<'a>(order: Order, ahead: Ahead<'a>) -> Option<(u64, Ahead<'a>)>
    ensures below { IfSome result (λ x. x.0 < 256 ^ 4) }
    ensures room { IfSome result (λ x. spec.padding 4 ahead.entry.place < length ahead.entry.rest.now) }
    ensures later { IfSome result (λ x. length x.1.rest.now < length ahead.entry.rest.now) }
    ensures value { IfSome result (λ x. number_at 4 order 4 (spot_of ahead.entry) ≡ Ok (x.0, spot_of x.1)) }
{
    next_aligned(Rep::Xcdr2, order, 4, ahead)
}

/// The next octets, as many.
#[inline(always)]
pub(crate) fn next_octets<'a>(count: u64, ahead: Ahead<'a>) -> Option<(&'a [u8], Ahead<'a>)>
    ensures many { IfSome result (λ x. length x.0.now ≡ count) }
    ensures value { IfSome result (λ x. octets_at count (spot_of ahead.entry) ≡ Ok (x.0.now, spot_of x.1)) }
{
    if (ahead.rest.len() as u64) < count {
        return None;
    }
    let (octets, rest) = ahead.rest.split_at(count as usize);
    Some((
        octets,
        Ahead {
            rest,
            place: ahead.place + count,
        },
    ))
}

/// The next octets as a region, and what is ahead behind it.
#[inline(always)]
pub(crate) fn region_of<'a>(count: u64, ahead: Ahead<'a>) -> Option<(Ahead<'a>, Ahead<'a>)>
    ensures { IfSome result (λ x. IsFront count (spot_of ahead.entry) (spot_of x.0) (spot_of x.1)) }
{
    if (ahead.rest.len() as u64) < count {
        return None;
    }
    let (octets, rest) = ahead.rest.split_at(count as usize);
    Some((
        Ahead {
            rest: octets,
            place: ahead.place,
        },
        Ahead {
            rest,
            place: ahead.place + count,
        },
    ))
}

/// The next region, which stands behind the count of its octets, and what is ahead behind it.
#[inline(always)]
pub(crate) fn next_region<'a>(order: Order, ahead: Ahead<'a>) -> Option<(Ahead<'a>, Ahead<'a>)>
    ensures { IfSome result (λ x. IsRegion order (spot_of ahead.entry) (spot_of x.0) (spot_of x.1)) }
{
    let (count, ahead) = next_word(order, ahead)?;
    let (inside, after) = region_of(count, ahead)?;
    Some((inside, after))
}
