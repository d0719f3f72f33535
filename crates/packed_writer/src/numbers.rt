//! Lists of numbers.
ghost use Rattle.std.specs.Prelude.{◌≡◌, ◌*◌, ◌==◌, IfSome, length};
ghost use Rattle.xt_shapes.specs.declared.leaves.Order.TheVariants.{Big, Little};
ghost use Rattle.xt_shapes.specs.Sizes as sizes;
ghost use Rattle.packed_reader.specs.View.{numbers_in, numbers_of};
ghost use Rattle.value_writer.specs.Runs.{run_fixed, digits_of};
ghost use Rattle.xcdr_writer.specs.Parts as parts;
ghost use Rattle.xt_wire.specs.numbers.Units.{IsUnit};
ghost use Rattle.packed_writer.specs.Appending.{Appends};

use crate::body::Body;
use packed_reader::Numbers;
use xcdr_writer::most_of;
use xt_shapes::{Order, Prim, Rep};
use xt_wire::numbers::{number, prim_size};

// Whether so many numbers of that size have so many octets.
#[inline(always)]
fn are_octets_of(size: u32, count: u64, octets: u64) -> bool
    requires { IsUnit size }
    ensures { result ≡ (octets == count * size) }
{
    octets % u64::from(size) == 0 && octets / u64::from(size) == count
}

// Big-endian numbers, each turned.
fn put_turned(prim: Prim, count: u64, octets: &[u8], out: &mut Body) -> Option<()>
    ensures { IfSome result (λ u. Appends (λ p. digits_of Little (sizes.size prim) (numbers_in prim Big count octets.now)) out.old out.new) }
{
    let size = prim_size(prim);
    let mut rest = octets;
    for turn in 0..count {
        if rest.len() < size as usize {
            return None;
        }
        let (first, more) = rest.split_at(size as usize);
        out.digits(size, number(Order::Big, first) as u128)?;
        rest = more;
    }
    Some(())
}

// So many numbers of a primitive that are these octets. Those that are little-endian stand as they are.
fn put_octets(prim: Prim, order: Order, count: u64, octets: &[u8], out: &mut Body) -> Option<()>
    requires { length octets.now ≡ count * sizes.size prim }
    ensures { IfSome result (λ u. Appends (λ p. digits_of Little (sizes.size prim) (numbers_in prim order count octets.now)) out.old out.new) }
{
    if prim_size(prim) == 1 {
        return out.put(octets);
    }
    match order {
        Order::Little => out.put(octets),
        Order::Big => put_turned(prim, count, octets, out),
    }
}

/// Numbers one after another, where they are of that primitive.
pub(crate) fn write_numbers(
    rep: Rep,
    prim: Prim,
    numbers: &Numbers<'_>,
    out: &mut Body,
) -> Option<()>
    ensures { IfSome result (λ u. Appends (run_fixed (parts.most_of rep) Little (sizes.size prim) (numbers_of numbers.now)) out.old out.new) }
{
    if prim != numbers.prim {
        return None;
    }
    let size = prim_size(prim);
    if !are_octets_of(size, numbers.count, numbers.octets.len() as u64) {
        return None;
    }
    if numbers.count == 0 {
        return Some(());
    }
    out.align(size.min(most_of(rep)))?;
    put_octets(prim, numbers.order, numbers.count, numbers.octets, out)
}
