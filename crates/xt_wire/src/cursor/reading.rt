// What decoders read: a cursor's calls, and numbers.
ghost use Rattle.std.specs.Prelude.{◌≡◌, ◌≤◌, ◌<◌, ◌+◌, ◌^◌, length, min, IfOk, IfErr, OnOk};
ghost use Rattle.xt_wire.specs.numbers.Units.{IsUnit};
ghost use Rattle.xt_wire.specs.cursor.Standing.{Entered, room};
ghost use Rattle.xt_wire.specs.cursor.Decoding.{Decodes, Fails, Left};
ghost use Rattle.xt_wire.specs.cursor.Placing.{placed_view};
ghost use Rattle.xcdr_model.specs.Reading.{number_at, octets_at, dheader};
ghost use Rattle.xt_wire.specs.cursor.Steps.{align_at, pass_at, digits_at, placed_at};

use crate::cursor::cursor::{Cursor, Outer};
use crate::cursor::faults::{DecodeFault, cut};
use crate::numbers::number;
use xcdr_model::Why;

/// Goes on to an aligned place.
#[inline(always)]
pub fn read_align<C: Cursor>(cursor: &mut C, to: u32, most: u32) -> Result<(), DecodeFault>
    requires to { IsUnit to }
    requires most { IsUnit most }
    ensures { Decodes (λ u. u) (align_at (min to most)) (C.state cursor.old) (C.state cursor.new) result }
{
    match cursor.align(to, most) {
        Ok(()) => Ok(()),
        Err(fault) => Err(cut(fault)),
    }
}

/// Reads octets as they are.
#[inline(always)]
pub fn read_octets<C: Cursor>(cursor: &mut C, into: &mut [u8]) -> Result<(), DecodeFault>
    ensures { Decodes (λ u. into.new) (λ o. octets_at (length into.new)) (C.state cursor.old) (C.state cursor.new) result }
{
    match cursor.take(into) {
        Ok(()) => Ok(()),
        Err(fault) => Err(cut(fault)),
    }
}

/// Passes over octets.
pub fn read_pass<C: Cursor>(cursor: &mut C, count: u64) -> Result<(), DecodeFault>
    ensures behind { OnOk result ((C.state cursor.new).place ≡ (C.state cursor.old).place + count) }
    ensures value { Decodes (λ u. u) (pass_at count) (C.state cursor.old) (C.state cursor.new) result }
{
    match cursor.pass(count) {
        Ok(()) => Ok(()),
        Err(fault) => Err(cut(fault)),
    }
}

// Reads a number of N octets where the cursor stands.
#[inline(always)]
fn read_few<const N: usize, C: Cursor>(cursor: &mut C) -> Result<u64, DecodeFault>
    requires { IsUnit N }
    ensures below { IfOk result (λ n. n < 256 ^ N) }
    ensures value { Decodes (λ n. n) (digits_at N) (C.state cursor.old) (C.state cursor.new) result }
{
    let mut octets = [0u8; N];
    read_octets(cursor, &mut octets)?;
    Ok(number(cursor.order(), &octets))
}

// Reads a number of `size` octets where the cursor stands. Each size is known where it is read, so that no call copies by a count.
#[inline(always)]
fn read_digits<C: Cursor>(cursor: &mut C, size: u32) -> Result<u64, DecodeFault>
    requires { IsUnit size }
    ensures below { IfOk result (λ n. n < 256 ^ size) }
    ensures value { Decodes (λ n. n) (digits_at size) (C.state cursor.old) (C.state cursor.new) result }
{
    match size {
        1 => read_few::<1, C>(cursor),
        2 => read_few::<2, C>(cursor),
        4 => read_few::<4, C>(cursor),
        _ => read_few::<8, C>(cursor),
    }
}

/// Reads a number of `size` octets, aligned to its size and at most to `most`.
pub fn read_number<C: Cursor>(cursor: &mut C, most: u32, size: u32) -> Result<u64, DecodeFault>
    requires most { IsUnit most }
    requires size { IsUnit size }
    ensures { Decodes (λ n. n) (λ o. number_at most o size) (C.state cursor.old) (C.state cursor.new) result }
{
    read_align(cursor, size, most)?;
    read_digits(cursor, size)
}

/// A number, and the place of its first octet.
#[derive(Clone, Copy, Debug)]
pub struct Placed {
    pub at: u64,
    pub number: u64,
}

/// Reads a number as `read_number` does, and tells its aligned place.
#[inline(always)]
pub fn read_placed<C: Cursor>(cursor: &mut C, most: u32, size: u32) -> Result<Placed, DecodeFault>
    requires most { IsUnit most }
    requires size { IsUnit size }
    ensures at { IfOk result (λ p. (C.state cursor.old).origin ≤ p.at) }
    ensures below { IfOk result (λ p. p.number < 256 ^ size) }
    ensures value { Decodes (placed_view (C.state cursor.old)) (placed_at most size) (C.state cursor.old) (C.state cursor.new) result }
{
    read_align(cursor, size, most)?;
    let at = cursor.place();
    let number = read_digits(cursor, size)?;
    Ok(Placed { at, number })
}

/// Reads the count of a region's octets, which is at most as far as the region around it goes.
pub fn read_dheader<C: Cursor>(cursor: &mut C) -> Result<u64, DecodeFault>
    ensures room { IfOk result (λ n. n ≤ room (C.state cursor.new)) }
    ensures value { Decodes (λ n. n) dheader (C.state cursor.old) (C.state cursor.new) result }
{
    let header = read_placed(cursor, 4, 4)?;
    if cursor.region_end() - cursor.place() < header.number {
        return Err(DecodeFault::Malformed {
            at: header.at,
            why: Why::Dheader,
        });
    }
    Ok(header.number)
}

/// Makes the next octets the region.
#[inline(always)]
pub fn enter_part<C: Cursor>(cursor: &mut C, count: u64) -> Result<Outer, DecodeFault>
    requires { count ≤ room (C.state cursor.old) }
    ensures entered { IfOk result (Entered count (C.state cursor.old) (C.state cursor.new)) }
    ensures fault { IfErr result (Fails (C.state cursor.old) (C.state cursor.new)) }
{
    match cursor.enter(count) {
        Ok(outer) => Ok(outer),
        Err(_) => Err(DecodeFault::ReadFault),
    }
}

/// Passes over what is left of the region and leaves it.
#[inline(always)]
pub fn leave_part<C: Cursor>(cursor: &mut C, outer: Outer) -> Result<(), DecodeFault>
    requires ahead { (C.state cursor.old).region_end ≤ outer.end }
    requires within { outer.end ≤ (C.state cursor.old).whole }
    ensures left { OnOk result (Left outer.end (C.state cursor.old) (C.state cursor.new)) }
    ensures fault { IfErr result (Fails (C.state cursor.old) (C.state cursor.new)) }
{
    let left = cursor.region_end() - cursor.place();
    match cursor.pass(left) {
        Ok(()) => {
            cursor.leave(outer);
            Ok(())
        }
        Err(_) => Err(DecodeFault::ReadFault),
    }
}
