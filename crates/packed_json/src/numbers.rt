//! Numbers and lists of numbers, appended.
ghost use Rattle.std.specs.Prelude.{◌≡◌, ◌++◌, false, IfSome, length, decimal};
ghost use Rattle.serde_json.specs.Written.{comma_if, compact_text};
ghost use Rattle.xt_shapes.specs.Sizes as sizes;
ghost use Rattle.xt_shapes.specs.declared.leaves.Primitive.TheVariants.{Byte};
ghost use Rattle.json_values.specs.Written as json;
ghost use Rattle.std.specs.Ordering.{int_eq};
ghost use Rattle.std.specs.Prelude.{pos, negsuc, int_le, true};
ghost use Rattle.serde_json.specs.Data.{boolean};
ghost use Rattle.packed_reader.specs.View.{number_of};
ghost use Rattle.packed_json.specs.Lists.{numbers_text, octets_text};

use crate::bits::{put_double, put_single};
use crate::block::{Block, add_digits, make_room, put_last};
use crate::digits::add_behind;
use crate::sinks::{Sink, add_behind_comma};
use crate::texts::put;
use packed_reader::Numbers;
use type_values::is_of_prim;
use xt_lists::Text;
use xt_shapes::{Order, Prim};
use xt_wire::numbers::{number, prim_size, prim_value};

// The digits of a number. Twenty octets are copied, however many digits there are, which takes no call.
#[inline(always)]
fn put_digits<S: Sink>(number: u64, out: &mut S) -> Option<()>
    ensures { IfSome result (λ u. S.held out.new ≡ S.held out.old ++ decimal number) }
{
    let mut digits = [b'0'; 40];
    let start = itoa::write_digits(number, &mut digits, 20);
    out.add_some(&digits[start..start + 20], 20 - start)?;
    Some(())
}

// A number below zero, behind others or none.
#[inline(always)]
fn put_negative<S: Sink>(is_later: bool, number: i64, out: &mut S) -> Option<()>
    requires { int_le number (negsuc 0) ≡ true }
    ensures { IfSome result (λ u. S.held out.new ≡ S.held out.old ++ (comma_if is_later ++ compact_text (json.whole number))) }
{
    add_behind_comma(is_later, b",-", out)?;
    put_digits(number.unsigned_abs(), out)?;
    Some(())
}

// A number that isn't below zero, behind others or none.
#[inline(always)]
fn put_natural<S: Sink>(is_later: bool, number: u64, out: &mut S) -> Option<()>
    ensures { IfSome result (λ u. S.held out.new ≡ S.held out.old ++ (comma_if is_later ++ compact_text (json.whole (pos number)))) }
{
    if is_later {
        out.add_octets(b",")?;
    }
    put_digits(number, out)
}

/// A whole number of at most 64 bits, behind others or none.
#[inline(always)]
pub(crate) fn put_whole<S: Sink>(is_later: bool, number: i128, out: &mut S) -> Option<()>
    requires low { int_le (negsuc 9223372036854775807) number ≡ true }
    requires high { int_le number (pos 18446744073709551615) ≡ true }
    ensures { IfSome result (λ u. S.held out.new ≡ S.held out.old ++ (comma_if is_later ++ compact_text (json.whole number))) }
{
    if number < 0 {
        return put_negative(is_later, number as i64, out);
    }
    put_natural(is_later, number as u64, out)
}

#[inline(always)]
fn put_truth<S: Sink>(is_later: bool, is_true: bool, out: &mut S) -> Option<()>
    ensures { IfSome result (λ u. S.held out.new ≡ S.held out.old ++ (comma_if is_later ++ compact_text (boolean is_true))) }
{
    if is_true {
        return add_behind_comma(is_later, b",true", out);
    }
    add_behind_comma(is_later, b",false", out)
}

/// A number of a primitive, behind others or none.
#[inline(always)]
pub(crate) fn put_prim<S: Sink>(prim: Prim, is_later: bool, number: i128, out: &mut S) -> Option<()>
    ensures { IfSome result (λ u. S.held out.new ≡ S.held out.old ++ (comma_if is_later ++ compact_text (json.prim_data prim number))) }
{
    if !is_of_prim(prim, number) {
        return None;
    }
    match prim {
        Prim::Boolean => put_truth(is_later, number == 1, out),
        Prim::Float32 => put_single(is_later, number as u32, out),
        Prim::Float64 => put_double(is_later, number as u64, out),
        Prim::Byte
        | Prim::Int8
        | Prim::Uint8
        | Prim::Int16
        | Prim::Uint16
        | Prim::Int32
        | Prim::Uint32
        | Prim::Int64
        | Prim::Uint64
        | Prim::Char8 => put_whole(is_later, number, out),
    }
}

#[inline(always)]
fn put_number(
    prim: Prim,
    order: Order,
    is_later: bool,
    octets: &[u8],
    block: &mut Block,
) -> Option<()>
    requires { length octets.now ≡ sizes.size prim }
    ensures { IfSome result (λ u. block.new ≡ block.old ++ (comma_if is_later ++ compact_text (json.int_data (json.prim_data prim) (number_of prim order octets.now)))) }
{
    put_prim(
        prim,
        is_later,
        prim_value(prim, number(order, octets)),
        block,
    )
}

// A list of numbers of that primitive, behind its opening bracket. Where the call names the primitive, the compiler makes a loop for it alone.
#[inline(always)]
fn put_numbers(prim: Prim, numbers: &Numbers<'_>, out: &mut Text) -> Option<()>
    requires { prim ≡ numbers.now.prim }
    ensures { IfSome result (λ u. out.new ≡ out.old ++ numbers_text numbers.now.prim numbers.now.order false numbers.now.count numbers.now.octets.now) }
{
    let size = prim_size(prim) as usize;
    let mut rest = numbers.octets;
    let mut is_later = false;
    let mut block = Block::new();
    for turn in 0..numbers.count {
        if rest.len() < size {
            return None;
        }
        make_room(&mut block, out)?;
        let (first, more) = rest.split_at(size);
        put_number(prim, numbers.order, is_later, first, &mut block)?;
        rest = more;
        is_later = true;
    }
    put_last(&mut block, out)
}

/// Appends the JSON of a list of octets, behind its opening bracket, a block at a time.
pub(crate) fn put_octets(octets: &[u8], out: &mut Text) -> Option<()>
    ensures { IfSome result (λ u. out.new ≡ out.old ++ octets_text false octets.now) }
{
    let [first, rest @ ..] = octets else {
        return put(b"]", out);
    };
    let mut block = Block::new();
    add_digits(*first, &mut block);
    for octet in rest {
        make_room(&mut block, out)?;
        add_behind(*octet, &mut block);
    }
    put_last(&mut block, out)
}

// A list of so many octets.
fn put_bytes(order: Order, count: u64, octets: &[u8], out: &mut Text) -> Option<()>
    ensures { IfSome result (λ u. out.new ≡ out.old ++ numbers_text Byte order false count octets.now) }
{
    if octets.len() as u64 != count {
        return None;
    }
    put_octets(octets, out)?;
    Some(())
}

/// Appends the JSON of a list of numbers, behind its opening bracket. None says nothing, and what was appended is to be thrown away.
pub(crate) fn put_list(numbers: &Numbers<'_>, out: &mut Text) -> Option<()>
    ensures { IfSome result (λ u. out.new ≡ out.old ++ numbers_text numbers.now.prim numbers.now.order false numbers.now.count numbers.now.octets.now) }
{
    match numbers.prim {
        Prim::Byte => put_bytes(numbers.order, numbers.count, numbers.octets, out),
        Prim::Float64 => put_numbers(Prim::Float64, numbers, out),
        Prim::Float32 => put_numbers(Prim::Float32, numbers, out),
        Prim::Int32 => put_numbers(Prim::Int32, numbers, out),
        prim => put_numbers(prim, numbers, out),
    }
}
