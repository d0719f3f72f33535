// Contents behind their headers, in a MUTABLE structure.
ghost use Rattle.std.specs.Prelude.{◌≡◌, ◌≤◌, ◌==◌, ◌<◌, cond, Ok, IfSome, length};
ghost use Rattle.xcdr_model.specs.Xcdr2Reading.{content_at};
ghost use Rattle.packed_reader.specs.Pieces.{IsPiece};
ghost use Rattle.packed_reader.specs.Spots.{spot_of};

use crate::ahead::Ahead;
use crate::numbers::{next_word, region_of};
use xt_shapes::Order;

// The octets of each item that NEXTINT counts under a length code from 5 on.
#[inline(always)]
fn unit_of(code: u64) -> u64
    ensures unit { result ≡ cond (code == 5) 1 (cond (code == 6) 4 8) }
    ensures few { result ≤ 8 }
{
    match code {
        5 => 1,
        6 => 4,
        _ => 8,
    }
}

// The size of a content whose first number counts its items.
#[inline(always)]
fn counted_content<'a>(order: Order, code: u64, ahead: Ahead<'a>) -> Option<(u64, Ahead<'a>)>
    requires { 4 < code }
    ensures size { IfSome result (λ x. content_at order code (spot_of ahead.entry) ≡ Ok (x.0, spot_of x.1)) }
    ensures later { IfSome result (λ x. length x.1.rest.now ≤ length ahead.entry.rest.now) }
{
    let (count, _) = next_word(order, ahead)?;
    Some((4 + count * unit_of(code), ahead))
}

// How many octets a content has, by the length code of its header, and what is ahead from where it begins.
#[inline(always)]
fn content_size<'a>(order: Order, code: u64, ahead: Ahead<'a>) -> Option<(u64, Ahead<'a>)>
    ensures size { IfSome result (λ x. content_at order code (spot_of ahead.entry) ≡ Ok (x.0, spot_of x.1)) }
    ensures later { IfSome result (λ x. length x.1.rest.now ≤ length ahead.entry.rest.now) }
{
    match code {
        0 => Some((1, ahead)),
        1 => Some((2, ahead)),
        2 => Some((4, ahead)),
        3 => Some((8, ahead)),
        4 => {
            let (count, behind) = next_word(order, ahead)?;
            Some((count, behind))
        }
        _ => {
            let (size, begin) = counted_content(order, code, ahead)?;
            Some((size, begin))
        }
    }
}

/// The content of the member with that id as a region, and what is ahead behind it, where its header comes next.
#[inline(always)]
pub(crate) fn next_content<'a>(
    order: Order,
    id: u32,
    ahead: Ahead<'a>,
) -> Option<(Ahead<'a>, Ahead<'a>)>
    ensures { IfSome result (λ x. IsPiece order id (spot_of ahead.entry) (spot_of x.0) (spot_of x.1)) }
{
    let (header, inside) = next_word(order, ahead)?;
    let named = header % 0x1000_0000;
    if named != u64::from(id) {
        return None;
    }
    // (the last id is reserved)
    if named == 0x0FFF_FFFF {
        return None;
    }
    let (size, begin) = content_size(order, header / 0x1000_0000 % 8, inside)?;
    let (content, behind) = region_of(size, begin)?;
    Some((content, behind))
}
