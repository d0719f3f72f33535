//! Lists of numbers, as their octets.
ghost use Rattle.std.specs.Prelude.{◌≡◌, ◌++◌, [], IfSome};
ghost use Rattle.xt_shapes.specs.declared.leaves.Order.TheVariants.{Little};
ghost use Rattle.xt_shapes.specs.Sizes as sizes;
ghost use Rattle.xcdr_model.specs.Numbers as numbers;
ghost use Rattle.json_values.specs.Read.{prim_of};
ghost use Rattle.packed_json.specs.Tapes.{ReadsRun};

use crate::tapes::leaves::read_number;
use json::Element;
use packed_reader::OwnNumbers;
use std::alloc::Global;
use xt_lists::Text;
use xt_shapes::{Order, Prim};
use xt_wire::numbers::prim_size;
use xt_wire::writer::{octets_of, raw};

// The octets of a number in little-endian order, behind others.
fn put_number(prim: Prim, number: i128, octets: &mut Text) -> Option<()>
    ensures { IfSome result (λ u. octets.new ≡ octets.old ++ numbers.octets Little (sizes.size prim) (numbers.raw (sizes.size prim) number)) }
{
    let size = prim_size(prim);
    let own = octets_of(Order::Little, size, raw(size, number));
    match octets.append(&own[..size as usize]) {
        Ok(()) => Some(()),
        Err(_) => None,
    }
}

// An empty text with room for so many octets.
fn empty_text(alloc: Global, room: usize) -> Option<Text>
    ensures { IfSome result (λ text. text ≡ []) }
{
    match Vec::with_capacity(alloc, room) {
        Ok(octets) => Some(Text::from_vec(octets)),
        Err(_) => None,
    }
}

/// The numbers of a list of primitives. Memory is asked for so many octets at first.
pub(crate) fn read_numbers(
    alloc: Global,
    prim: Prim,
    room: usize,
    part: &Element<'_, '_>,
) -> Option<OwnNumbers>
    ensures { ReadsRun (prim_of prim) part.now result }
{
    let mut items = part.items()?;
    let mut octets = empty_text(alloc, room)?;
    let mut count: u64 = 0;
    while let Some(item) = items.next() {
        let number = read_number(prim, &item)?;
        put_number(prim, number, &mut octets)?;
        count = count.checked_add(1)?;
    }
    Some(OwnNumbers {
        prim,
        count,
        octets,
    })
}
