// Collections of primitives, whose numbers are read many at a time.
ghost use Rattle.std.specs.Prelude.{◌≡◌, ◌≤◌, ◌<◌, ◌+◌, ◌*◌, ◌^◌, true, false, length, Some, OnOk};
ghost use Rattle.xt_shapes.specs.Vals.{int};
ghost use Rattle.xcdr_model.specs.Projection.{got};
ghost use Rattle.type_trees.specs.Bridge.{type_shape};
ghost use Rattle.xt_shapes.specs.Defaults.{default_of};
ghost use Rattle.xt_shapes.specs.Shape as model;
ghost use Rattle.xt_shapes.specs.Sizes as sizes;
ghost use Rattle.try_construct.specs.Items.{items_of};
ghost use Rattle.settled_parts.specs.Parts.{part_of};
ghost use Rattle.xt_wire.specs.cursor.Decoding.{Decodes};
ghost use Rattle.xt_wire.specs.cursor.Standing.{Stayed};
ghost use Rattle.xcdr_reader.specs.Blocks.{IsBlock, number_part, and_numbers, block_read};
ghost use Rattle.xcdr_reader.specs.Parts.{items_read};

use crate::leaves::read_prim_part;
use crate::modes::Mode;
use settled_parts::Part;
use std::alloc::Global;
use try_construct::Items;
use type_trees::Elem;
use xt_lists::OutOfMemory;
use xt_shapes::{Order, Prim};
use xt_wire::cursor::{Cursor, DecodeFault, read_octets};
use xt_wire::numbers::{is_boolean, number, prim_size, prim_value};

// The octets that are read at once.
const BLOCK: usize = 512;

// How many numbers of this size there are in so many octets and in a block, at most.
#[tactic(auto, using(crate::proofs::InBlocks::quotient_fits))]
fn numbers_in(left: u64, size: u32, most: u64) -> u64
    requires { 0 < size }
    ensures fits { result * size ≤ left }
    ensures most { result ≤ most }
    ensures small { result * size ≤ 512 }
{
    let size = u64::from(size);
    (left / size).min(BLOCK as u64 / size).min(most)
}

// How many numbers can be read at once from the cursor's place: none where it is not aligned for them, nor for booleans, of which each
// has to be looked at.
fn block_size<C: Cursor>(cursor: &mut C, mode: Mode, prim: Prim, most: u64) -> u64
    ensures stayed { Stayed (C.state cursor.old) (C.state cursor.new) }
    ensures block { IsBlock mode prim most (C.state cursor.old) result }
{
    let origin = cursor.restart();
    cursor.resume(origin);
    let place = cursor.place();
    let size = prim_size(prim);
    if is_boolean(prim) || (place - origin) % u64::from(size.min(mode.most())) != 0 {
        return 0;
    }
    numbers_in(cursor.region_end() - place, size, most)
}

// The value of a primitive whose octets these are.
fn number_in(prim: Prim, order: Order, octets: &[u8]) -> i128
    requires { length octets.now ≡ sizes.size prim }
    ensures { (got (int result), false) ≡ number_part order prim octets.now }
{
    prim_value(prim, number(order, octets))
}

// Takes as many numbers, whose octets these are.
fn take_numbers(
    alloc: Global,
    elem: &Elem,
    bound: u32,
    prim: Prim,
    order: Order,
    octets: &[u8],
    many: u64,
    items: &mut Items,
) -> Result<(), OutOfMemory>
    requires { length octets.now ≡ many * sizes.size prim }
    ensures { OnOk result (items_of items.new ≡ and_numbers bound elem.now.tc (default_of (type_shape elem.now.ty)) order prim many (items_of items.old) octets.now) }
{
    let size = prim_size(prim) as usize;
    let mut rest = octets;
    for turn in 0..many {
        let (first, more) = rest.split_at(size);
        items.take_number(bound, number_in(prim, order, first))?;
        rest = more;
    }
    Ok(())
}

// Reads as many numbers as the octets hold, through these octets.
fn read_through<C: Cursor>(
    alloc: Global,
    elem: &Elem,
    bound: u32,
    prim: Prim,
    many: u64,
    items: &mut Items,
    octets: &mut [u8],
    cursor: &mut C,
) -> Result<(), DecodeFault>
    requires { length octets.old ≡ many * sizes.size prim }
    ensures { Decodes (λ u. items_of items.new) (block_read bound elem.now.tc (default_of (type_shape elem.now.ty)) prim many (items_of items.old)) (C.state cursor.old) (C.state cursor.new) result }
{
    read_octets(cursor, octets)?;
    take_numbers(
        alloc,
        elem,
        bound,
        prim,
        cursor.order(),
        octets,
        many,
        items,
    )?;
    Ok(())
}

// Reads a block of so many numbers.
fn read_block<C: Cursor>(
    alloc: Global,
    elem: &Elem,
    bound: u32,
    prim: Prim,
    many: u64,
    items: &mut Items,
    cursor: &mut C,
) -> Result<(), DecodeFault>
    requires { many * sizes.size prim ≤ 512 }
    ensures { Decodes (λ u. items_of items.new) (block_read bound elem.now.tc (default_of (type_shape elem.now.ty)) prim many (items_of items.old)) (C.state cursor.old) (C.state cursor.new) result }
{
    let mut block = [0u8; BLOCK];
    let count = (many * u64::from(prim_size(prim))) as usize;
    read_through(
        alloc,
        elem,
        bound,
        prim,
        many,
        items,
        &mut block[..count],
        cursor,
    )
}

/// Reads so many items of a collection whose elements are that primitive.
pub(crate) fn read_numbers<C: Cursor>(
    alloc: Global,
    elem: &Elem,
    bound: u32,
    mode: Mode,
    prim: Prim,
    count: u64,
    cursor: &mut C,
) -> Result<Part, DecodeFault>
    requires { type_shape elem.now.ty ≡ model.prim prim }
    ensures { Decodes part_of (items_read mode bound elem.now.tc (type_shape elem.now.ty) (Some count)) (C.state cursor.old) (C.state cursor.new) result }
{
    let mut items = Items::new(alloc);
    let mut at = 0;
    while at < count {
        let many = block_size(cursor, mode, prim, count - at);
        if many == 0 {
            let part = read_prim_part(cursor, mode, prim)?;
            items.take(alloc, bound, elem, part)?;
            at += 1;
            continue;
        }
        read_block(alloc, elem, bound, prim, many, &mut items, cursor)?;
        at += many;
    }
    Ok(items.part())
}
