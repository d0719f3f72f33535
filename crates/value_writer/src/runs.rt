//! Lists of numbers, gathered into blocks so that a sink is called once a block.
ghost use Rattle.std.specs.Prelude.{◌≡◌, map};
ghost use Rattle.type_trees.specs.View.{val};
ghost use Rattle.xt_wire.specs.numbers.Units.{IsUnit};
ghost use Rattle.xt_wire.specs.writer.Writing.{Puts};
ghost use Rattle.value_writer.specs.Runs.{run_fixed, digits_of};

use crate::block::{Block, make_room};
use crate::values::number_in;
use type_trees::Value;
use xt_outside::{Failed, Sink};
use xt_shapes::Order;
use xt_wire::writer::{Writer, raw};

// The order and the size are known where a call of this is compiled, or looked at for each number.
#[inline(always)]
fn put_digits<K: Sink>(
    order: Order,
    size: u32,
    values: &[Value],
    out: &mut Writer<K>,
) -> Result<(), Failed>
    requires { IsUnit size }
    ensures { Puts (λ p. digits_of order size (map val values.now)) out.old out.new result }
{
    let mut block = Block::new();
    for value in values {
        make_room(&mut block, out)?;
        block.add_number(order, size, raw(size, number_in(value)));
    }
    out.put(block.octets())
}

// Octets and numbers of each order have a loop of their own.
fn put_sized<K: Sink>(size: u32, values: &[Value], out: &mut Writer<K>) -> Result<(), Failed>
    requires { IsUnit size }
    ensures { Puts (λ p. digits_of out.old.order size (map val values.now)) out.old out.new result }
{
    let order = out.order();
    if size == 1 {
        return put_digits(order, 1, values, out);
    }
    match order {
        Order::Little => put_digits(Order::Little, size, values, out),
        Order::Big => put_digits(Order::Big, size, values, out),
    }
}

/// Writes the numbers of these values, each of `size` octets, aligned to their size and at most to `most`; each of these is
/// 1, 2, 4 or 8.
pub fn put_run<K: Sink>(
    most: u32,
    size: u32,
    values: &[Value],
    out: &mut Writer<K>,
) -> Result<(), Failed>
    requires most { IsUnit most }
    requires size { IsUnit size }
    ensures { Puts (run_fixed most out.old.order size (map val values.now)) out.old out.new result }
{
    if values.is_empty() {
        return Ok(());
    }
    out.align(size.min(most))?;
    put_sized(size, values, out)
}
