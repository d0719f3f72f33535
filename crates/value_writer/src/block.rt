//! A block of octets on the stack.
ghost use Rattle.std.specs.Prelude.{◌≡◌, ◌≤◌, ◌++◌, [], ◌∷◌, length, nat_lt, take};
ghost use Rattle.xcdr_model.specs.Numbers.{octets, low_octets};
ghost use Rattle.xt_wire.specs.numbers.Units.{IsUnit};
ghost use Rattle.value_writer.specs.Flushing.{Flushes};

use byteorder::{ByteOrder, LittleEndian};
use std::marker::Model;
use xt_outside::{Failed, Sink};
use xt_shapes::Order;
use xt_wire::writer::{Writer, octets_of};

const SIZE: usize = 512;

#[derive(Drop)]
pub(crate) struct Block {
    octets: [u8; SIZE],
    count: usize,
    ghost in_range: { count ≤ 512 },
}

impl Model for Block {
    ghost use Rattle.std.specs.Prelude.{List, ℕ, take};
    ghost use Rattle.std.specs.Coded.{coded_list, coded_ℕ};

    ghost Value = { List ℕ };

    ghost coded = { coded_list coded_ℕ };

    ghost view = { λ block. take block.count block.octets };
}

impl Block {
    pub(crate) fn new() -> Block
        ensures { result ≡ [] }
    {
        Block {
            octets: [0; SIZE],
            count: 0,
        }
    }

    pub(crate) fn octets(&self) -> &[u8]
        ensures { result.now ≡ self.now }
    {
        &self.octets[..self.count]
    }

    /// Appends the first `size` of these octets.
    fn add(&mut self, size: u32, octets: &[u8; 16])
        requires size { size ≤ 16 }
        requires room { length self.old ≤ 496 }
        ensures { self.new ≡ self.old ++ take size octets.now }
    {
        self.octets[self.count..self.count + 16].copy_from_slice(octets);
        self.count += size as usize;
    }

    /// Appends the low `size` octets of a number, the lowest first: eight are written at once, and those behind are written over.
    #[inline(always)]
    fn add_low(&mut self, size: u32, number: u128)
        requires size { IsUnit size }
        requires room { length self.old ≤ 496 }
        ensures { self.new ≡ self.old ++ low_octets size number }
    {
        let low = (number % 18_446_744_073_709_551_616) as u64;
        LittleEndian::write_u64(&mut self.octets[self.count..self.count + 8], low);
        self.count += size as usize;
    }

    #[inline(always)]
    fn add_octet(&mut self, octet: u8)
        requires { length self.old ≤ 496 }
        ensures { self.new ≡ self.old ++ octet ∷ [] }
    {
        self.octets[self.count] = octet;
        self.count += 1;
    }

    /// Appends the low `size` octets of a number in the order. `size` is 1, 2, 4 or 8.
    #[inline(always)]
    pub(crate) fn add_number(&mut self, order: Order, size: u32, number: u128)
        requires size { IsUnit size }
        requires room { length self.old ≤ 496 }
        ensures { self.new ≡ self.old ++ octets order size number }
    {
        if size == 1 {
            return self.add_octet((number % 256) as u8);
        }
        match order {
            Order::Little => self.add_low(size, number),
            Order::Big => self.add(size, &octets_of(order, size, number)),
        }
    }

    #[inline(always)]
    fn has_room(&self) -> bool
        ensures { result ≡ nat_lt (length self.now) 497 }
    {
        self.count < 497
    }

    fn clear(&mut self)
        ensures { self.new ≡ [] }
    {
        self.count = 0;
    }
}

/// Writes the block and clears it, where it might not have room for another number.
#[inline(always)]
pub(crate) fn make_room<K: Sink>(block: &mut Block, out: &mut Writer<K>) -> Result<(), Failed>
    ensures { Flushes block.old block.new out.old out.new result }
{
    if block.has_room() {
        return Ok(());
    }
    out.put(block.octets())?;
    block.clear();
    Ok(())
}
