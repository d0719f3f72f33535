//! A block of octets on the stack, which goes to the text at once.
ghost use Rattle.std.specs.Prelude.{◌≡◌, ◌≤◌, ◌<◌, ◌+◌, ◌++◌, [], ◌∷◌, length, nat_lt, take, decimal, IfSome};

use crate::texts::put;
use std::marker::Model;
use xt_lists::Text;

const SIZE: usize = 512;

#[derive(Drop)]
pub(crate) struct Block {
    octets: [u8; SIZE],
    count: usize,
    ghost in_range: { count ≤ 512 },
}

impl Model for Block {
    ghost use Rattle.std.specs.Prelude.{List, ℕ, take};
    ghost use Rattle.std.specs.Coded.{coded_list, coded_ℕ};

    ghost Value = { List ℕ };

    ghost coded = { coded_list coded_ℕ };

    ghost view = { λ block. take block.count block.octets };
}

impl Block {
    pub(crate) fn new() -> Block
        ensures { result ≡ [] }
    {
        Block {
            octets: [0; SIZE],
            count: 0,
        }
    }

    pub(crate) fn octets(&self) -> &[u8]
        ensures { result.now ≡ self.now }
    {
        &self.octets[..self.count]
    }

    #[inline(always)]
    pub(crate) fn add(&mut self, octet: u8)
        requires { length self.old < 512 }
        ensures { self.new ≡ self.old ++ octet ∷ [] }
    {
        self.octets[self.count] = octet;
        self.count += 1;
    }

    /// How many octets more it takes.
    #[inline(always)]
    pub(crate) fn room(&self) -> usize
        ensures { length self.now + result ≡ 512 }
    {
        SIZE - self.count
    }

    /// Adds octets behind those that are there.
    #[inline(always)]
    pub(crate) fn add_all(&mut self, octets: &[u8])
        requires room { length self.old + length octets.now ≤ 512 }
        ensures { self.new ≡ self.old ++ octets.now }
    {
        self.octets[self.count..self.count + octets.len()].copy_from_slice(octets);
        self.count += octets.len();
    }

    /// Adds the first of the octets, so many. All are written, which takes few steps where their number is a constant.
    #[inline(always)]
    pub(crate) fn add_first(&mut self, octets: &[u8], count: usize)
        requires some { count ≤ length octets.now }
        requires room { length self.old + length octets.now ≤ 512 }
        ensures { self.new ≡ self.old ++ take count octets.now }
    {
        self.octets[self.count..self.count + octets.len()].copy_from_slice(octets);
        self.count += count;
    }

    #[inline(always)]
    fn has_room(&self) -> bool
        ensures { result ≡ nat_lt (length self.now) 481 }
    {
        self.count < 481
    }

    fn clear(&mut self)
        ensures { self.new ≡ [] }
    {
        self.count = 0;
    }
}

/// Appends the block to the text and clears it, where it might not have room for another number.
#[inline(always)]
pub(crate) fn make_room(block: &mut Block, out: &mut Text) -> Option<()>
    ensures kept { IfSome result (λ u. out.new ++ block.new ≡ out.old ++ block.old) }
    ensures room { IfSome result (λ u. length block.new ≤ 480) }
{
    if block.has_room() {
        return Some(());
    }
    put(block.octets(), out)?;
    block.clear();
    Some(())
}

/// Appends the block and the closing bracket to the text.
pub(crate) fn put_last(block: &mut Block, out: &mut Text) -> Option<()>
    ensures { IfSome result (λ u. out.new ≡ (out.old ++ block.old) ++ 93 ∷ []) }
{
    make_room(block, out)?;
    block.add(b']');
    put(block.octets(), out)
}

/// The digits of an octet.
#[inline(always)]
pub(crate) fn add_digits(octet: u8, block: &mut Block)
    requires { length block.old ≤ 500 }
    ensures { block.new ≡ block.old ++ decimal octet }
{
    let last = 48 + octet % 10;
    if octet < 10 {
        block.add(last);
        return;
    }
    let middle = 48 + octet / 10 % 10;
    if octet < 100 {
        block.add(middle);
        block.add(last);
        return;
    }
    block.add(48 + octet / 100);
    block.add(middle);
    block.add(last);
}
