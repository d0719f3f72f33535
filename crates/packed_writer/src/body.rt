//! The octets of a body, behind what stands before it.
ghost use Rattle.std.specs.Prelude.{◌≡◌, ◌-◌, IfSome, length};
ghost use Rattle.xt_shapes.specs.declared.leaves.Order.TheVariants.{Little};
ghost use Rattle.xcdr_model.specs.FixedSpelling.{number_fixed};
ghost use Rattle.xcdr_model.specs.Numbers.{octets};
ghost use Rattle.xt_wire.specs.numbers.Units.{IsUnit};
ghost use Rattle.xt_wire.specs.writer.Writing.{padding_fixed};
ghost use Rattle.packed_writer.specs.Appending.{Appends, Counts};

use byteorder::{ByteOrder, LittleEndian};
use std::marker::Model;
use xt_shapes::Order;
use xt_wire::numbers::padding;
use xt_wire::writer::octets_of;

/// Octets, with the origin that numbers are aligned from.
#[derive(Drop)]
pub(crate) struct Body {
    octets: Vec<u8>,
    origin: usize,
}

impl Model for Body {
    ghost use Rattle.packed_writer.specs.Appending.{Begun};

    ghost Value = { Begun };

    ghost view = { λ body. record { origin = body.origin; octets = body.octets.items } };
}

impl Body {
    /// A body that begins behind these octets.
    pub(crate) fn new(octets: Vec<u8>) -> Body
        ensures { result ≡ record { origin = length octets.items; octets = octets.items } }
    {
        Body {
            origin: octets.len(),
            octets,
        }
    }

    /// All octets.
    pub(crate) fn end(self) -> Vec<u8>
        ensures { result.items ≡ self.octets }
    {
        let Body { octets, origin: _ } = self;
        octets
    }

    /// The number of octets, with those that stand before the body.
    pub(crate) fn len(&self) -> usize
        ensures { result ≡ length self.now.octets }
    {
        self.octets.len()
    }

    /// How far the next octet is from the origin.
    #[inline(always)]
    pub(crate) fn place(&self) -> u64
        ensures { result ≡ length self.now.octets - self.now.origin }
    {
        self.octets.len().saturating_sub(self.origin) as u64
    }

    /// Appends these octets.
    #[inline(always)]
    pub(crate) fn put(&mut self, octets: &[u8]) -> Option<()>
        ensures { IfSome result (λ u. Appends (λ p. octets.now) self.old self.new) }
    {
        match self.octets.extend_from_slice(octets) {
            Ok(()) => Some(()),
            Err(_) => None,
        }
    }

    /// Appends zeros up to the next place whose distance from the origin is a multiple of `to`, which is 1, 2, 4 or 8.
    #[inline(always)]
    pub(crate) fn align(&mut self, to: u32) -> Option<()>
        requires { IsUnit to }
        ensures { IfSome result (λ u. Appends (padding_fixed to) self.old self.new) }
    {
        let pad = padding(to, self.place());
        let zeros = [0u8; 8];
        self.put(&zeros[..pad as usize])
    }

    /// Appends a number of `size` octets where the body ends; `size` is 1, 2, 4 or 8.
    #[inline(always)]
    pub(crate) fn digits(&mut self, size: u32, number: u128) -> Option<()>
        requires { IsUnit size }
        ensures { IfSome result (λ u. Appends (λ p. octets Little size number) self.old self.new) }
    {
        let octets = octets_of(Order::Little, size, number);
        self.put(&octets[..size as usize])
    }

    /// Appends a number of `size` octets, aligned to its size and at most to `most`; each of these is 1, 2, 4 or 8.
    #[inline(always)]
    pub(crate) fn number(&mut self, most: u32, size: u32, number: u128) -> Option<()>
        requires most { IsUnit most }
        requires size { IsUnit size }
        ensures { IfSome result (λ u. Appends (number_fixed most Little size number) self.old self.new) }
    {
        self.align(size.min(most))?;
        self.digits(size, number)
    }

    /// Makes the present end the origin of alignment, and answers the old origin.
    pub(crate) fn restart(&mut self) -> usize
        ensures origin { result ≡ self.old.origin }
        ensures rest { self.new ≡ record self.old { origin = length self.old.octets } }
    {
        let origin = self.origin;
        self.origin = self.octets.len();
        origin
    }

    /// Makes `origin` the origin of alignment again.
    pub(crate) fn resume(&mut self, origin: usize)
        ensures { self.new ≡ record self.old { origin = origin } }
    {
        self.origin = origin;
    }

    /// Sets the four octets before `begin` to the count of the octets from there on. None where four octets don't hold it.
    pub(crate) fn count_from(&mut self, begin: usize) -> Option<()>
        ensures { IfSome result (λ u. Counts 4 begin self.old self.new) }
    {
        if begin < 4 || begin > self.octets.len() {
            return None;
        }
        let count = self.octets.len() - begin;
        if count > 4_294_967_295 {
            return None;
        }
        LittleEndian::write_u32(&mut self.octets[begin - 4..begin], count as u32);
        Some(())
    }

    /// Sets the two octets before `begin` to the count of the octets from there on. None where two octets don't hold it.
    pub(crate) fn short_count_from(&mut self, begin: usize) -> Option<()>
        ensures { IfSome result (λ u. Counts 2 begin self.old self.new) }
    {
        if begin < 2 || begin > self.octets.len() {
            return None;
        }
        let count = self.octets.len() - begin;
        if count > 65_535 {
            return None;
        }
        LittleEndian::write_u16(&mut self.octets[begin - 2..begin], count as u16);
        Some(())
    }
}
