ghost use Rattle.std.specs.Prelude.{◌≡◌, ◌+◌, ◌%◌, ◌^◌, length, min};
ghost use Rattle.xcdr_model.specs.Numbers.{octets};
ghost use Rattle.xcdr_model.specs.FixedSpelling.{number_fixed};
ghost use Rattle.xt_wire.specs.numbers.Units.{IsUnit};
ghost use Rattle.xt_wire.specs.writer.Writing.{Puts, padding_fixed};

use crate::numbers::padding;
use crate::writer::digits::octets_of;
use std::marker::Model;
use xt_outside::{Failed, Sink, write_whole};
use xt_shapes::Order;

/// Octets that go to a sink, with a place, the origin of alignment and the order of numbers.
///
/// A place counts the octets that were written, and goes round at the end of a `u64`. No call takes memory. A call that is
/// refused wrote some of the first of its octets, and comes only where the sink's count of faults rose.
#[derive(Drop)]
pub struct Writer<K: Sink> {
    sink: K,
    place: u64,
    origin: u64,
    order: Order,
}

impl<K: Sink> Model for Writer<K> {
    ghost use Rattle.xt_wire.specs.writer.Written.{Written};

    ghost Value = { Written };

    ghost view = { λ w. record { place = w.place; origin = w.origin; order = w.order; taken = K.taken w.sink; faults = K.faults w.sink; name = K.name w.sink } };
}

impl<K: Sink> Writer<K> {
    /// A writer at place 0, which is the origin.
    pub fn new(sink: K, order: Order) -> Writer<K>
        ensures { result ≡ record { place = 0; origin = 0; order = order; taken = K.taken sink; faults = K.faults sink; name = K.name sink } }
    {
        Writer {
            sink,
            place: 0,
            origin: 0,
            order,
        }
    }

    /// Gives the sink back.
    pub fn end(self) -> K
        ensures taken { K.taken result ≡ self.taken }
        ensures faults { K.faults result ≡ self.faults }
        ensures name { K.name result ≡ self.name }
    {
        let Writer {
            sink,
            place: _,
            origin: _,
            order: _,
        } = self;
        sink
    }

    /// The number of octets that were written, which goes round at the end of a `u64`.
    pub fn place(&self) -> u64
        ensures { result ≡ self.now.place }
    {
        self.place
    }

    /// The order of the octets of numbers.
    pub fn order(&self) -> Order
        ensures { result ≡ self.now.order }
    {
        self.order
    }

    /// Makes the present place the origin of alignment, and answers the old origin.
    pub fn restart(&mut self) -> u64
        ensures origin { result ≡ self.old.origin }
        ensures rest { self.new ≡ record self.old { origin = self.old.place } }
    {
        let origin = self.origin;
        self.origin = self.place;
        origin
    }

    /// Makes `origin` the origin of alignment again.
    pub fn resume(&mut self, origin: u64)
        ensures { self.new ≡ record self.old { origin = origin } }
    {
        self.origin = origin;
    }

    /// Writes these octets.
    pub fn put(&mut self, octets: &[u8]) -> Result<(), Failed>
        ensures { Puts (λ p. octets.now) self.old self.new result }
    {
        write_whole(&mut self.sink, octets)?;
        self.place = self.place.wrapping_add(octets.len() as u64);
        Ok(())
    }

    /// Writes zeros up to the next place whose distance from the origin is a multiple of `to`, which is 1, 2, 4 or 8.
    pub fn align(&mut self, to: u32) -> Result<(), Failed>
        requires { IsUnit to }
        ensures { Puts (padding_fixed to) self.old self.new result }
    {
        let pad = padding(to, self.place.wrapping_sub(self.origin));
        let zeros = [0u8; 8];
        self.put(&zeros[..pad as usize])
    }

    /// Writes a number of `size` octets, aligned to its size and at most to `most`; each of these is 1, 2, 4 or 8.
    pub fn number(&mut self, most: u32, size: u32, number: u128) -> Result<(), Failed>
        requires most { IsUnit most }
        requires size { IsUnit size }
        ensures { Puts (number_fixed most self.old.order size number) self.old self.new result }
    {
        self.align(size.min(most))?;
        self.digits(size, number)
    }

    /// Writes a number of `size` octets where the writer stands; `size` is 1, 2, 4 or 8.
    pub fn digits(&mut self, size: u32, number: u128) -> Result<(), Failed>
        requires { IsUnit size }
        ensures { Puts (λ p. octets self.old.order size number) self.old self.new result }
    {
        let octets = octets_of(self.order, size, number);
        self.put(&octets[..size as usize])
    }
}
