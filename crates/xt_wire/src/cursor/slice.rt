ghost use Rattle.std.specs.Prelude.{◌≡◌, ◌≤◌, ◌<◌, ◌^◌, length};

use crate::cursor::cursor::{Cursor, CutFault, Outer};
use crate::numbers::padding;
use xt_shapes::Order;

/// A cursor over octets in memory, which never fails.
#[derive(Drop)]
pub struct SliceCursor<'a> {
    octets: &'a [u8],
    place: usize,
    end: usize,
    origin: usize,
    order: Order,
    ghost from_origin: { origin ≤ place },
    ghost in_region: { place ≤ end },
    ghost in_whole: { end ≤ length octets.now },
    ghost fits: { length octets.now < 2 ^ 64 },
}

impl<'a> SliceCursor<'a> {
    ghost use Rattle.xt_wire.specs.cursor.Slices.{slice_state, at_start};

    /// A cursor at place 0, which is the origin, in little order, whose region is the whole slice.
    pub fn new(octets: &'a [u8]) -> SliceCursor<'a>
        ensures { slice_state result ≡ at_start octets.now }
    {
        SliceCursor {
            octets,
            place: 0,
            end: octets.len(),
            origin: 0,
            order: Order::Little,
        }
    }
}

impl<'a> Cursor for SliceCursor<'a> {
    ghost use Rattle.xt_wire.specs.cursor.Slices.{slice_state, slice_stands};

    ghost state = { slice_state };

    ghost stands = { slice_stands };

    fn place(&self) -> u64 {
        self.place as u64
    }

    fn region_end(&self) -> u64 {
        self.end as u64
    }

    fn order(&self) -> Order {
        self.order
    }

    fn set_order(&mut self, order: Order) {
        self.order = order;
    }

    fn align(&mut self, to: u32, most: u32) -> Result<(), CutFault> {
        let pad = padding(to.min(most), (self.place - self.origin) as u64) as usize;
        if self.end - self.place < pad {
            return Err(CutFault::Short {
                at: self.end as u64,
            });
        }
        self.place += pad;
        Ok(())
    }

    fn take(&mut self, into: &mut [u8]) -> Result<(), CutFault> {
        let count = into.len();
        if self.end - self.place < count {
            return Err(CutFault::Short {
                at: self.place as u64,
            });
        }
        into.copy_from_slice(&self.octets[self.place..self.place + count]);
        self.place += count;
        Ok(())
    }

    fn pass(&mut self, count: u64) -> Result<(), CutFault> {
        if ((self.end - self.place) as u64) < count {
            return Err(CutFault::Short {
                at: self.place as u64,
            });
        }
        self.place += count as usize;
        Ok(())
    }

    fn enter(&mut self, length: u64) -> Result<Outer, CutFault> {
        if ((self.end - self.place) as u64) < length {
            return Err(CutFault::Short {
                at: self.place as u64,
            });
        }
        let outer = Outer {
            end: self.end as u64,
        };
        self.end = self.place + length as usize;
        Ok(outer)
    }

    fn leave(&mut self, outer: Outer) {
        self.end = outer.end as usize;
    }

    fn restart(&mut self) -> u64 {
        let old = self.origin as u64;
        self.origin = self.place;
        old
    }

    fn resume(&mut self, origin: u64) {
        self.origin = origin as usize;
    }
}
