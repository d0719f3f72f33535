ghost use Rattle.std.specs.Prelude.{◌≡◌, ◌≤◌, ◌+◌, ◌-◌, length};
ghost use Rattle.xcdr_steps.specs.again.Passing.{HasPassed};

use crate::again::peeking::Peeking;
use xt_shapes::Order;
use xt_wire::cursor::{Cursor, CutFault, Outer};
use xt_wire::numbers::padding;
use xt_wire::seen::Seen;

/// A cursor over another one's region, which can give the last octets again that it read. Of the other one it only takes octets or passes
/// over them; region, origin and order are its own.
#[derive(Drop)]
pub struct Rereading<'a, C: Cursor> {
    inner: &'a mut C,
    // The other one as it was at first.
    began: Seen<C>,
    // The octets after the place that were read already are `next[from..]`.
    next: [u8; 4],
    from: usize,
    // Whether the device failed.
    failed: bool,
    place: u64,
    end: u64,
    origin: u64,
    order: Order,
    ghost sized: { length next ≡ 4 },
    ghost few: { from ≤ 4 },
    ghost reached: { place + (4 - from) ≡ (C.state inner.now).place },
    ghost from_origin: { origin ≤ place },
    ghost in_region: { place ≤ end },
    ghost in_whole: { end ≤ (C.state inner.now).region_end },
    ghost passed: { HasPassed failed (C.state began.value) (C.state inner.now) },
}

impl<'a, C: Cursor> Rereading<'a, C> {
    ghost use Rattle.xt_wire.specs.cursor.Standing.{Stayed};
    ghost use Rattle.xcdr_steps.specs.again.Rereading.{rereading_state, again_start};

    /// A cursor that stands where the other one does. It takes no memory.
    pub fn new(inner: &'a mut C) -> Rereading<'a, C>
        ensures same { result.inner.ghost_name ≡ inner.entry.ghost_name }
        ensures stayed { Stayed (C.state inner.old) (C.state result.began.value) }
        ensures state { rereading_state result ≡ again_start inner.entry.ghost_name (C.state result.began.value) }
    {
        let origin = inner.restart();
        inner.resume(origin);
        let began = Seen::now(&*inner);
        let place = inner.place();
        let end = inner.region_end();
        let order = inner.order();
        Rereading {
            inner,
            began,
            next: [0; 4],
            from: 4,
            failed: false,
            place,
            end,
            origin,
            order,
        }
    }
}

impl<'a, C: Cursor> Rereading<'a, C> {
    ghost use Rattle.std.specs.Prelude.{◌≡◌, ◌+◌, ◌≤◌, length, take, min, OnOk, IfSome};
    ghost use Rattle.xt_wire.specs.cursor.Standing.{Moved, Gives};
    ghost use Rattle.xcdr_steps.specs.again.Passing.{Advances};
    ghost use Rattle.xcdr_steps.specs.again.Rereading.{rereading_state, held_count};

    // Takes octets that are held to the front of the slice, and answers how many.
    fn take_held(&mut self, into: &mut [u8]) -> usize
        requires { self.old.place + length into.old ≤ self.old.end }
        ensures count { result ≡ min (held_count self.old) (length into.new) }
        ensures held { held_count self.new + result ≡ held_count self.old }
        ensures moved { Moved result (rereading_state self.old) (rereading_state self.new) }
        ensures octets { IfSome (rereading_state self.old).ahead (λ octets. take result into.new ≡ take result octets) }
    {
        let count = (4 - self.from).min(into.len());
        into[..count].copy_from_slice(&self.next[self.from..self.from + count]);
        self.from += count;
        self.place += count as u64;
        count
    }

    // Passes over octets that are held, and answers how many.
    fn pass_held(&mut self, count: u64) -> u64
        requires { self.old.place + count ≤ self.old.end }
        ensures count { result ≡ min (held_count self.old) count }
        ensures held { held_count self.new + result ≡ held_count self.old }
        ensures moved { Moved result (rereading_state self.old) (rereading_state self.new) }
    {
        let passed = ((4 - self.from) as u64).min(count);
        self.from += passed as usize;
        self.place += passed;
        passed
    }

    // Takes the next octets, where none are held.
    #[inline(always)]
    fn read(&mut self, into: &mut [u8]) -> Result<(), CutFault>
        requires none { held_count self.old ≡ 0 }
        requires within { self.old.place + length into.old ≤ self.old.end }
        ensures moves { Advances (length into.new) (rereading_state self.old) (rereading_state self.new) result }
        ensures octets { Gives (rereading_state self.old) into.new result }
    {
        match self.inner.take(into) {
            Ok(()) => {
                self.place += into.len() as u64;
                Ok(())
            }
            Err(CutFault::Short { .. }) => unreachable!(),
            Err(CutFault::Fault) => {
                self.place = self.inner.place();
                self.failed = true;
                Err(CutFault::Fault)
            }
        }
    }

    // Takes the next octets, some of which are held.
    #[inline(never)]
    fn read_behind(&mut self, into: &mut [u8]) -> Result<(), CutFault>
        requires { self.old.place + length into.old ≤ self.old.end }
        ensures moves { Advances (length into.new) (rereading_state self.old) (rereading_state self.new) result }
        ensures octets { Gives (rereading_state self.old) into.new result }
    {
        let count = self.take_held(into);
        if count == into.len() {
            return Ok(());
        }
        self.read(&mut into[count..])
    }

    // Passes over the next octets, where none are held.
    #[inline(always)]
    fn skip(&mut self, count: u64) -> Result<(), CutFault>
        requires none { held_count self.old ≡ 0 }
        requires within { self.old.place + count ≤ self.old.end }
        ensures { Advances count (rereading_state self.old) (rereading_state self.new) result }
    {
        match self.inner.pass(count) {
            Ok(()) => {
                self.place += count;
                Ok(())
            }
            Err(CutFault::Short { .. }) => unreachable!(),
            Err(CutFault::Fault) => {
                self.place = self.inner.place();
                self.failed = true;
                Err(CutFault::Fault)
            }
        }
    }

    // Passes over the next octets.
    #[inline(always)]
    fn advance(&mut self, count: u64) -> Result<(), CutFault>
        requires { self.old.place + count ≤ self.old.end }
        ensures { Advances count (rereading_state self.old) (rereading_state self.new) result }
    {
        let passed = self.pass_held(count);
        if passed == count {
            return Ok(());
        }
        self.skip(count - passed)
    }
}

impl<'a, C: Cursor> Cursor for Rereading<'a, C> {
    ghost use Rattle.xcdr_steps.specs.again.Rereading.{rereading_state, rereading_stands};

    ghost state = { rereading_state };

    ghost stands = { λ c. rereading_stands c (C.stands c.inner.now) };

    fn place(&self) -> u64 {
        self.place
    }

    fn region_end(&self) -> u64 {
        self.end
    }

    fn order(&self) -> Order {
        self.order
    }

    fn set_order(&mut self, order: Order) {
        self.order = order;
    }

    #[inline(always)]
    fn align(&mut self, to: u32, most: u32) -> Result<(), CutFault> {
        let pad = padding(to.min(most), self.place - self.origin);
        if self.end - self.place < pad {
            return Err(CutFault::Short { at: self.end });
        }
        self.advance(pad)
    }

    #[inline(always)]
    fn take(&mut self, into: &mut [u8]) -> Result<(), CutFault> {
        if self.end - self.place < into.len() as u64 {
            return Err(CutFault::Short { at: self.place });
        }
        if self.from == 4 {
            return self.read(into);
        }
        self.read_behind(into)
    }

    fn pass(&mut self, count: u64) -> Result<(), CutFault> {
        if self.end - self.place < count {
            return Err(CutFault::Short { at: self.place });
        }
        self.advance(count)
    }

    fn enter(&mut self, length: u64) -> Result<Outer, CutFault> {
        if self.end - self.place < length {
            return Err(CutFault::Short { at: self.place });
        }
        let outer = Outer { end: self.end };
        self.end = self.place + length;
        Ok(outer)
    }

    fn leave(&mut self, outer: Outer) {
        self.end = outer.end;
    }

    fn restart(&mut self) -> u64 {
        let old = self.origin;
        self.origin = self.place;
        old
    }

    fn resume(&mut self, origin: u64) {
        self.origin = origin;
    }
}

impl<'a, C: Cursor> Peeking for Rereading<'a, C> {
    fn peek(&mut self) -> Result<[u8; 4], CutFault> {
        if self.end - self.place < 4 {
            return Err(CutFault::Short { at: self.place });
        }
        let held = 4 - self.from;
        let mut next = [0u8; 4];
        next[..held].copy_from_slice(&self.next[self.from..]);
        match self.inner.take(&mut next[held..]) {
            Ok(()) => {
                self.next = next;
                self.from = 0;
                Ok(next)
            }
            Err(CutFault::Short { .. }) => unreachable!(),
            Err(CutFault::Fault) => {
                self.from = 4;
                self.place = self.inner.place();
                self.failed = true;
                Err(CutFault::Fault)
            }
        }
    }
}
