ghost use Rattle.std.specs.Prelude.{◌≡◌, ◌≤◌, ◌<◌, ◌^◌};
ghost use Rattle.xt_wire.specs.streams.Streams.{stopped_result};

use crate::cursor::{Cursor, CutFault, Outer};
use crate::numbers::padding;
use crate::streams::payload::Payload;
use xt_io::BundleReader;
use xt_outside::{Failed, Source};
use xt_shapes::Order;

const CHUNK: usize = 512;

/// A cursor over the payload of the last head that a reader gave. Its octets are read from the reader as they are wanted, straight
/// to where they are wanted, and its calls take no memory.
///
/// A call answers `Fault` only where the source failed, or where the input ended before the payload's end; each of these raises the
/// cursor's count. The octets that were read until then are passed: the cursor stands after them.
#[derive(Drop)]
pub struct StreamCursor<S: Source> {
    // The cursor stands behind the octets that were read of it.
    payload: Payload<S>,
    end: u64,
    origin: u64,
    order: Order,
    ghost from_origin: { origin ≤ payload.read },
    ghost in_region: { payload.read ≤ end },
    ghost in_whole: { end ≤ payload.whole },
    ghost fits: { payload.whole < 2 ^ 64 },
}

impl<S: Source> StreamCursor<S> {
    ghost use Rattle.std.specs.Prelude.{◌≡◌, ◌≤◌, ◌+◌, length, take, IfSome, OnOk, OnErr};
    ghost use Rattle.xt_wire.specs.cursor.Standing.{Moved, Stopped};
    ghost use Rattle.xt_wire.specs.streams.Streams.{IsUnread};
    ghost use Rattle.xt_wire.specs.streams.Cursors.{stream_state, stream_start, Ends};

    /// A cursor at place 0, which is the origin, in little order, whose region is the payload of `length` octets. The reader's
    /// last `next_head` gave a head of this length, and none of its payload was read. It takes no memory.
    pub fn new(reader: BundleReader<S>, length: u32) -> StreamCursor<S>
        requires { IsUnread length reader }
        ensures { stream_state result ≡ stream_start length reader }
    {
        StreamCursor {
            payload: Payload::new(reader, length),
            end: u64::from(length),
            origin: 0,
            order: Order::Little,
        }
    }

    /// Gives the reader back, with the payload after the cursor's place still left. It takes no memory.
    pub fn end(self) -> BundleReader<S>
        ensures { Ends (stream_state self) result }
    {
        let StreamCursor {
            payload,
            end: _,
            origin: _,
            order: _,
        } = self;
        payload.end()
    }

    // Takes the next octets.
    fn advance(&mut self, into: &mut [u8]) -> Result<(), Failed>
        requires { self.old.payload.read + length into.old ≤ self.old.end }
        ensures moved { OnOk result (Moved (length into.new) (stream_state self.old) (stream_state self.new)) }
        ensures stopped { OnErr result (Stopped (length into.new) (stream_state self.old) (stream_state self.new)) }
        ensures octets { OnOk result (IfSome (stream_state self.old).ahead (λ octets. into.new ≡ take (length into.new) octets)) }
    {
        self.payload.fill(into)
    }

    // Takes this many octets and keeps none.
    fn advance_over(&mut self, count: u64) -> Result<(), Failed>
        requires { self.old.payload.read + count ≤ self.old.end }
        ensures moved { OnOk result (Moved count (stream_state self.old) (stream_state self.new)) }
        ensures stopped { OnErr result (Stopped count (stream_state self.old) (stream_state self.new)) }
    {
        let mut chunk = [0u8; CHUNK];
        let mut left = count;
        'chunks: while left > 0 {
            let want = left.min(CHUNK as u64);
            self.advance(&mut chunk[..want as usize])?;
            left -= want;
        }
        Ok(())
    }
}

// What a call answers where the device failed.
fn stopped(outcome: Result<(), Failed>) -> Result<(), CutFault>
    ensures { result ≡ stopped_result outcome }
{
    match outcome {
        Ok(()) => Ok(()),
        Err(Failed) => Err(CutFault::Fault),
    }
}

impl<S: Source> Cursor for StreamCursor<S> {
    ghost use Rattle.xt_wire.specs.streams.Cursors.{stream_state, stream_stands};

    ghost state = { stream_state };

    ghost stands = { stream_stands };

    fn place(&self) -> u64 {
        self.payload.read()
    }

    fn region_end(&self) -> u64 {
        self.end
    }

    fn order(&self) -> Order {
        self.order
    }

    fn set_order(&mut self, order: Order) {
        self.order = order;
    }

    fn align(&mut self, to: u32, most: u32) -> Result<(), CutFault> {
        let place = self.payload.read();
        let pad = padding(to.min(most), place - self.origin);
        if self.end - place < pad {
            return Err(CutFault::Short { at: self.end });
        }
        let mut octets = [0u8; 8];
        stopped(self.advance(&mut octets[..pad as usize]))
    }

    fn take(&mut self, into: &mut [u8]) -> Result<(), CutFault> {
        let place = self.payload.read();
        if self.end - place < into.len() as u64 {
            return Err(CutFault::Short { at: place });
        }
        stopped(self.advance(into))
    }

    fn pass(&mut self, count: u64) -> Result<(), CutFault> {
        let place = self.payload.read();
        if self.end - place < count {
            return Err(CutFault::Short { at: place });
        }
        stopped(self.advance_over(count))
    }

    fn enter(&mut self, length: u64) -> Result<Outer, CutFault> {
        let place = self.payload.read();
        if self.end - place < length {
            return Err(CutFault::Short { at: place });
        }
        let outer = Outer { end: self.end };
        self.end = place + length;
        Ok(outer)
    }

    fn leave(&mut self, outer: Outer) {
        self.end = outer.end;
    }

    fn restart(&mut self) -> u64 {
        let old = self.origin;
        self.origin = self.payload.read();
        old
    }

    fn resume(&mut self, origin: u64) {
        self.origin = origin;
    }
}
