//! Sources and sinks in memory.
ghost use Rattle.std.specs.Prelude.{◌≡◌, Some, None, [], min, length, take, drop};

use crate::counts::Tally;
use crate::octets::{Failed, Sink, Source};
use std::alloc::Global;
use xt_lists::Text;

/// Copies the first octets to the front of the slice: as many as there are and as fit, and at most so many.
pub(crate) fn copy_front(from: &[u8], most: usize, into: &mut [u8]) -> usize
    ensures count { result ≡ min (min (length from.now) (length into.new)) most }
    ensures front { take result into.new ≡ take result from.now }
    ensures rest { drop result into.new ≡ drop result into.old }
{
    let count = from.len().min(into.len()).min(most);
    into[..count].copy_from_slice(&from[..count]);
    count
}

/// A source of these octets, which never fails.
#[derive(Debug, Drop)]
pub struct SureSource<'a> {
    left: &'a [u8],
}

impl<'a> SureSource<'a> {
    ghost use Rattle.xt_outside.specs.Memory.{sure_left};

    /// It takes no memory.
    pub fn new(octets: &'a [u8]) -> SureSource<'a>
        ensures { sure_left result ≡ octets.now }
    {
        SureSource { left: octets }
    }
}

impl<'a> Source for SureSource<'a> {
    ghost left = { λ s. Some s.left.now };

    ghost faults = { λ _. 0 };

    fn read(&mut self, into: &mut [u8]) -> Result<usize, Failed> {
        let left = self.left;
        let count = copy_front(left, usize::MAX, into);
        self.left = &left[count..];
        Ok(count)
    }

    fn at_hand(&self) -> usize {
        self.left.len()
    }
}

/// A source of octets in memory that gives at most so many in a call, and one at least, and fails at the calls that are
/// listed. The first call has the number 1.
#[derive(Debug, Drop)]
pub struct MemSource<'a> {
    left: &'a [u8],
    most: usize,
    fails: &'a [u64],
    tally: Tally,
}

impl<'a> MemSource<'a> {
    ghost use Rattle.xt_outside.specs.Memory.{source_left, source_most, source_fails, source_faults};

    /// It takes no memory.
    pub fn new(octets: &'a [u8], most: usize, fails: &'a [u64]) -> MemSource<'a>
        ensures left { source_left result ≡ octets.now }
        ensures most { source_most result ≡ most }
        ensures fails { source_fails result ≡ fails.now }
        ensures faults { source_faults result ≡ 0 }
    {
        MemSource {
            left: octets,
            most,
            fails,
            tally: Tally::new(),
        }
    }

    /// How often it has failed.
    pub fn faults(&self) -> u64
        ensures { result ≡ source_faults self.now }
    {
        self.tally.faults
    }
}

impl<'a> Source for MemSource<'a> {
    ghost left = { λ s. Some s.left.now };

    ghost faults = { λ s. s.tally.faults };

    fn read(&mut self, into: &mut [u8]) -> Result<usize, Failed> {
        self.tally.call(self.fails)?;
        let left = self.left;
        let count = copy_front(left, self.most.max(1), into);
        self.left = &left[count..];
        Ok(count)
    }

    // What one call gives.
    fn at_hand(&self) -> usize {
        self.left.len().min(self.most.max(1))
    }
}

/// A sink that never fails. It does not keep what it takes.
#[derive(Clone, Copy, Debug, Default, PartialEq, Eq)]
pub struct SureSink;

impl Sink for SureSink {
    ghost taken = { λ _. None };

    ghost faults = { λ _. 0 };

    fn write(&mut self, from: &[u8]) -> Result<usize, Failed> {
        Ok(from.len())
    }
}

/// A sink in memory that takes at most so many octets in a call, and one at least, and fails at the calls that are
/// listed, and where memory is wanting. The first call has the number 1.
#[derive(Debug, Drop)]
pub struct MemSink<'a> {
    text: Text,
    most: usize,
    fails: &'a [u64],
    tally: Tally,
}

impl<'a> MemSink<'a> {
    ghost use Rattle.xt_outside.specs.Memory.{sink_text, sink_most, sink_fails, sink_faults};

    /// It takes no memory.
    pub fn new(alloc: Global, most: usize, fails: &'a [u64]) -> MemSink<'a>
        ensures text { sink_text result ≡ [] }
        ensures most { sink_most result ≡ most }
        ensures fails { sink_fails result ≡ fails.now }
        ensures faults { sink_faults result ≡ 0 }
    {
        MemSink {
            text: Text::new(alloc),
            most,
            fails,
            tally: Tally::new(),
        }
    }

    /// The octets that it took.
    pub fn octets(&self) -> &[u8]
        ensures { result.now ≡ sink_text self.now }
    {
        self.text.octets()
    }

    /// How often it has failed.
    pub fn faults(&self) -> u64
        ensures { result ≡ sink_faults self.now }
    {
        self.tally.faults
    }
}

impl<'a> Sink for MemSink<'a> {
    ghost taken = { λ s. Some s.text };

    ghost faults = { λ s. s.tally.faults };

    fn write(&mut self, from: &[u8]) -> Result<usize, Failed> {
        self.tally.call(self.fails)?;
        let count = from.len().min(self.most.max(1));
        match self.text.append(&from[..count]) {
            Ok(()) => Ok(count),
            Err(_) => Err(self.tally.fail()),
        }
    }
}
