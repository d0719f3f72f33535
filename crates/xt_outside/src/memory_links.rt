//! Links in memory.
ghost use Rattle.std.specs.Prelude.{◌≡◌, ◌≤◌, ◌<◌, ◌+◌, ◌⊎◌, length, take, drop, Some, None, []};
ghost use Rattle.xt_outside.specs.MemoryLinks.{IsFreshLink};

use crate::counts::Tally;
use crate::links::Link;
use crate::memory::copy_front;
use crate::octets::Failed;
use std::alloc::Global;
use xt_lists::{Row, Text};

// Copies octets from this place on to the front of the slice, as many as there are and as fit, and at most so many.
fn copy_from(octets: &[u8], at: usize, most: usize, into: &mut [u8]) -> usize
    requires { 0 < most }
    ensures within { result ≤ length into.new }
    ensures octets { take result into.new ≡ take result (drop at octets.now) }
    ensures fits { at + result ≤ length octets.now ⊎ result ≡ 0 }
    ensures all { result ≡ 0 → 0 < length into.new → drop at octets.now ≡ [] }
    ensures rest { drop result into.new ≡ drop result into.old }
{
    if at >= octets.len() {
        return 0;
    }
    copy_front(&octets[at..], most, into)
}

/// A link that gives these octets and never fails. It does not tell what it took.
#[derive(Debug, Drop)]
pub struct SureLink<'a> {
    octets: &'a [u8],
    at: usize,
}

impl<'a> SureLink<'a> {
    ghost use Rattle.xt_outside.specs.MemoryLinks.{sure_octets, sure_at};

    /// It takes no memory.
    pub fn new(octets: &'a [u8]) -> SureLink<'a>
        ensures octets { sure_octets result ≡ octets.now }
        ensures at { sure_at result ≡ 0 }
    {
        SureLink { octets, at: 0 }
    }
}

impl<'a> Link for SureLink<'a> {
    ghost left = { λ l. Some (drop l.at l.octets.now) };

    ghost got = { λ l. Some (take l.at l.octets.now) };

    ghost taken = { λ _. None };

    ghost faults = { λ _. 0 };

    fn read(&mut self, into: &mut [u8]) -> Result<usize, Failed> {
        let octets = self.octets;
        let count = copy_from(octets, self.at, usize::MAX, into);
        self.at += count;
        Ok(count)
    }

    fn write(&mut self, from: &[u8]) -> Result<usize, Failed> {
        Ok(from.len())
    }
}

/// What a link in memory is made of: the octets that it gives, the greatest number of octets in a call, and the
/// numbers of the calls that are to fail, reads and writes together. The first call has the number 1.
#[derive(Debug, Drop)]
pub struct Script {
    pub input: Text,
    pub most: usize,
    pub fails: Row<u64>,
}

/// A link in memory that gives and takes at most so many octets in a call, and one at least, and fails at the calls that
/// are listed, and where memory is wanting.
#[derive(Debug, Drop)]
pub struct MemLink {
    script: Script,
    at: usize,
    text: Text,
    tally: Tally,
}

impl MemLink {
    ghost use Rattle.xt_outside.specs.MemoryLinks.{link_script, link_text, link_faults};

    /// It takes no memory.
    pub fn new(alloc: Global, script: Script) -> MemLink
        ensures script { link_script result ≡ script }
        ensures fresh { IsFreshLink result }
    {
        MemLink {
            script,
            at: 0,
            text: Text::new(alloc),
            tally: Tally::new(),
        }
    }

    /// The octets that it took so far.
    pub fn octets(&self) -> &[u8]
        ensures { result.now ≡ link_text self.now }
    {
        self.text.octets()
    }

    /// How often it has failed.
    pub fn faults(&self) -> u64
        ensures { result ≡ link_faults self.now }
    {
        self.tally.faults
    }
}

impl Link for MemLink {
    ghost left = { λ l. Some (drop l.at l.script.input) };

    ghost got = { λ l. Some (take l.at l.script.input) };

    ghost taken = { λ l. Some l.text };

    ghost faults = { λ l. l.tally.faults };

    fn read(&mut self, into: &mut [u8]) -> Result<usize, Failed> {
        self.tally.call(self.script.fails.as_slice())?;
        let most = self.script.most.max(1);
        let count = copy_from(self.script.input.octets(), self.at, most, into);
        self.at += count;
        Ok(count)
    }

    fn write(&mut self, from: &[u8]) -> Result<usize, Failed> {
        self.tally.call(self.script.fails.as_slice())?;
        let count = from.len().min(self.script.most.max(1));
        match self.text.append(&from[..count]) {
            Ok(()) => Ok(count),
            Err(_) => Err(self.tally.fail()),
        }
    }
}
