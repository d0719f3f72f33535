//! Counts of calls and of faults. Each stands still at the end of its type.
ghost use Rattle.std.specs.Prelude.{◌≡◌, ◌≤◌, OnOk, is_err};
ghost use Rattle.xt_outside.specs.Outside.{HasCause, Rose, raised_from, RisesWhere, is_listed};

use crate::octets::Failed;

/// The count raised by one.
pub(crate) fn raised(count: u64) -> u64
    ensures { result ≡ raised_from count }
{
    count.saturating_add(1)
}

/// The count, raised where something failed.
pub(crate) fn raised_where(count: u64, failed: bool) -> u64
    ensures { RisesWhere failed count result }
{
    if failed { raised(count) } else { count }
}

/// The calls of something in memory, and its faults.
#[derive(Debug, Drop)]
pub(crate) struct Tally {
    pub(crate) calls: u64,
    pub(crate) faults: u64,
}

impl Tally {
    pub(crate) fn new() -> Tally
        ensures { result ≡ record { calls = 0; faults = 0 } }
    {
        Tally {
            calls: 0,
            faults: 0,
        }
    }

    /// Counts a call. It fails where its number is listed; the first call has the number 1.
    pub(crate) fn call(&mut self, fails: &[u64]) -> Result<(), Failed>
        ensures calls { self.new.calls ≡ raised_from self.old.calls }
        ensures listed { is_err result ≡ is_listed fails.now self.new.calls }
        ensures good { OnOk result (self.new.faults ≡ self.old.faults) }
        ensures cause { HasCause self.old.faults self.new.faults result }
    {
        self.calls = raised(self.calls);
        if fails.contains(&self.calls) {
            return Err(self.fail());
        }
        Ok(())
    }

    /// Counts a fault.
    pub(crate) fn fail(&mut self) -> Failed
        ensures calls { self.new.calls ≡ self.old.calls }
        ensures later { self.old.faults ≤ self.new.faults }
        ensures rose { Rose self.old.faults self.new.faults }
    {
        self.faults = raised(self.faults);
        Failed
    }
}
