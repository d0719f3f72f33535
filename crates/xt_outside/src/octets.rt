//! Sources and sinks of octets.
ghost use Rattle.std.specs.Prelude.{◌≡◌, ◌≤◌, ◌<◌, ℕ, List, [], Option, None, length, IfOk, OnOk, OnErr};
ghost use Rattle.std.specs.Io.{ReadsAtMost, WritesAtMost};
ghost use Rattle.std.specs.Io.KnownBytes.{ReadConsumes, WriteAppends};
ghost use Rattle.xt_outside.specs.Bundles.{Bundle};
ghost use Rattle.xt_outside.specs.Outside.{HasCause, KeepsRest, KeepsTold, AppendsAll, AppendsPrefix};

use thiserror::Error;

/// The answer of a failed call of a source, a sink or a link.
#[derive(Clone, Copy, Debug, PartialEq, Eq, Error)]
#[error("the device failed")]
pub struct Failed;

/// Where octets come from.
pub trait Source {
    /// The octets still to come, where they are told.
    ghost left: { Self → Option (List ℕ) };

    /// How often it has failed.
    ghost faults: { Self → ℕ };

    /// Which source it stands for: a borrowed one goes by its borrow and the name of what was lent.
    ghost name: { Self → List ℕ } = { λ _. [] };

    /// What stands behind its end, where that is told: a payload has the records behind it.
    ghost behind: { Self → Option Bundle } = { λ _. None };

    /// Reads some of the octets to the front of the slice, and answers how many. None into a slice that isn't empty is
    /// the end of the input. A failed read takes none.
    fn read(&mut self, into: &mut [u8]) -> Result<usize, Failed>
        ensures bound { ReadsAtMost result into.new }
        ensures octets { ReadConsumes (left self.old) (left self.new) result into.new }
        ensures rest { KeepsRest result into.old into.new }
        ensures behind { IfOk result (λ _. KeepsTold (behind self.old) (behind self.new)) }
        ensures same { name self.new ≡ name self.old }
        ensures cause { HasCause (faults self.old) (faults self.new) result };

    /// How many octets the next reads give without waiting for a device, so far as the source knows. It speaks of time alone, so no clause
    /// rests on it.
    fn at_hand(&self) -> usize {
        0
    }
}

/// Where octets go.
pub trait Sink {
    /// The octets taken so far, where they are told.
    ghost taken: { Self → Option (List ℕ) };

    /// How often it has failed.
    ghost faults: { Self → ℕ };

    /// Which sink it stands for: a borrowed one goes by its borrow and the name of what was lent.
    ghost name: { Self → List ℕ } = { λ _. [] };

    /// Takes some of the first octets, and answers how many: at least one, where there is one. A failed write takes none.
    fn write(&mut self, from: &[u8]) -> Result<usize, Failed>
        ensures bound { WritesAtMost result from.now }
        ensures some { IfOk result (λ n. 0 < length from.now → 0 < n) }
        ensures octets { WriteAppends (taken self.old) (taken self.new) result from.now }
        ensures same { name self.new ≡ name self.old }
        ensures cause { HasCause (faults self.old) (faults self.new) result };
}

/// Writes all of the octets, or some of the first ones and fails. It takes no memory.
pub fn write_whole<K: Sink>(sink: &mut K, from: &[u8]) -> Result<(), Failed>
    ensures whole { OnOk result (AppendsAll (K.taken sink.old) (K.taken sink.new) from.now) }
    ensures prefix { OnErr result (AppendsPrefix (K.taken sink.old) (K.taken sink.new) from.now) }
    ensures same { K.name sink.new ≡ K.name sink.old }
    ensures cause { HasCause (K.faults sink.old) (K.faults sink.new) result }
{
    let mut rest = from;
    while !rest.is_empty() {
        let count = sink.write(rest)?;
        rest = &rest[count..];
    }
    Ok(())
}
