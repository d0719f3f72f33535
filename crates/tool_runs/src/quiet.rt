ghost use Rattle.std.specs.Prelude.{◌≡◌, ◌≤◌, [], length};

use crate::commands::Prepares;
use crate::output::{Stop, Style, Turns};
use std::alloc::Global;
use xt_io::{Item, Sink};

/// What the records of a front come to before a body, where nothing is written but at its turns.
pub trait Quiet {
    ghost use Rattle.std.specs.Prelude.{◌≡◌, ◌≤◌, ℕ, List, Result, length};
    ghost use Rattle.xt_io.specs.declared.Item.{Item};
    ghost use Rattle.xt_io.specs.Bundles.{Bundle, nothing};
    ghost use Rattle.tool_runs.specs.output.Outputs.{Output, Refusal, finished};
    ghost use Rattle.tool_runs.specs.output.Runs.{Comes};
    ghost use Rattle.tool_runs.specs.front.Reading.{AreWithin};

    /// The turns.
    type Run: Turns + Drop;

    /// What is written of a body behind these records, or why the command is refused.
    ghost prepared: { Self → List Item → Result (ℕ → Bundle → Output) Refusal };

    /// Whether the turns write lines or records.
    fn style() -> Style
        ensures { result ≡ Self.Run.style };

    /// The turns for the body behind these records. It reads and writes nothing.
    fn prepare(&self, alloc: Global, records: &[Item]) -> Result<Self::Run, Stop>
        requires few { length records.now ≤ 1048576 }
        requires within { AreWithin records.now }
        ensures { Comes (prepared self.now records.now) (λ run number body. Self.Run.to_write run number body) result };

    /// Nothing is left to be written at the end of the input.
    ghost at_end: { (run : Self.Run) (number : ℕ) → Self.Run.to_write run number nothing ≡ finished };
}

impl<Q: Quiet> Prepares for Q {
    type Run = Q::Run;

    ghost opening = { λ run. [] };

    ghost prepared = { λ s records. Q.prepared s records };

    fn style() -> Style {
        <Q as Quiet>::style()
    }

    fn prepare(&self, alloc: Global, records: &[Item]) -> Result<Q::Run, Stop> {
        <Q as Quiet>::prepare(self, alloc, records)
    }

    fn begin<K: Sink>(_run: &Q::Run, _alloc: Global, _sink: &mut K) -> Result<(), Stop> {
        Ok(())
    }

    fn end<K: Sink>(_run: &Q::Run, _alloc: Global, _sink: &mut K) -> Result<(), Stop> {
        Ok(())
    }
}
