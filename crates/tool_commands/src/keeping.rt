ghost use Rattle.std.specs.Prelude.{◌≡◌, ◌≤◌, ℕ, [], Some, length};
ghost use Rattle.xt_io.specs.Bundles.{nothing};
ghost use Rattle.tool_runs.specs.output.Outputs.{Output, after_pieces, finished};
ghost use Rattle.tool_runs.specs.output.Runs.{Comes, Steps, StopsWriting};
ghost use Rattle.tool_runs.specs.front.Reading.{AreWithin};
ghost use Rattle.tool_words.specs.View.{pair_view};
ghost use Rattle.tool_commands.specs.Commands.{instances_lines};

use std::alloc::Global;
use tool_runs::Prepares;
use tool_runs::output::{Halt, Stop, Style, Turns};
use tool_samples::instances::LastSamples;
use tool_verdicts::reader_type;
use tool_words::{Depth, Pair};
use xt_io::{Item, Sink};

/// At the end of the input the last values of each key, as the reader's type sees the samples.
#[derive(Clone, Copy)]
pub struct Keeping<'a> {
    pub pair: Pair<'a>,
    pub depth: Depth,
}

impl<'a> Prepares for Keeping<'a> {
    type Run = LastSamples;

    ghost opening = { λ run. [] };

    ghost prepared = { λ s records. instances_lines (pair_view s.pair) s.depth.count records };

    fn style() -> Style
        ensures { result ≡ Style.Lines }
    {
        Style::Lines
    }

    fn prepare(&self, alloc: Global, records: &[Item]) -> Result<LastSamples, Stop>
        requires few { length records.now ≤ 1048576 }
        requires within { AreWithin records.now }
        ensures { Comes (instances_lines (pair_view self.now.pair) self.now.depth.count records.now) (λ run number body. ⟦<LastSamples as Turns>⟧.to_write run number body) result }
    {
        let ty = reader_type(alloc, &self.pair, records)?;
        match LastSamples::new(alloc, self.pair.rep, ty, self.depth.count) {
            Ok(run) => Ok(run),
            Err(_) => Err(Stop::Halted(Halt::OutOfMemory)),
        }
    }

    #[tactic(auto, using(crate::proofs::Quiet::before))]
    fn begin<K: Sink>(_run: &LastSamples, _alloc: Global, _sink: &mut K) -> Result<(), Stop>
        ensures steps { (rest : Output) → Steps Style.Lines (Some (after_pieces [] rest)) (Some rest) result (K.taken _sink.old) (K.taken _sink.new) }
        ensures stops { StopsWriting (K.faults _sink.old) (K.faults _sink.new) result }
        ensures same { K.name _sink.new ≡ K.name _sink.old }
    {
        Ok(())
    }

    fn end<K: Sink>(run: &LastSamples, alloc: Global, sink: &mut K) -> Result<(), Stop>
        ensures steps { (number : ℕ) → Steps Style.Lines (Some (⟦<LastSamples as Turns>⟧.to_write run.now number nothing)) (Some finished) result (K.taken sink.old) (K.taken sink.new) }
        ensures stops { StopsWriting (K.faults sink.old) (K.faults sink.new) result }
        ensures same { K.name sink.new ≡ K.name sink.old }
    {
        run.finish(alloc, sink)
    }
}
