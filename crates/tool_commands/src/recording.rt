ghost use Rattle.std.specs.Prelude.{◌≡◌, ◌≤◌, ℕ, Some, length};
ghost use Rattle.xt_io.specs.Bundles.{nothing};
ghost use Rattle.tool_runs.specs.output.Outputs.{Output, after_pieces, finished};
ghost use Rattle.tool_runs.specs.output.Runs.{Comes, Steps, StopsWriting};
ghost use Rattle.tool_runs.specs.front.Reading.{AreWithin};
ghost use Rattle.tool_commands.specs.recordings.Recording.{opening_pieces};
ghost use Rattle.tool_words.specs.View.{reference_view};
ghost use Rattle.tool_commands.specs.Commands.{record_records};

use crate::recordings::Recorded;
use std::alloc::Global;
use tool_runs::Prepares;
use tool_runs::output::{Stop, Style, Turns};
use tool_verdicts::id_and_pool;
use tool_words::Reference;
use xt_io::{Item, Sink};
use xt_shapes::Rep;

/// The writer's samples as they are, behind the objects of their type and the Note of their stream.
#[derive(Clone, Copy)]
pub struct Recording<'a> {
    pub reference: Reference<'a>,
    pub rep: Rep,
}

impl<'a> Prepares for Recording<'a> {
    ghost use Rattle.tool_commands.specs.recordings.Recording.{opening_pieces};

    type Run = Recorded;

    ghost opening = { λ run. opening_pieces run.pool run.id run.rep };

    ghost prepared = { λ s records. record_records (reference_view s.reference) s.rep records };

    fn style() -> Style
        ensures { result ≡ Style.Records }
    {
        Style::Records
    }

    fn prepare(&self, alloc: Global, records: &[Item]) -> Result<Recorded, Stop>
        requires few { length records.now ≤ 1048576 }
        requires within { AreWithin records.now }
        ensures { Comes (record_records (reference_view self.now.reference) self.now.rep records.now) (λ run number body. after_pieces (opening_pieces run.pool run.id run.rep) (⟦<Recorded as Turns>⟧.to_write run number body)) result }
    {
        let (id, pool) = id_and_pool(alloc, &self.reference, records)?;
        Ok(Recorded::new(pool, id, self.rep))
    }

    fn begin<K: Sink>(run: &Recorded, alloc: Global, sink: &mut K) -> Result<(), Stop>
        ensures steps { (rest : Output) → Steps Style.Records (Some (after_pieces (opening_pieces run.now.pool run.now.id run.now.rep) rest)) (Some rest) result (K.taken sink.old) (K.taken sink.new) }
        ensures stops { StopsWriting (K.faults sink.old) (K.faults sink.new) result }
        ensures same { K.name sink.new ≡ K.name sink.old }
    {
        run.begin(alloc, sink)
    }

    #[tactic(auto, using(crate::proofs::Quiet::behind))]
    fn end<K: Sink>(_run: &Recorded, _alloc: Global, _sink: &mut K) -> Result<(), Stop>
        ensures steps { (number : ℕ) → Steps Style.Records (Some (⟦<Recorded as Turns>⟧.to_write _run.now number nothing)) (Some finished) result (K.taken _sink.old) (K.taken _sink.new) }
        ensures stops { StopsWriting (K.faults _sink.old) (K.faults _sink.new) result }
        ensures same { K.name _sink.new ≡ K.name _sink.old }
    {
        Ok(())
    }
}
