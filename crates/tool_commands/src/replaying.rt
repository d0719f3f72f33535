ghost use Rattle.std.specs.Prelude.{◌≡◌, ◌≤◌, length};
ghost use Rattle.tool_runs.specs.output.Runs.{Comes};
ghost use Rattle.tool_runs.specs.front.Reading.{AreWithin};
ghost use Rattle.tool_words.specs.View.{reference_view};
ghost use Rattle.tool_commands.specs.Commands.{replay_lines};

use crate::recordings::Replays;
use std::alloc::Global;
use tool_runs::Quiet;
use tool_runs::output::{Stop, Style, Turns};
use tool_verdicts::top_and_pool;
use tool_words::Reference;
use xt_io::Item;

/// Recordings, as the reader's type sees them.
#[derive(Clone, Copy)]
pub struct Replaying<'a> {
    pub reference: Reference<'a>,
}

impl<'a> Quiet for Replaying<'a> {
    ghost use Rattle.tool_runs.proofs.OfOutput.Turning.{run_at_end};

    type Run = Replays;

    ghost prepared = { λ s records. replay_lines (reference_view s.reference) records };

    fn style() -> Style
        ensures { result ≡ Style.Lines }
    {
        Style::Lines
    }

    fn prepare(&self, alloc: Global, records: &[Item]) -> Result<Replays, Stop>
        requires few { length records.now ≤ 1048576 }
        requires within { AreWithin records.now }
        ensures { Comes (replay_lines (reference_view self.now.reference) records.now) (λ run number body. ⟦<Replays as Turns>⟧.to_write run number body) result }
    {
        let (reader, pool) = top_and_pool(alloc, &self.reference, records)?;
        Ok(Replays::new(alloc, reader, pool))
    }

    ghost at_end = { λ run number. run_at_end _ _ _ _ number };
}
