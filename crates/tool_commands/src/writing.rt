ghost use Rattle.std.specs.Prelude.{◌≡◌, ◌≤◌, length};
ghost use Rattle.tool_runs.specs.output.Runs.{Comes};
ghost use Rattle.tool_runs.specs.front.Reading.{AreWithin};
ghost use Rattle.tool_words.specs.View.{reference_view};
ghost use Rattle.tool_commands.specs.Commands.{write_records};

use std::alloc::Global;
use tool_runs::Quiet;
use tool_runs::output::{Stop, Style, Turns};
use tool_samples::values::Values;
use tool_verdicts::top_type;
use tool_words::Reference;
use xt_io::Item;
use xt_shapes::Rep;

/// A sample for each value in JSON, in a representation.
#[derive(Clone, Copy)]
pub struct Writing<'a> {
    pub reference: Reference<'a>,
    pub rep: Rep,
}

impl<'a> Quiet for Writing<'a> {
    ghost use Rattle.tool_runs.proofs.OfOutput.Turning.{run_at_end};

    type Run = Values;

    ghost prepared = { λ s records. write_records (reference_view s.reference) s.rep records };

    fn style() -> Style
        ensures { result ≡ Style.Records }
    {
        Style::Records
    }

    fn prepare(&self, alloc: Global, records: &[Item]) -> Result<Values, Stop>
        requires few { length records.now ≤ 1048576 }
        requires within { AreWithin records.now }
        ensures { Comes (write_records (reference_view self.now.reference) self.now.rep records.now) (λ run number body. ⟦<Values as Turns>⟧.to_write run number body) result }
    {
        let ty = top_type(alloc, &self.reference, records)?;
        Ok(Values::new(alloc, ty, self.rep))
    }

    ghost at_end = { λ run number. run_at_end _ _ _ _ number };
}
