ghost use Rattle.std.specs.Prelude.{◌≡◌, ◌≤◌, length};
ghost use Rattle.tool_runs.specs.output.Runs.{Comes};
ghost use Rattle.tool_runs.specs.front.Reading.{AreWithin};
ghost use Rattle.tool_words.specs.View.{pair_view};
ghost use Rattle.tool_commands.specs.Commands.{convert_records, read_lines};

use std::alloc::Global;
use tool_runs::Quiet;
use tool_runs::output::{Stop, Style, Turns};
use tool_samples::{Conversions, Lines, Samples};
use tool_verdicts::reader_type;
use tool_words::Pair;
use xt_io::Item;
use xt_shapes::Rep;

/// A line for each sample, as the reader's type sees it.
#[derive(Clone, Copy)]
pub struct Reading<'a> {
    pub pair: Pair<'a>,
}

impl<'a> Quiet for Reading<'a> {
    ghost use Rattle.tool_runs.proofs.OfOutput.Turning.{run_at_end};

    type Run = Samples<Lines>;

    ghost prepared = { λ s records. read_lines (pair_view s.pair) records };

    fn style() -> Style
        ensures { result ≡ Style.Lines }
    {
        Style::Lines
    }

    fn prepare(&self, alloc: Global, records: &[Item]) -> Result<Samples<Lines>, Stop>
        requires few { length records.now ≤ 1048576 }
        requires within { AreWithin records.now }
        ensures { Comes (read_lines (pair_view self.now.pair) records.now) (λ run number body. ⟦<Samples<Lines> as Turns>⟧.to_write run number body) result }
    {
        let ty = reader_type(alloc, &self.pair, records)?;
        Ok(Samples::prepared(alloc, self.pair.rep, ty, Lines))
    }

    ghost at_end = { λ run number. run_at_end _ _ _ _ number };
}

/// A sample of the reader's type for each sample, in that or another representation.
#[derive(Clone, Copy)]
pub struct Converting<'a> {
    pub pair: Pair<'a>,
    pub to: Rep,
}

impl<'a> Quiet for Converting<'a> {
    ghost use Rattle.tool_runs.proofs.OfOutput.Turning.{run_at_end};

    type Run = Samples<Conversions>;

    ghost prepared = { λ s records. convert_records (pair_view s.pair) s.to records };

    fn style() -> Style
        ensures { result ≡ Style.Records }
    {
        Style::Records
    }

    fn prepare(&self, alloc: Global, records: &[Item]) -> Result<Samples<Conversions>, Stop>
        requires few { length records.now ≤ 1048576 }
        requires within { AreWithin records.now }
        ensures { Comes (convert_records (pair_view self.now.pair) self.now.to records.now) (λ run number body. ⟦<Samples<Conversions> as Turns>⟧.to_write run number body) result }
    {
        let ty = reader_type(alloc, &self.pair, records)?;
        let form = Conversions { to: self.to };
        Ok(Samples::prepared(alloc, self.pair.rep, ty, form))
    }

    ghost at_end = { λ run number. run_at_end _ _ _ _ number };
}
