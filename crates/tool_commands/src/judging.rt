ghost use Rattle.std.specs.Prelude.{◌≡◌, ◌≤◌, Some, length};
ghost use Rattle.tool_runs.specs.output.Outputs.{unless_refused};
ghost use Rattle.tool_runs.specs.output.Runs.{Steps, StopsWriting, at_ending};
ghost use Rattle.tool_runs.specs.front.Reading.{AreWithin};
ghost use Rattle.tool_runs.specs.Commands.{answer_to};
ghost use Rattle.tool_words.specs.View.{pair_view};
ghost use Rattle.tool_commands.specs.Commands.{judge_lines};

use std::alloc::Global;
use tool_runs::output::{Ending, Stop, Style};
use tool_runs::{Answers, say_pieces};
use tool_verdicts::reader_type;
use tool_words::Pair;
use xt_io::{Item, Sink};

/// Whether the reader's type is assignable from the writer's: `yes`, or the first rule that fails and its path.
#[derive(Clone, Copy)]
pub struct Judging<'a> {
    pub pair: Pair<'a>,
}

impl<'a> Answers for Judging<'a> {
    ghost use Rattle.tool_runs.specs.declared.output.ending.Style.TheVariants as styles;

    ghost style = { styles.Lines };

    ghost answered = { λ s records. answer_to (judge_lines (pair_view s.pair)) records };

    fn writes() -> Style
        ensures { result ≡ Style.Lines }
    {
        Style::Lines
    }

    fn answer<K: Sink>(&self, alloc: Global, records: &[Item], sink: &mut K) -> Result<Ending, Stop>
        requires few { length records.now ≤ 1048576 }
        requires within { AreWithin records.now }
        ensures steps { Steps Style.Lines (Some (unless_refused Style.Lines (answer_to (judge_lines (pair_view self.now.pair)) records.now))) (at_ending result) result (K.taken sink.old) (K.taken sink.new) }
        ensures stops { StopsWriting (K.faults sink.old) (K.faults sink.new) result }
        ensures same { K.name sink.new ≡ K.name sink.old }
    {
        reader_type(alloc, &self.pair, records)?;
        say_pieces(sink, b"yes\n")?;
        Ok(Ending::Done)
    }
}
