//! The lines of what records come to.
ghost use Rattle.std.specs.Prelude.{◌≡◌, Some, IfOk};
ghost use Rattle.std.specs.List.{concat};
ghost use Rattle.type_trees.specs.View.{tree};
ghost use Rattle.projection_laws.specs.Premises.{IsValid};
ghost use Rattle.assignability.specs.Views.{verdict_view};
ghost use Rattle.xt_recorder.specs.Answers.{answer};
ghost use Rattle.tool_runs.specs.output.Outputs.{Output, after_pieces};
ghost use Rattle.tool_runs.specs.output.Runs.{Steps, StopsWriting};
ghost use Rattle.tool_commands.specs.recordings.Replaying as spec;

use assignability::Verdict;
use std::alloc::Global;
use tool_runs::output::{Halt, Stop, Style, line};
use tool_runs::say_pieces;
use tool_samples::lines::{malformed_text, no_text, outcome_text};
use type_trees::{HashId, XType};
use xt_io::Sink;
use xt_lists::{OutOfMemory, Text};
use xt_recorder::{Replayed, stream_text};
use xt_shapes::Rep;

fn verdict_text(alloc: Global, verdict: &Verdict) -> Result<Text, OutOfMemory>
    ensures { IfOk result (λ text. text ≡ spec.verdict_text (verdict_view verdict.now)) }
{
    match verdict {
        Verdict::Yes => Text::from_octets(alloc, b"yes"),
        Verdict::No { rule, path } => no_text(alloc, *rule, path),
    }
}

fn stream_line(alloc: Global, id: &HashId, rep: Rep, verdict: &Verdict) -> Result<Text, OutOfMemory>
    ensures { IfOk result (λ text. text ≡ spec.stream_line id.now rep (verdict_view verdict.now)) }
{
    let verdict = verdict_text(alloc, verdict)?;
    let mut text = stream_text(alloc, id, rep)?;
    text.push(b' ')?;
    text.append(verdict.octets())?;
    line(text)
}

// The lines of what a record came to, for a reader's type.
fn lines_of(alloc: Global, reader: &XType, replayed: &Replayed) -> Result<Text, OutOfMemory>
    requires { IsValid reader.now }
    ensures { IfOk result (λ text. text ≡ concat (spec.answer_lines (tree reader.now) (answer replayed.now))) }
{
    match replayed {
        Replayed::Nothing => Ok(Text::new(alloc)),
        Replayed::Stream { id, rep, verdict } => stream_line(alloc, id, *rep, verdict),
        Replayed::Read(outcome) => line(outcome_text(alloc, reader, outcome)?),
        Replayed::Malformed { at, why } => line(malformed_text(alloc, *at, *why)?),
    }
}

/// Writes the lines of what a record came to, for a reader's type.
pub fn say_replayed<K: Sink>(
    alloc: Global,
    reader: &XType,
    replayed: &Replayed,
    sink: &mut K,
) -> Result<(), Stop>
    requires { IsValid reader.now }
    ensures steps { (rest : Output) → Steps Style.Lines (Some (after_pieces (spec.answer_lines (tree reader.now) (answer replayed.now)) rest)) (Some rest) result (K.taken sink.old) (K.taken sink.new) }
    ensures stops { StopsWriting (K.faults sink.old) (K.faults sink.new) result }
    ensures same { K.name sink.new ≡ K.name sink.old }
{
    match lines_of(alloc, reader, replayed) {
        Ok(text) => say_pieces(sink, text.octets()),
        Err(_) => Err(Stop::Halted(Halt::OutOfMemory)),
    }
}
