ghost use Rattle.std.specs.Prelude.{◌≡◌, IfSome, IsSome, Ok, OnOk};
ghost use Rattle.std.specs.Option.{option_map};
ghost use Rattle.std.specs.Io.KnownBytes.{IsAtEnd};
ghost use Rattle.tool_runs.specs.output.Runs.{Ends, Halts, HaltsWriting, Writes};
ghost use Rattle.tool_words.specs.View.{command_view};
ghost use Rattle.xt_tool.specs.Leaving.{LeavesInput};
ghost use Rattle.xt_tool.specs.Output.{asked, bad_words, of_command, unread_command, unread_output, TakesInput};
ghost use Rattle.xt_tool.specs.Statuses.{EndsUnread};

use std::alloc::Global;
use tool_commands::listing::{Compiling, Showing};
use tool_commands::{
    Comparing, Converting, Judging, Keeping, Reading, Recording, Replaying, Writing, make, wrap,
};
use tool_runs::output::{Cause, Ending, Halt, Refused, Style, last};
use tool_runs::{answer_command, body_command};
use tool_verdicts::Terms;
use tool_words::Command;
use xt_io::{Sink, Source};
use xt_lists::Text;

// The last line of words that are no command.
#[tactic(auto, using(crate::proofs::Tops::wanted))]
fn refuse_words<K: Sink>(alloc: Global, output: &mut K) -> Result<Ending, Halt>
    ensures ends { Ends bad_words result (K.taken output.old) (K.taken output.new) }
    ensures not_done { result ≡ Ok Ending.Done → ⊥ }
    ensures halts { HaltsWriting (K.faults output.old) (K.faults output.new) result }
    ensures same { K.name output.new ≡ K.name output.old }
{
    let Ok(text) = Text::from_octets(alloc, b"words") else {
        return Err(Halt::OutOfMemory);
    };
    let cause = Cause::Words;
    last(alloc, Style::Lines, Refused { text, cause }, output)
}

fn run_command<S: Source, K: Sink>(
    alloc: Global,
    command: Command<'_>,
    input: &mut S,
    output: &mut K,
) -> Result<Ending, Halt>
    ensures output { Writes (option_map (of_command (command_view command.entry)) (S.left input.old)) result (K.taken output.old) (K.taken output.new) }
    ensures ended { result ≡ Ok Ending.Done → TakesInput (command_view command.entry) → IsAtEnd (S.left input.new) }
    ensures unread { EndsUnread (unread_command (command_view command.entry)) result (K.taken output.old) (K.taken output.new) }
    ensures left { IsSome (unread_command (command_view command.entry)) → (S.left input.new ≡ S.left input.old) × (S.faults input.new ≡ S.faults input.old) }
    ensures leaves { OnOk result (LeavesInput (command_view command.entry) (S.left input.old) (S.left input.new)) }
    ensures halts { Halts (S.faults input.old) (S.faults input.new) (K.faults output.old) (K.faults output.new) result }
    ensures same { K.name output.new ≡ K.name output.old }
{
    match command {
        Command::Judge(pair) => answer_command(alloc, &Judging { pair }, input, output),
        Command::Read(pair) => body_command(alloc, &Reading { pair }, input, output),
        Command::Convert(pair, to) => body_command(alloc, &Converting { pair, to }, input, output),
        Command::Write(reference, rep) => {
            body_command(alloc, &Writing { reference, rep }, input, output)
        }
        Command::Compile => answer_command(alloc, &Compiling, input, output),
        Command::Show => answer_command(alloc, &Showing, input, output),
        Command::Wrap(kind) => wrap(alloc, kind, input, output),
        Command::Instances(pair, depth) => {
            body_command(alloc, &Keeping { pair, depth }, input, output)
        }
        Command::Record(reference, rep) => {
            body_command(alloc, &Recording { reference, rep }, input, output)
        }
        Command::Replay(reference) => {
            body_command(alloc, &Replaying { reference }, input, output)
        }
        Command::Make(seed, count) => make(alloc, seed, count, output),
        Command::Compare(rep, policy) => {
            let terms = Terms { rep, policy };
            answer_command(alloc, &Comparing { terms }, input, output)
        }
    }
}

/// Does what a command asks, up to a halt, of which nothing is written yet.
pub fn run<S: Source, K: Sink>(
    alloc: Global,
    command: Option<Command<'_>>,
    input: &mut S,
    output: &mut K,
) -> Result<Ending, Halt>
    ensures output { Writes (option_map (asked (option_map command_view command.entry)) (S.left input.old)) result (K.taken output.old) (K.taken output.new) }
    ensures ended { result ≡ Ok Ending.Done → IfSome (option_map command_view command.entry) TakesInput → IsAtEnd (S.left input.new) }
    ensures unread { EndsUnread (unread_output (option_map command_view command.entry)) result (K.taken output.old) (K.taken output.new) }
    ensures left { IsSome (unread_output (option_map command_view command.entry)) → (S.left input.new ≡ S.left input.old) × (S.faults input.new ≡ S.faults input.old) }
    ensures leaves { OnOk result (IfSome (option_map command_view command.entry) (λ command. LeavesInput command (S.left input.old) (S.left input.new))) }
    ensures halts { Halts (S.faults input.old) (S.faults input.new) (K.faults output.old) (K.faults output.new) result }
    ensures same { K.name output.new ≡ K.name output.old }
{
    match command {
        Some(command) => run_command(alloc, command, input, output),
        None => refuse_words(alloc, output),
    }
}
