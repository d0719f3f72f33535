//! Commands whose output their words and their input decide.
ghost use Rattle.std.specs.Prelude.{◌≡◌, IfSome, IsSome, codes};
ghost use Rattle.std.specs.Option.{option_map};
ghost use Rattle.std.specs.Io.KnownBytes.{IsAtEnd};
ghost use Rattle.xt_io.specs.Outside.{Rose};
ghost use Rattle.tool_runs.specs.output.Outputs.{last_piece};
ghost use Rattle.tool_words.specs.View.{command_view};
ghost use Rattle.tool_words.specs.Words as spec;
ghost use Rattle.xt_tool.specs.Leaving.{IsAnswer, LeavesInput};
ghost use Rattle.xt_tool.specs.Output.{TakesInput, style_asked, unread_output};
ghost use Rattle.xt_tool.specs.Statuses.{AnswersAlone, WritesUnread};

use crate::run::run;
use crate::status::without_net;
use std::alloc::Global;
use tool_runs::output::{Halt, Status, Style, status_of};
use tool_words::{Command, command_of};
use xt_io::{Sink, Source, write_whole};
use xt_lists::Word;

fn style_asked(command: &Option<Command<'_>>) -> Style
    ensures { result ≡ style_asked (option_map command_view command.now) }
{
    match command {
        Some(Command::Compile | Command::Write(..) | Command::Convert(..) | Command::Record(..)) =>
            Style::Records,
        Some(
            Command::Judge(_)
            | Command::Read(_)
            | Command::Show
            | Command::Wrap(_)
            | Command::Instances(..)
            | Command::Replay(_)
            | Command::Make(..)
            | Command::Compare(..),
        )
        | None => Style::Lines,
    }
}

/// The last line where the source failed: a line, or a Note.
pub(crate) fn read_fault(style: Style) -> &'static [u8]
    ensures { result.now ≡ last_piece style (codes "read-fault") }
{
    match style {
        Style::Lines => b"read-fault\n",
        Style::Records => b"\x05\x00\x00\x00\x0Aread-fault",
    }
}

// The same, with the status that the run's ending tells.
#[tactic(auto, using(crate::proofs::Tops::ends, crate::proofs::Tops::halts_in, crate::proofs::Tops::wants_in, crate::proofs::Tops::tells))]
fn answer_told<S: Source, K: Sink>(
    alloc: Global,
    words: &[Word],
    input: &mut S,
    output: &mut K,
) -> Status
    ensures output { AnswersAlone words.now (S.left input.old) result (S.faults input.old) (S.faults input.new) (K.taken output.old) (K.taken output.new) }
    ensures ended { result ≡ Status.Done → IfSome (spec.command_of words.now) TakesInput → IsAtEnd (S.left input.new) }
    ensures unread { WritesUnread (unread_output (spec.command_of words.now)) result (K.taken output.old) (K.taken output.new) }
    ensures left { IsSome (unread_output (spec.command_of words.now)) → (S.left input.new ≡ S.left input.old) × (S.faults input.new ≡ S.faults input.old) }
    ensures leaves { IsAnswer result → IfSome (spec.command_of words.now) (λ command. LeavesInput command (S.left input.old) (S.left input.new)) }
    ensures read { result ≡ Status.ReadFault → Rose (S.faults input.old) (S.faults input.new) }
    ensures write { result ≡ Status.WriteFault → Rose (K.faults output.old) (K.faults output.new) }
{
    let command = command_of(words);
    let style = style_asked(&command);
    match run(alloc, command, input, output) {
        Ok(ending) => status_of(ending),
        Err(Halt::ReadFault) => match write_whole(output, read_fault(style)) {
            Ok(()) => Status::ReadFault,
            Err(_) => Status::WriteFault,
        },
        Err(Halt::WriteFault) => Status::WriteFault,
        Err(Halt::OutOfMemory) => Status::OutOfMemory,
    }
}

/// Does what the words ask of nobody else, and answers the status.
#[tactic(auto, using(crate::proofs::Tops::alone, crate::proofs::Tops::alone_unread))]
pub(crate) fn answer_alone<S: Source, K: Sink>(
    alloc: Global,
    words: &[Word],
    input: &mut S,
    output: &mut K,
) -> Status
    ensures output { AnswersAlone words.now (S.left input.old) result (S.faults input.old) (S.faults input.new) (K.taken output.old) (K.taken output.new) }
    ensures ended { result ≡ Status.Done → IfSome (spec.command_of words.now) TakesInput → IsAtEnd (S.left input.new) }
    ensures unread { WritesUnread (unread_output (spec.command_of words.now)) result (K.taken output.old) (K.taken output.new) }
    ensures left { IsSome (unread_output (spec.command_of words.now)) → (S.left input.new ≡ S.left input.old) × (S.faults input.new ≡ S.faults input.old) }
    ensures leaves { IsAnswer result → IfSome (spec.command_of words.now) (λ command. LeavesInput command (S.left input.old) (S.left input.new)) }
    ensures read { result ≡ Status.ReadFault → Rose (S.faults input.old) (S.faults input.new) }
    ensures write { result ≡ Status.WriteFault → Rose (K.faults output.old) (K.faults output.new) }
    ensures net_fault { result ≡ Status.NetFault → ⊥ }
{
    without_net(answer_told(alloc, words, input, output))
}
