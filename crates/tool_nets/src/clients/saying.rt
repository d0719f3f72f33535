//! Pieces and refusals, whose words may have wanted memory.
ghost use Rattle.std.specs.Prelude.{◌≡◌, ℕ, List, IfOk};
ghost use Rattle.tool_runs.specs.output.Outputs.{refused};
ghost use Rattle.tool_runs.specs.output.Runs.{Ends, HaltsWriting};
ghost use Rattle.tool_nets.specs.clients.Lines.{refused_peer};
ghost use Rattle.tool_nets.specs.clients.Saying.{SaysPiece};

use std::alloc::Global;
use tool_runs::output::{Cause, Ending, Halt, Refused, Style, last, say};
use xt_io::Sink;
use xt_lists::{OutOfMemory, Text};

/// Writes a piece.
pub(crate) fn say_piece<K: Sink>(piece: Result<Text, OutOfMemory>, sink: &mut K) -> Result<(), Halt>
    ensures says { (said : List ℕ) → IfOk piece (λ text. text ≡ said) → SaysPiece said result (K.taken sink.old) (K.taken sink.new) }
    ensures halts { HaltsWriting (K.faults sink.old) (K.faults sink.new) result }
    ensures same { K.name sink.new ≡ K.name sink.old }
{
    match piece {
        Ok(text) => say(sink, text.octets()),
        Err(_) => Err(Halt::OutOfMemory),
    }
}

/// Refuses what a peer sent, in these words.
pub(crate) fn refuse_peer<K: Sink>(
    alloc: Global,
    style: Style,
    words: Result<Text, OutOfMemory>,
    sink: &mut K,
) -> Result<Ending, Halt>
    ensures ends { (said : List ℕ) → IfOk words (λ text. text ≡ said) → Ends (refused style (refused_peer said)) result (K.taken sink.old) (K.taken sink.new) }
    ensures not_done { result ≡ Ok Ending.Done → ⊥ }
    ensures halts { HaltsWriting (K.faults sink.old) (K.faults sink.new) result }
    ensures same { K.name sink.new ≡ K.name sink.old }
{
    let Ok(text) = words else {
        return Err(Halt::OutOfMemory);
    };
    let cause = Cause::Fetch;
    last(alloc, style, Refused { text, cause }, sink)
}
