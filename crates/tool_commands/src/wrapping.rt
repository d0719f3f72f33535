ghost use Rattle.std.specs.Prelude.{◌≡◌, [], ◌∷◌, Ok, codes};
ghost use Rattle.std.specs.Option.{option_map};
ghost use Rattle.std.specs.Io.KnownBytes.{IsAtEnd};
ghost use Rattle.xt_io.specs.Records.{record_octets};
ghost use Rattle.tool_runs.specs.output.Texts.{bundle_text};
ghost use Rattle.tool_runs.specs.output.Outputs.{bundle_refusal, refused};
ghost use Rattle.tool_runs.specs.output.Runs.{Ends, Halts, HaltsWriting, Writes};
ghost use Rattle.tool_runs.specs.Commands.{only};
ghost use Rattle.tool_commands.specs.Wrapping.{wrapped};

use std::alloc::Global;
use tool_runs::output::{Ending, Halt, Style, record, refuse_bundle, say};
use tool_runs::stopped;
use xt_io::{Kind, RecordFault, Sink, Source, read_text};

// One record as the whole output.
#[tactic(auto, using(crate::proofs::Wrapped::only_is_whole, crate::proofs::Wrapped::only_is_cut, crate::proofs::Wrapped::only_is_wanted))]
fn write_record<K: Sink>(
    alloc: Global,
    kind: Kind,
    payload: &[u8],
    output: &mut K,
) -> Result<Ending, Halt>
    ensures ends { Ends (only (record_octets kind payload.now ∷ [])) result (K.taken output.old) (K.taken output.new) }
    ensures halts { HaltsWriting (K.faults output.old) (K.faults output.new) result }
    ensures same { K.name output.new ≡ K.name output.old }
{
    let Ok(piece) = record(alloc, kind, payload) else {
        return Err(Halt::OutOfMemory);
    };
    match say(output, piece.octets()) {
        Ok(()) => Ok(Ending::Done),
        Err(halt) => Err(halt),
    }
}

// The last line of an input that is too long.
#[tactic(auto, using(crate::proofs::Wrapped::refusal_ends))]
fn refuse_long<K: Sink>(alloc: Global, output: &mut K) -> Result<Ending, Halt>
    ensures ends { Ends (refused Style.Lines (bundle_refusal (bundle_text 0 (codes "too-long")))) result (K.taken output.old) (K.taken output.new) }
    ensures not_done { result ≡ Ok Ending.Done → ⊥ }
    ensures halts { HaltsWriting (K.faults output.old) (K.faults output.new) result }
    ensures same { K.name output.new ≡ K.name output.old }
{
    let stop = refuse_bundle(alloc, 0, b"too-long");
    stopped(alloc, Style::Lines, stop, output)
}

/// Writes the whole input as the payload of one record of a kind. An input that passes the kind's limit is refused by the line
/// `bundle 0 too-long`.
pub fn wrap<S: Source, K: Sink>(
    alloc: Global,
    kind: Kind,
    input: &mut S,
    output: &mut K,
) -> Result<Ending, Halt>
    ensures output { Writes (option_map (wrapped kind) (S.left input.old)) result (K.taken output.old) (K.taken output.new) }

    // A run that is done read its input to the end.
    ensures ended { result ≡ Ok Ending.Done → IsAtEnd (S.left input.new) }
    ensures halts { Halts (S.faults input.old) (S.faults input.new) (K.faults output.old) (K.faults output.new) result }
    ensures same { K.name output.new ≡ K.name output.old }
{
    let most = kind.limit() as usize;
    match read_text(alloc, input, most + 1) {
        Err(RecordFault::ReadFault) => Err(Halt::ReadFault),
        Err(_) => Err(Halt::OutOfMemory),
        Ok(text) => {
            if most < text.len() {
                refuse_long(alloc, output)
            } else {
                write_record(alloc, kind, text.octets(), output)
            }
        }
    }
}
