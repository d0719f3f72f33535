ghost use Rattle.std.specs.Prelude.{◌≡◌, IfOk, OnOk, OnErr};
ghost use Rattle.std.specs.Io.KnownBytes.{Appends};
ghost use Rattle.xt_io.specs.Outside.{AppendsPrefix};
ghost use Rattle.tool_runs.specs.output.Outputs as spec;
ghost use Rattle.tool_runs.specs.output.Runs.{Ends, HaltsWriting, Refuses, refusal};
ghost use Rattle.xt_io.specs.Records.{record_octets};
ghost use Rattle.tool_runs.specs.output.Texts as texts;

use crate::output::ending::{Cause, Ending, Style};
use crate::output::halt::Halt;
use crate::output::stop::{Refused, Stop};
use std::alloc::Global;
use std::fmt::Display;
use xt_io::{Kind, RecordFault, Sink, write_whole};
use xt_lists::{OutOfMemory, Text};

/// Writes a piece.
pub fn say<K: Sink>(sink: &mut K, text: &[u8]) -> Result<(), Halt>
    ensures text { OnOk result (Appends (K.taken sink.old) (K.taken sink.new) text.now) }
    ensures prefix { OnErr result (AppendsPrefix (K.taken sink.old) (K.taken sink.new) text.now) }
    ensures halts { HaltsWriting (K.faults sink.old) (K.faults sink.new) result }
    ensures same { K.name sink.new ≡ K.name sink.old }
{
    Ok(write_whole(sink, text)?)
}

/// The text with a line feed behind it.
pub fn line(text: Text) -> Result<Text, OutOfMemory>
    ensures { IfOk result (λ piece. piece ≡ spec.last_piece Style.Lines text) }
{
    let mut piece = text;
    piece.push(b'\n')?;
    Ok(piece)
}

/// A record: its kind, the length of its payload in big-endian order, and the payload.
pub fn record(alloc: Global, kind: Kind, payload: &[u8]) -> Result<Text, OutOfMemory>
    ensures { IfOk result (λ piece. piece ≡ record_octets kind payload.now) }
{
    let Ok(length) = u32::try_from(payload.len()) else {
        return Err(OutOfMemory);
    };
    let mut piece = Text::from_octets(alloc, &[kind.octet()])?;
    piece.append(&length.to_be_bytes())?;
    piece.append(payload)?;
    Ok(piece)
}

fn last_piece(alloc: Global, style: Style, text: Text) -> Result<Text, OutOfMemory>
    ensures { IfOk result (λ piece. piece ≡ spec.last_piece style text) }
{
    match style {
        Style::Lines => line(text),
        Style::Records => record(alloc, Kind::Note, text.octets()),
    }
}

/// Writes the last line of a command that is refused.
#[tactic(auto, using(crate::proofs::OfOutput::Written::last_is_cut, crate::proofs::OfOutput::Written::last_is_whole))]
pub fn last<K: Sink>(
    alloc: Global,
    style: Style,
    refused: Refused,
    sink: &mut K,
) -> Result<Ending, Halt>
    ensures ends { Ends (spec.refused style (refusal refused)) result (K.taken sink.old) (K.taken sink.new) }
    ensures halts { HaltsWriting (K.faults sink.old) (K.faults sink.new) result }
    ensures same { K.name sink.new ≡ K.name sink.old }
{
    let Refused { text, cause } = refused;
    let Ok(piece) = last_piece(alloc, style, text) else {
        return Err(Halt::OutOfMemory);
    };
    match say(sink, piece.octets()) {
        Ok(()) => Ok(Ending::Refused(cause)),
        Err(halt) => Err(halt),
    }
}

fn bundle_line(alloc: Global, at: u64, why: &[u8]) -> Result<Text, OutOfMemory>
    ensures { IfOk result (λ text. text ≡ texts.bundle_text at why.now) }
{
    let place = at.to_string(alloc)?;
    let mut text = Text::from_octets(alloc, b"bundle ")?;
    text.append(place.as_bytes())?;
    text.append(b" ")?;
    text.append(why)?;
    Ok(text)
}

/// The refusal of a bundle at a place.
pub fn refuse_bundle(alloc: Global, at: u64, why: &[u8]) -> Stop
    ensures { Refuses (spec.bundle_refusal (texts.bundle_text at why.now)) result }
{
    match bundle_line(alloc, at, why) {
        Ok(text) => Stop::Refused(Refused {
            text,
            cause: Cause::Bundle,
        }),
        Err(_) => Stop::Halted(Halt::OutOfMemory),
    }
}

/// The refusal of a bundle that ends in this fault.
pub fn refuse_fault(alloc: Global, fault: RecordFault) -> Stop
    ensures { Refuses (spec.broken fault) result }
{
    match fault {
        RecordFault::Truncated { at, .. } => refuse_bundle(alloc, at, b"truncated"),
        RecordFault::UnknownKind { at, .. } => refuse_bundle(alloc, at, b"kind"),
        RecordFault::TooLong { at, .. } => refuse_bundle(alloc, at, b"too-long"),
        RecordFault::TooMany { at } => refuse_bundle(alloc, at, b"records"),
        RecordFault::ReadFault | RecordFault::OutOfMemory => Stop::Halted(Halt::OutOfMemory),
    }
}
