ghost use Rattle.std.specs.Prelude.{◌≡◌, Ok, Err, OnOk};
ghost use Rattle.type_trees.specs.View.{tree};
ghost use Rattle.type_trees.specs.Bridge.{type_shape};
ghost use Rattle.settled_parts.specs.Settling.{outcome_val};
ghost use Rattle.projection_laws.specs.Premises.{IsValid};
ghost use Rattle.xcdr_model.specs.Samples.{read_sample};
ghost use Rattle.tool_runs.specs.declared.output.turns.Next.TheVariants.{Record};
ghost use Rattle.tool_runs.specs.output.Runs.{coming, IsReady, GoesOn, StopsReading, TakesPayload};
ghost use Rattle.tool_samples.specs.Sampling.{Says, IsPrepared, PlansFor};

use crate::forms::Shows;
use crate::payloads::payload_piece;
use crate::prepared::Prepared;
use packed_json::Plan;
use settled_parts::Outcome;
use std::alloc::Global;
use tool_runs::output::{Halt, Stop, payload_into, stop_for};
use type_trees::XType;
use xcdr_samples::read_guided;
use xt_io::{BundleReader, Head, Source};
use xt_lists::Text;
use xt_shapes::Rep;
use xt_wire::cursor::DecodeFault;
use xt_wire::streams::StreamCursor;

// What is written of what was read.
fn piece_of<F: Shows>(
    alloc: Global,
    form: &F,
    ty: &XType,
    plan: &Option<Plan>,
    read: Result<Outcome, DecodeFault>,
) -> Result<Text, Stop>
    requires valid { IsValid ty.now }
    requires planned { PlansFor (tree ty.now) plan.now }
    ensures { Says outcome_val (F.piece form.now (tree ty.now)) read result }
{
    match read {
        Ok(outcome) => match form.outcome(alloc, ty, plan, &outcome) {
            Ok(piece) => Ok(piece),
            Err(_) => Err(Stop::Halted(Halt::OutOfMemory)),
        },
        Err(DecodeFault::Malformed { at, why }) => match form.malformed(alloc, ty, at, why) {
            Ok(piece) => Ok(piece),
            Err(_) => Err(Stop::Halted(Halt::OutOfMemory)),
        },
        Err(DecodeFault::ReadFault) => Err(Stop::Halted(Halt::ReadFault)),
        Err(DecodeFault::OutOfMemory) => Err(Stop::Halted(Halt::OutOfMemory)),
    }
}

// What is written of a sample that is read as its octets come. The rest of a malformed one is passed over before its piece is given, and
// no memory goes by the payload's length but for the value's.
fn streamed_piece<F: Shows, S: Source>(
    alloc: Global,
    form: &F,
    rep: Rep,
    ty: &XType,
    prepared: &Prepared,
    head: Head,
    reader: BundleReader<S>,
) -> (BundleReader<S>, Result<Text, Stop>)
    requires ready { IsReady head reader }
    requires valid { IsValid ty.now }
    requires prepared { IsPrepared (tree ty.now) prepared.now }
    ensures takes { TakesPayload head (λ text octets. text ≡ F.piece form.now (tree ty.now) (read_sample rep (type_shape ty.now) octets)) (coming (Record head) reader) result.0.ahead result.1 }
    ensures on { OnOk result.1 (GoesOn reader result.0) }
    ensures stops { StopsReading reader.faults result.0.faults result.1 }
    ensures same { result.0.name ≡ reader.name }
{
    let mut cursor = StreamCursor::new(reader, head.length);
    let read = read_guided(alloc, rep, ty, &prepared.guide, &mut cursor);
    let mut reader = cursor.end();
    match reader.pass_payload() {
        Err(fault) => (reader, Err(stop_for(alloc, fault))),
        Ok(()) => (reader, piece_of(alloc, form, ty, &prepared.plan, read)),
    }
}

// What is written of a sample whose octets are gathered.
fn held_piece<F: Shows, S: Source>(
    alloc: Global,
    form: &F,
    rep: Rep,
    ty: &XType,
    prepared: &Prepared,
    head: Head,
    reader: BundleReader<S>,
    gathered: &mut Text,
) -> (BundleReader<S>, Result<Text, Stop>)
    requires ready { IsReady head reader }
    requires valid { IsValid ty.now }
    requires prepared { IsPrepared (tree ty.now) prepared.now }
    ensures takes { TakesPayload head (λ text octets. text ≡ F.piece form.now (tree ty.now) (read_sample rep (type_shape ty.now) octets)) (coming (Record head) reader) result.0.ahead result.1 }
    ensures on { OnOk result.1 (GoesOn reader result.0) }
    ensures stops { StopsReading reader.faults result.0.faults result.1 }
    ensures same { result.0.name ≡ reader.name }
{
    let mut reader = reader;
    match payload_into(alloc, head, &mut reader, gathered) {
        Err(stop) => (reader, Err(stop)),
        Ok(()) => match payload_piece(alloc, form, rep, ty, prepared, gathered.octets()) {
            Ok(piece) => (reader, Ok(piece)),
            Err(_) => (reader, Err(Stop::Halted(Halt::OutOfMemory))),
        },
    }
}

/// What is written of the sample whose head the reader just gave, by its representation and the reader's type alone. Where
/// it may be plain its octets are gathered in the text, at most 1,048,576; else it is read as they come. A sample that is cut has no piece. The
/// reader is given back.
pub fn sample_piece<F: Shows, S: Source>(
    alloc: Global,
    form: &F,
    rep: Rep,
    ty: &XType,
    prepared: &Prepared,
    head: Head,
    reader: BundleReader<S>,
    gathered: &mut Text,
) -> (BundleReader<S>, Result<Text, Stop>)
    requires ready { IsReady head reader }
    requires valid { IsValid ty.now }
    requires prepared { IsPrepared (tree ty.now) prepared.now }
    ensures takes { TakesPayload head (λ text octets. text ≡ F.piece form.now (tree ty.now) (read_sample rep (type_shape ty.now) octets)) (coming (Record head) reader) result.0.ahead result.1 }
    ensures on { OnOk result.1 (GoesOn reader result.0) }
    ensures stops { StopsReading reader.faults result.0.faults result.1 }
    ensures same { result.0.name ≡ reader.name }
{
    if prepared.may_be_plain {
        return held_piece(alloc, form, rep, ty, prepared, head, reader, gathered);
    }
    streamed_piece(alloc, form, rep, ty, prepared, head, reader)
}
