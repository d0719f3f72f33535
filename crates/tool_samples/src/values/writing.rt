ghost use Rattle.std.specs.Prelude.{◌≡◌, Ok, Some, IfSome};
ghost use Rattle.type_trees.specs.View.{tree, val};
ghost use Rattle.json_values.specs.Read.{read_as};
ghost use Rattle.projection_laws.specs.Premises.{IsValid};
ghost use Rattle.tool_runs.specs.output.Outputs.{Output, after_turn};
ghost use Rattle.tool_runs.specs.output.Runs.{Steps, StopsWriting};
ghost use Rattle.tool_samples.specs.lines.Lines as lines;
ghost use Rattle.tool_samples.specs.values.Values.{Turned, TurnsTo};

use crate::lines::{MOST_OCTETS, plain_sample_record, say_sample};
use crate::values::refusals::{refuse_json, refuse_value};
use dynamic_data::from_json;
use json::Scratch;
use packed_json::read_taped;
use shape_laws::sample_sized;
use std::alloc::Global;
use tool_runs::output::{Stop, Style, say};
use type_trees::{Value, XType};
use xcdr_writer::size_of_sample;
use xt_io::Sink;
use xt_lists::Text;
use xt_shapes::Rep;

// A value whose sample isn't too large, with the sample's octets.
fn sized(
    alloc: Global,
    ty: &XType,
    rep: Rep,
    number: u32,
    value: Value,
) -> Result<(Value, u32), Stop>
    ensures { TurnsTo rep (tree ty.now) (lines.written rep (tree ty.now) number (Ok (val value))) result }
{
    match size_of_sample(rep, ty, &value) {
        None => Err(refuse_json(alloc, number, b"LARGE /")),
        Some(octets) => Ok((value, octets)),
    }
}

// The value of a JSON text that has to be read in general, with its sample's octets.
fn read_general(
    alloc: Global,
    ty: &XType,
    rep: Rep,
    number: u32,
    payload: &[u8],
) -> Result<(Value, u32), Stop>
    requires { IsValid ty.now }
    ensures { TurnsTo rep (tree ty.now) (lines.written rep (tree ty.now) number (read_as (tree ty.now) payload.now)) result }
{
    match from_json(alloc, ty, payload) {
        Ok(value) => sized(alloc, ty, rep, number, value),
        Err(fault) => Err(refuse_value(alloc, number, fault)),
    }
}

// The record of a JSON text's sample, read from a tape where there is a scratch for that. None says nothing; it comes for too large a sample,
// too.
fn taped_record(
    alloc: Global,
    ty: &XType,
    rep: Rep,
    _number: u32,
    payload: &[u8],
    scratch: &mut Option<Scratch>,
) -> Option<Text>
    requires { IsValid ty.now }
    ensures { IfSome result (λ piece. Turned (lines.written rep (tree ty.now) _number (read_as (tree ty.now) payload.now)) (Ok piece)) }
{
    sample_sized();
    let Some(scratch) = scratch else {
        return None;
    };
    let value = read_taped(alloc, ty, payload, scratch)?;
    let piece = plain_sample_record(alloc, rep, ty, &value, payload.len())?;
    if piece.len() <= MOST_OCTETS + 5 {
        Some(piece)
    } else {
        None
    }
}

// The same as `write_value` does, of a text that has to be read in general.
fn write_general<K: Sink>(
    alloc: Global,
    ty: &XType,
    rep: Rep,
    number: u32,
    payload: &[u8],
    sink: &mut K,
) -> Result<(), Stop>
    requires { IsValid ty.now }
    ensures steps { (rest : Output) → Steps Style.Records (Some (after_turn Style.Records (lines.written rep (tree ty.now) number (read_as (tree ty.now) payload.now)) (λ u. rest))) (Some rest) result (K.taken sink.old) (K.taken sink.new) }
    ensures stops { StopsWriting (K.faults sink.old) (K.faults sink.new) result }
    ensures same { K.name sink.new ≡ K.name sink.old }
{
    match read_general(alloc, ty, rep, number, payload) {
        Err(stop) => Err(stop),
        Ok((value, octets)) => match say_sample(rep, ty, &value, octets, sink) {
            Ok(()) => Ok(()),
            Err(halt) => Err(Stop::Halted(halt)),
        },
    }
}

/// Writes the record of the sample of a JSON value, the payload of the record of this number. A refusal is not written yet. The scratch is
/// kept from text to text; with none the text isn't read from a tape.
pub fn write_value<K: Sink>(
    alloc: Global,
    ty: &XType,
    rep: Rep,
    number: u32,
    payload: &[u8],
    scratch: &mut Option<Scratch>,
    sink: &mut K,
) -> Result<(), Stop>
    requires { IsValid ty.now }
    ensures steps { (rest : Output) → Steps Style.Records (Some (after_turn Style.Records (lines.written rep (tree ty.now) number (read_as (tree ty.now) payload.now)) (λ u. rest))) (Some rest) result (K.taken sink.old) (K.taken sink.new) }
    ensures stops { StopsWriting (K.faults sink.old) (K.faults sink.new) result }
    ensures same { K.name sink.new ≡ K.name sink.old }
{
    match taped_record(alloc, ty, rep, number, payload, scratch) {
        None => write_general(alloc, ty, rep, number, payload, sink),
        Some(piece) => match say(sink, piece.octets()) {
            Ok(()) => Ok(()),
            Err(halt) => Err(Stop::Halted(halt)),
        },
    }
}
