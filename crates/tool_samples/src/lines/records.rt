ghost use Rattle.std.specs.Prelude.{◌≡◌, ◌≤◌, ◌++◌, ◌∷◌, [], ℕ, List, IfOk, IfSome, OnOk, OnErr};
ghost use Rattle.std.specs.Io.KnownBytes.{Appends};
ghost use Rattle.xt_io.specs.Outside.{AppendsAll, AppendsPrefix, HasCause};
ghost use Rattle.tool_runs.specs.output.Runs.{HaltsWriting};
ghost use Rattle.type_trees.specs.View.{val};
ghost use Rattle.type_trees.specs.Bridge.{type_shape};
ghost use Rattle.xcdr_model.specs.SampleSpelling.{fixed_sample, sample_size};
ghost use Rattle.packed_reader.specs.View.{packed_val};
ghost use Rattle.xt_io.specs.Records.{head_octets, record_octets};

use packed_reader::Packed;
use packed_writer::write_plain;
use shape_laws::sample_sized;
use std::alloc::Global;
use tool_runs::output::{Halt, record};
use type_trees::{Value, XType};
use xcdr_writer::write_sample;
use xt_io::{Failed, Kind, MemSink, Sink, write_whole};
use xt_lists::{OutOfMemory, Text};
use xt_shapes::{Order, Rep};

/// The most octets that a sample has.
pub const MOST_OCTETS: usize = 1_048_576;

/// The record of a value's sample in little-endian order. The sample has at most 1,048,576 octets.
pub fn sample_record(
    alloc: Global,
    rep: Rep,
    ty: &XType,
    value: &Value,
) -> Result<Text, OutOfMemory>
    requires { sample_size rep (type_shape ty.now) (val value.now) ≤ 1048576 }
    ensures { IfOk result (λ piece. piece ≡ record_octets Kind.Sample (fixed_sample rep Order.Little (type_shape ty.now) (val value.now))) }
{
    let mut sink = MemSink::new(alloc, usize::MAX, &[]);
    match write_sample(rep, ty, value, Order::Little, &mut sink) {
        Ok(()) => record(alloc, Kind::Sample, sink.octets()),
        Err(_) => Err(OutOfMemory),
    }
}

// The octets of a record's head.
const HEAD: usize = 5;

// The head of a sample's record.
fn sample_head(octets: u32) -> [u8; 5]
    ensures { result ≡ head_octets Kind.Sample octets }
{
    let [first, second, third, fourth] = octets.to_be_bytes();
    [Kind::Sample.octet(), first, second, third, fourth]
}

// Zeros where the head of a record goes, and room behind them for a sample of about so many octets.
fn begun_record(alloc: Global, octets: usize) -> Option<Vec<u8>>
    ensures { IfSome result (λ front. front.items ≡ 0 ∷ 0 ∷ 0 ∷ 0 ∷ 0 ∷ []) }
{
    let Ok(mut front) = Vec::with_capacity(alloc, octets.min(MOST_OCTETS) + 64) else {
        return None;
    };
    match front.extend_from_slice(&[0; HEAD]) {
        Ok(()) => Some(front),
        Err(_) => None,
    }
}

// A sample's record, whose head stands in zeros, with its head. None where no head can tell how long the sample is.
fn with_head(piece: Vec<u8>) -> Option<Vec<u8>>
    ensures { IfSome result (λ all. (sample : List ℕ) → piece.items ≡ 0 ∷ 0 ∷ 0 ∷ 0 ∷ 0 ∷ sample → all.items ≡ record_octets Kind.Sample sample) }
{
    let mut all = piece;
    let Some(octets) = all.len().checked_sub(HEAD) else {
        return None;
    };
    let Ok(octets) = u32::try_from(octets) else {
        return None;
    };
    let head = sample_head(octets);
    let (front, _) = all.split_at_mut(HEAD);
    front.copy_from_slice(&head);
    Some(all)
}

/// The sample of a plain value in little-endian order. It mostly has about as many octets as the sample that was read, for which memory is
/// taken at once. None says nothing.
pub fn plain_sample(
    alloc: Global,
    rep: Rep,
    ty: &XType,
    value: &Packed<'_>,
    read: usize,
) -> Option<Text>
    ensures { IfSome result (λ text. text ≡ fixed_sample rep Order.Little (type_shape ty.now) (packed_val value.now)) }
{
    let Ok(front) = Vec::with_capacity(alloc, read.min(MOST_OCTETS) + 64) else {
        return None;
    };
    let all = write_plain(rep, ty, value, front)?;
    Some(Text::from_vec(all))
}

/// The record of a plain value's sample in little-endian order, by the octets of the sample that was read. None says nothing.
pub fn plain_sample_record(
    alloc: Global,
    rep: Rep,
    ty: &XType,
    value: &Packed<'_>,
    read: usize,
) -> Option<Text>
    ensures { IfSome result (λ piece. piece ≡ record_octets Kind.Sample (fixed_sample rep Order.Little (type_shape ty.now) (packed_val value.now))) }
{
    let front = begun_record(alloc, read)?;
    let all = with_head(write_plain(rep, ty, value, front)?)?;
    Some(Text::from_vec(all))
}

// A head, and the sample of a value behind it.
fn write_headed<K: Sink>(
    head: &[u8],
    rep: Rep,
    ty: &XType,
    value: &Value,
    sink: &mut K,
) -> Result<(), Failed>
    requires { sample_size rep (type_shape ty.now) (val value.now) ≤ 1048576 }
    ensures whole { OnOk result (AppendsAll (K.taken sink.old) (K.taken sink.new) (head.now ++ fixed_sample rep Order.Little (type_shape ty.now) (val value.now))) }
    ensures prefix { OnErr result (AppendsPrefix (K.taken sink.old) (K.taken sink.new) (head.now ++ fixed_sample rep Order.Little (type_shape ty.now) (val value.now))) }
    ensures same { K.name sink.new ≡ K.name sink.old }
    ensures cause { HasCause (K.faults sink.old) (K.faults sink.new) result }
{
    write_whole(sink, head)?;
    write_sample(rep, ty, value, Order::Little, sink)
}

// The record of a value's sample, of so many octets.
fn write_sample_record<K: Sink>(
    rep: Rep,
    ty: &XType,
    value: &Value,
    octets: u32,
    sink: &mut K,
) -> Result<(), Failed>
    requires size { octets ≡ sample_size rep (type_shape ty.now) (val value.now) }
    requires most { octets ≤ 1048576 }
    ensures whole { OnOk result (AppendsAll (K.taken sink.old) (K.taken sink.new) (record_octets Kind.Sample (fixed_sample rep Order.Little (type_shape ty.now) (val value.now)))) }
    ensures prefix { OnErr result (AppendsPrefix (K.taken sink.old) (K.taken sink.new) (record_octets Kind.Sample (fixed_sample rep Order.Little (type_shape ty.now) (val value.now)))) }
    ensures same { K.name sink.new ≡ K.name sink.old }
    ensures cause { HasCause (K.faults sink.old) (K.faults sink.new) result }
{
    sample_sized();
    let head = sample_head(octets);
    write_headed(head.as_slice(), rep, ty, value, sink)
}

/// Writes the record of a value's sample in little-endian order straight to the sink: its head, and the sample of so many octets. It takes
/// no memory.
pub fn say_sample<K: Sink>(
    rep: Rep,
    ty: &XType,
    value: &Value,
    octets: u32,
    sink: &mut K,
) -> Result<(), Halt>
    requires size { octets ≡ sample_size rep (type_shape ty.now) (val value.now) }
    requires most { octets ≤ 1048576 }
    ensures text { OnOk result (Appends (K.taken sink.old) (K.taken sink.new) (record_octets Kind.Sample (fixed_sample rep Order.Little (type_shape ty.now) (val value.now)))) }
    ensures prefix { OnErr result (AppendsPrefix (K.taken sink.old) (K.taken sink.new) (record_octets Kind.Sample (fixed_sample rep Order.Little (type_shape ty.now) (val value.now)))) }
    ensures halts { HaltsWriting (K.faults sink.old) (K.faults sink.new) result }
    ensures same { K.name sink.new ≡ K.name sink.old }
{
    Ok(write_sample_record(rep, ty, value, octets, sink)?)
}
