ghost use Rattle.std.specs.Prelude.{◌≡◌, ◌≤◌, ℕ, List, ◌++◌, IfOk, OnOk, Ok, None};
ghost use Rattle.md5.specs.Md5.{Holds};
ghost use Rattle.projection_laws.specs.Premises.{IsValid};
ghost use Rattle.settled_parts.specs.Settling.{outcome_val};
ghost use Rattle.type_trees.specs.Bridge.{type_shape};
ghost use Rattle.type_trees.specs.View.{val};
ghost use Rattle.xcdr_model.specs.SampleSpelling.{sample_size};
ghost use Rattle.xcdr_model.specs.Samples.{read_sample as reads};
ghost use Rattle.xt_outside.specs.Memory.{sink_text};
ghost use Rattle.xt_vectors.specs.Findings as spec;
ghost use Rattle.xt_vectors.specs.Laws.{IsSound};
ghost use Rattle.xt_vectors.specs.Pairs.{posed};

use crate::laws::read_is_projected;
use crate::pairs::Evolved;
use assignability::{Verdict, judge};
use md5::{Digest, Md5};
use settled_parts::Outcome;
use std::alloc::Global;
use type_rules::is_within_limits;
use xcdr_samples::read_sample;
use xcdr_writer::{size_of_sample, write_sample};
use xt_lists::OutOfMemory;
use xt_outside::MemSink;
use xt_shapes::Order;
use xt_wire::cursor::{DecodeFault, SliceCursor};

/// What was found of a pair: that the reader's type isn't assignable from the writer's, or what the value is to the reader.
#[derive(Clone, Copy)]
pub(crate) enum Finding {
    No,
    Read,
    Discarded,
    MustUnderstand,
}

fn finding_of(outcome: &Outcome) -> Finding
    ensures { result ≡ spec.of_outcome (outcome_val outcome.now) }
{
    match outcome {
        Outcome::Sample(_) => Finding::Read,
        Outcome::Discarded => Finding::Discarded,
        Outcome::MustUnderstand => Finding::MustUnderstand,
    }
}

/// What the sample of the pair's value is to the reader.
fn read(alloc: Global, pair: &Evolved, sample: &[u8]) -> Result<Finding, OutOfMemory>
    requires valid { IsValid pair.now.reader }
    requires told { reads pair.now.rep (type_shape pair.now.reader) sample.now ≡ Ok (spec.projected (posed pair.now)) }
    ensures { IfOk result (λ finding. finding ≡ spec.of_outcome (spec.projected (posed pair.now))) }
{
    let mut cursor = SliceCursor::new(sample);
    match read_sample(alloc, pair.rep, &pair.reader, &mut cursor) {
        Ok(outcome) => Ok(finding_of(&outcome)),
        Err(DecodeFault::Malformed { at: _, why: _ }) => unreachable!(),
        Err(DecodeFault::ReadFault | DecodeFault::OutOfMemory) => Err(OutOfMemory),
    }
}

/// The sample of the pair's value.
fn write<'a>(alloc: Global, pair: &Evolved) -> Result<MemSink<'a>, OutOfMemory>
    ensures text { IfOk result (λ sink. sink_text sink ≡ spec.spelled (posed pair.now)) }
    ensures short { OnOk result (sample_size pair.now.rep (type_shape pair.now.writer) (val pair.now.value) ≤ 1048576) }
{
    let mut sink = MemSink::new(alloc, 1_048_576, &[]);
    if size_of_sample(pair.rep, &pair.writer, &pair.value).is_none() {
        return Err(OutOfMemory);
    }
    match write_sample(
        pair.rep,
        &pair.writer,
        &pair.value,
        Order::Little,
        &mut sink,
    ) {
        Ok(()) => Ok(sink),
        Err(_) => Err(OutOfMemory),
    }
}

fn try_sample(alloc: Global, pair: &Evolved, hasher: &mut Md5) -> Result<Finding, OutOfMemory>
    requires sound { IsSound (posed pair.now) }
    requires yes { spec.verdict (posed pair.now) ≡ None }
    ensures item { IfOk result (λ finding. finding ≡ spec.of_outcome (spec.projected (posed pair.now))) }
    ensures hashed { OnOk result ((m : List ℕ) → Holds hasher.old m → Holds hasher.new (m ++ spec.spelled (posed pair.now))) }
{
    let sink = write(alloc, pair)?;
    hasher.update(sink.octets());
    read_is_projected();
    read(alloc, pair, sink.octets())
}

/// Judges the pair, and on Yes writes its value, adds the sample to those that are hashed and reads it.
#[tactic(auto, unfolding(crate::specs::Findings::found))]
pub(crate) fn try_pair(
    alloc: Global,
    pair: &Evolved,
    hasher: &mut Md5,
) -> Result<Finding, OutOfMemory>
    requires { IsSound (posed pair.now) }
    ensures item { IfOk result (λ finding. finding ≡ (spec.found (posed pair.now)).0) }
    ensures hashed { OnOk result ((m : List ℕ) → Holds hasher.old m → Holds hasher.new (m ++ (spec.found (posed pair.now)).1)) }
{
    is_within_limits();
    match judge(pair.rep, &pair.reader, &pair.writer) {
        Verdict::Yes => try_sample(alloc, pair, hasher),
        Verdict::No { rule: _, path: _ } => Ok(Finding::No),
    }
}
