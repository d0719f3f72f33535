ghost use Rattle.std.specs.Prelude.{◌≡◌, ◌≤◌, ◌<◌, ◌^◌, length, Ok, IsTrue, IfSome};
ghost use Rattle.xt_shapes.specs.declared.leaves.Rep.{Rep};
ghost use Rattle.xt_shapes.specs.Typing.{has_type};
ghost use Rattle.xt_shapes.specs.Vals.{Val};
ghost use Rattle.type_trees.specs.Bridge.{type_shape};
ghost use Rattle.type_trees.specs.View.{tree, val};
ghost use Rattle.try_construct.specs.Guides.{IsGuide};
ghost use Rattle.settled_parts.specs.Settling.{outcome_val};
ghost use Rattle.projection_laws.specs.Premises.{IsValid};
ghost use Rattle.xcdr_model.specs.KeyOctets as spec;
ghost use Rattle.xcdr_model.specs.Samples.{sample};
ghost use Rattle.tool_runs.specs.output.Runs.{Refuses};
ghost use Rattle.tool_samples.specs.declared.instances.held.Held.{Held};
ghost use Rattle.tool_samples.specs.instances.Holding.{HasKeyRead, held_val, shown_as};
ghost use Rattle.tool_samples.specs.instances.Instancing.{full, outcome_turn, payload_turn, put_turn};
ghost use Rattle.tool_samples.specs.Sampling.{IsPrepared};
ghost use Rattle.tool_samples.specs.instances.Keeping.{HasKey, Keeps};

use crate::instances::held::Held;
use crate::prepared::Prepared;
use key_instances::octets::{key_octets, packed_key_octets};
use key_instances::{LastValues, PutFault};
use packed_reader::read_plain;
use settled_parts::Outcome;
use shape_laws::{key_octets_bound, sample_typed};
use std::alloc::Global;
use tool_runs::output::{Cause, Halt, Refused, Stop};
use try_construct::Guide;
use type_rules::{is_within_limits, shape_keeps_rules};
use type_trees::{Value, XType};
use xcdr_samples::read_guided;
use xt_lists::Text;
use xt_shapes::Rep;
use xt_wire::cursor::{DecodeFault, SliceCursor};

fn refuse_key(alloc: Global) -> Stop
    ensures { Refuses full result }
{
    match Text::from_octets(alloc, b"instances full") {
        Ok(text) => Stop::Refused(Refused {
            text,
            cause: Cause::Limit,
        }),
        Err(_) => Stop::Halted(Halt::OutOfMemory),
    }
}

// What is kept of a sample, under its key, whatever value it stands for.
fn put_held(alloc: Global, key: Text, held: Held, cache: &mut LastValues<Held>) -> Result<(), Stop>
    requires most { cache.old.most ≡ 65536 }
    ensures put { (f : Held → Val) → Keeps (put_turn cache.old.depth (shown_as f cache.old) key (f held)) (shown_as f cache.new) result }
    ensures depth { cache.new.depth ≡ cache.old.depth }
    ensures most { cache.new.most ≡ cache.old.most }
{
    match cache.put(key, held) {
        Ok(()) => Ok(()),
        Err(PutFault::Full) => Err(refuse_key(alloc)),
        Err(PutFault::OutOfMemory) => Err(Stop::Halted(Halt::OutOfMemory)),
    }
}

// The octets of a plain sample, under its key: memory is asked for just as many.
fn put_octets(
    alloc: Global,
    key: Text,
    payload: &[u8],
    cache: &mut LastValues<Held>,
) -> Result<(), Stop>
    requires most { cache.old.most ≡ 65536 }
    ensures put { (f : Held → Val) → Keeps (put_turn cache.old.depth (shown_as f cache.old) key (f (Held.Octets payload.now))) (shown_as f cache.new) result }
    ensures depth { cache.new.depth ≡ cache.old.depth }
    ensures most { cache.new.most ≡ cache.old.most }
{
    match Text::from_octets(alloc, payload) {
        Ok(kept) => put_held(alloc, key, Held::Octets(kept), cache),
        Err(_) => Err(Stop::Halted(Halt::OutOfMemory)),
    }
}

// A value under its key.
fn put_value(
    alloc: Global,
    ty: &XType,
    value: Value,
    cache: &mut LastValues<Held>,
) -> Result<(), Stop>
    requires valid { IsValid ty.now }
    requires typed { IsTrue (has_type (type_shape ty.now) (val value)) }
    requires few { length (spec.key_octets (type_shape ty.now) (val value)) < 2 ^ 32 }
    requires most { cache.old.most ≡ 65536 }
    ensures put { (rep : Rep) → Keeps (outcome_turn cache.old.depth (tree ty.now) (shown_as (held_val rep (tree ty.now)) cache.old) (Ok (sample (val value)))) (shown_as (held_val rep (tree ty.now)) cache.new) result }
    ensures depth { cache.new.depth ≡ cache.old.depth }
    ensures most { cache.new.most ≡ cache.old.most }
{
    let Ok(key) = key_octets(alloc, ty, &value) else {
        return Err(Stop::Halted(Halt::OutOfMemory));
    };
    put_held(alloc, key, Held::Value(value), cache)
}

// What the reader's type makes of a sample.
fn put_outcome(
    alloc: Global,
    ty: &XType,
    outcome: Outcome,
    cache: &mut LastValues<Held>,
) -> Result<(), Stop>
    requires valid { IsValid ty.now }
    requires key { HasKey (type_shape ty.now) (outcome_val outcome) }
    requires most { cache.old.most ≡ 65536 }
    ensures put { (rep : Rep) → Keeps (outcome_turn cache.old.depth (tree ty.now) (shown_as (held_val rep (tree ty.now)) cache.old) (Ok (outcome_val outcome))) (shown_as (held_val rep (tree ty.now)) cache.new) result }
    ensures depth { cache.new.depth ≡ cache.old.depth }
    ensures most { cache.new.most ≡ cache.old.most }
{
    match outcome {
        Outcome::Sample(value) => put_value(alloc, ty, value, cache),
        Outcome::Discarded | Outcome::MustUnderstand => Ok(()),
    }
}

// The value that the reader's type makes of a sample that has to be read in general, under its key.
fn put_general(
    alloc: Global,
    rep: Rep,
    ty: &XType,
    guide: &Guide,
    payload: &[u8],
    cache: &mut LastValues<Held>,
) -> Result<(), Stop>
    requires valid { IsValid ty.now }
    requires guide { IsGuide (type_shape ty.now) guide.now }
    requires size { length payload.now ≤ 1048576 }
    requires most { cache.old.most ≡ 65536 }
    ensures put { Keeps (payload_turn cache.old.depth rep (tree ty.now) (shown_as (held_val rep (tree ty.now)) cache.old) payload.now) (shown_as (held_val rep (tree ty.now)) cache.new) result }
    ensures depth { cache.new.depth ≡ cache.old.depth }
    ensures most { cache.new.most ≡ cache.old.most }
{
    shape_keeps_rules();
    is_within_limits();
    sample_typed();
    key_octets_bound();
    let mut cursor = SliceCursor::new(payload);
    match read_guided(alloc, rep, ty, guide, &mut cursor) {
        Ok(outcome) => put_outcome(alloc, ty, outcome, cache),
        Err(DecodeFault::Malformed { .. }) => Ok(()),
        Err(DecodeFault::ReadFault | DecodeFault::OutOfMemory) => {
            Err(Stop::Halted(Halt::OutOfMemory))
        }
    }
}

// The key of a plain sample. None says nothing.
fn plain_key(alloc: Global, rep: Rep, ty: &XType, guide: &Guide, payload: &[u8]) -> Option<Text>
    requires valid { IsValid ty.now }
    requires guide { IsGuide (type_shape ty.now) guide.now }
    requires size { length payload.now ≤ 1048576 }
    ensures { IfSome result (λ key. HasKeyRead rep (type_shape ty.now) payload.now key) }
{
    shape_keeps_rules();
    is_within_limits();
    sample_typed();
    key_octets_bound();
    let value = read_plain(alloc, rep, ty, guide, payload)?;
    match packed_key_octets(alloc, ty, &value) {
        Ok(key) => Some(key),
        Err(_) => None,
    }
}

/// Puts the value that the reader's type makes of a sample under its key: of a plain sample a copy of the octets is kept. A sample that is
/// discarded, must be understood or is malformed is passed over. A key too many is refused. After a stop the cache is unchanged.
pub fn put_sample(
    alloc: Global,
    rep: Rep,
    ty: &XType,
    prepared: &Prepared,
    payload: &[u8],
    cache: &mut LastValues<Held>,
) -> Result<(), Stop>
    requires valid { IsValid ty.now }
    requires prepared { IsPrepared (tree ty.now) prepared.now }
    requires size { length payload.now ≤ 1048576 }
    requires most { cache.old.most ≡ 65536 }
    ensures put { Keeps (payload_turn cache.old.depth rep (tree ty.now) (shown_as (held_val rep (tree ty.now)) cache.old) payload.now) (shown_as (held_val rep (tree ty.now)) cache.new) result }
    ensures depth { cache.new.depth ≡ cache.old.depth }
    ensures most { cache.new.most ≡ cache.old.most }
{
    if prepared.may_be_plain {
        if let Some(key) = plain_key(alloc, rep, ty, &prepared.guide, payload) {
            return put_octets(alloc, key, payload, cache);
        }
    }
    put_general(alloc, rep, ty, &prepared.guide, payload, cache)
}
