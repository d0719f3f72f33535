ghost use Rattle.std.specs.Prelude.{◌≡◌, ◌<◌, ◌^◌, length, Ok, IfOk, IsTrue};
ghost use Rattle.xt_shapes.specs.Typing.{has_type};
ghost use Rattle.type_trees.specs.Bridge.{type_shape};
ghost use Rattle.type_trees.specs.View.{tree, val};
ghost use Rattle.settled_parts.specs.Settling.{outcome_val};
ghost use Rattle.projection_laws.specs.Premises.{IsValid};
ghost use Rattle.xcdr_model.specs.KeyOctets as keys;
ghost use Rattle.xcdr_model.specs.Samples.{sample};
ghost use Rattle.xt_calls.specs.Answering.{HasKey};
ghost use Rattle.xt_calls.specs.Calls as spec;

use crate::answers::{Answer, DISCARDED, DONE, MUST_UNDERSTAND, TOO_LARGE, said};
use crate::readers::{Reader, malformed};
use key_instances::octets::key_hash;
use settled_parts::Outcome;
use shape_laws::{key_octets_bound, sample_typed};
use std::alloc::Global;
use type_rules::{is_within_limits, shape_keeps_rules};
use type_trees::{Value, XType};
use xt_lists::OutOfMemory;
use xt_wire::cursor::DecodeFault;

fn hashed(alloc: Global, ty: &XType, value: &Value) -> Result<Answer, OutOfMemory>
    requires valid { IsValid ty.now }
    requires typed { IsTrue (has_type (type_shape ty.now) (val value.now)) }
    requires few { length (keys.key_octets (type_shape ty.now) (val value.now)) < 2 ^ 32 }
    ensures { IfOk result (λ answer. answer ≡ spec.hashed (tree ty.now) (Ok (sample (val value.now)))) }
{
    let hash = key_hash(alloc, ty, value)?;
    said(alloc, DONE, &hash)
}

// What a sample came to, as the hash of its key.
fn as_hash(alloc: Global, ty: &XType, outcome: &Outcome) -> Result<Answer, OutOfMemory>
    requires valid { IsValid ty.now }
    requires key { HasKey (type_shape ty.now) (outcome_val outcome.now) }
    ensures { IfOk result (λ answer. answer ≡ spec.hashed (tree ty.now) (Ok (outcome_val outcome.now))) }
{
    match outcome {
        Outcome::Sample(value) => hashed(alloc, ty, value),
        Outcome::Discarded => said(alloc, DISCARDED, b"discarded"),
        Outcome::MustUnderstand => said(alloc, MUST_UNDERSTAND, b"must-understand"),
    }
}

impl Reader {
    /// The hash of the key of a sample's value (DDS-XTypes 1.3, 7.6.8). A sample of more than 1,048,576 octets is not looked at.
    pub fn key_hash(&self, alloc: Global, sample: &[u8]) -> Result<Answer, OutOfMemory>
        ensures { IfOk result (λ answer. answer ≡ spec.key_answer self.now.rep (tree self.now.ty) sample.now) }
    {
        shape_keeps_rules();
        is_within_limits();
        sample_typed();
        key_octets_bound();
        if sample.len() > 1_048_576 {
            return said(alloc, TOO_LARGE, b"too-large");
        }
        match self.taken(alloc, sample) {
            Ok(outcome) => as_hash(alloc, &self.ty, &outcome),
            Err(DecodeFault::Malformed { at, why }) => malformed(alloc, at, why),
            Err(DecodeFault::ReadFault | DecodeFault::OutOfMemory) => Err(OutOfMemory),
        }
    }
}
