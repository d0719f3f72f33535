// Whether two pairs of a map have one key, by sorting.
ghost use Rattle.std.specs.Prelude.{◌≡◌, map, IfOk};
ghost use Rattle.std.specs.Ordering.{is_eq};
ghost use Rattle.xt_shapes.specs.Typing as spec;
ghost use Rattle.type_trees.specs.View.{pair_val};
ghost use Rattle.node_rules.specs.distinct.Repeats.{repeats_by};
ghost use Rattle.type_values.specs.KeyLists.{number_keys, text_keys};

use crate::keys::{repeats_in_any_order, rises};
use node_rules::distinct::has_same_next;
use std::alloc::Global;
use type_trees::{Pair, Value};
use xt_lists::OutOfMemory;

/// So few pairs are compared each with each, without memory.
const FEW: usize = 16;

/// Whether two keys are the same: in order, they are next to each other.
fn has_repeats<K: Ord + Drop>(mut keys: Vec<K>) -> bool
    ensures { result ≡ repeats_by (λ a b. is_eq (K.cmp a b)) keys.items }
{
    keys.sort_unstable();
    has_same_next(keys.as_slice())
}

/// The keys that are numbers.
#[tactic(auto, using(type_trees::proofs::Views::val_rules))]
fn numbers_of(alloc: Global, pairs: &[Pair]) -> Result<Vec<i128>, OutOfMemory>
    ensures { IfOk result (λ keys. keys.items ≡ number_keys (map pair_val pairs.now)) }
{
    let mut keys = Vec::new(alloc);
    for pair in pairs {
        if let Value::Int(number) = &pair.key {
            keys.push(*number)?;
        }
    }
    Ok(keys)
}

/// The keys that are texts.
#[tactic(auto, using(type_trees::proofs::Views::val_rules))]
fn texts_of<'v>(alloc: Global, pairs: &'v [Pair]) -> Result<Vec<&'v [u8]>, OutOfMemory>
    ensures { IfOk result (λ keys. map (λ key. key.now) keys.items ≡ text_keys (map pair_val pairs.now)) }
{
    let mut keys = Vec::new(alloc);
    for pair in pairs {
        if let Value::Str(text) = &pair.key {
            keys.push(text.octets())?;
        }
    }
    Ok(keys)
}

/// Whether two pairs have one key, as `repeats` tells, in n log n steps. It takes memory for more than 16 pairs whose keys don't rise.
#[tactic(auto, using(crate::proofs::RisingSteps::rises_apart))]
pub fn has_same_keys(alloc: Global, pairs: &[Pair]) -> Result<bool, OutOfMemory>
    ensures { IfOk result (λ same. same ≡ spec.repeats (map pair_val pairs.now)) }
{
    if rises(pairs) {
        return Ok(false);
    }
    if pairs.len() <= FEW {
        return Ok(repeats_in_any_order(pairs));
    }
    let numbers = numbers_of(alloc, pairs)?;
    let texts = texts_of(alloc, pairs)?;
    Ok(has_repeats(numbers) || has_repeats(texts))
}
