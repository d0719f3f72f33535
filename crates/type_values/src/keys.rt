ghost use Rattle.std.specs.Prelude.{◌≡◌, map};
ghost use Rattle.xt_shapes.specs.Lists.{has};
ghost use Rattle.xt_shapes.specs.Typing as spec;
ghost use Rattle.type_trees.specs.View.{val, pair_val};
ghost use Rattle.type_values.specs.Rising as rising;

use type_trees::{Pair, Value};

#[tactic(auto, using(type_trees::proofs::Views::val_rules))]
fn same_key(left: &Value, right: &Value) -> bool
    ensures { result ≡ spec.same_key (val left.now) (val right.now) }
{
    match (left, right) {
        (Value::Int(left), Value::Int(right)) => left == right,
        (Value::Str(left), Value::Str(right)) => left.octets() == right.octets(),
        _ => false,
    }
}

#[tactic(auto, using(type_trees::proofs::Views::val_rules))]
fn has_key(key: &Value, pairs: &[Pair]) -> bool
    ensures { result ≡ has (λ y. spec.same_key (val key.now) y.0) (map pair_val pairs.now) }
{
    pairs.iter().any(|pair| same_key(key, &pair.key))
}

/// Whether two pairs have one key, by comparing each with those behind it.
#[tactic(auto, using(type_trees::proofs::Views::val_rules))]
pub(crate) fn repeats_in_any_order(pairs: &[Pair]) -> bool
    ensures { result ≡ spec.repeats (map pair_val pairs.now) }
{
    for at in 0..pairs.len() {
        if has_key(&pairs[at].key, &pairs[at + 1..]) {
            return true;
        }
    }
    false
}

#[tactic(auto, using(type_trees::proofs::Views::val_rules))]
fn goes_before(left: &Value, right: &Value) -> bool
    ensures { result ≡ rising.goes_before (val left.now) (val right.now) }
{
    match (left, right) {
        (Value::Int(left), Value::Int(right)) => left.cmp(right).is_lt(),
        (Value::Str(left), Value::Str(right)) => left.octets().cmp(&right.octets()).is_lt(),
        _ => false,
    }
}

#[tactic(auto, using(type_trees::proofs::Views::val_rules))]
fn rises_from(key: &Value, pairs: &[Pair]) -> bool
    ensures { result ≡ rising.rises_from (val key.now) (map pair_val pairs.now) }
{
    let mut last = key;
    for pair in pairs {
        if !goes_before(last, &pair.key) {
            return false;
        }
        last = &pair.key;
    }
    true
}

/// Whether each key goes before the next.
#[tactic(auto, using(type_trees::proofs::Views::val_rules))]
pub(crate) fn rises(pairs: &[Pair]) -> bool
    ensures { result ≡ rising.rises (map pair_val pairs.now) }
{
    match pairs {
        [] => true,
        [first, rest @ ..] => rises_from(&first.key, rest),
    }
}

/// Whether two pairs have one key. Keys that rise are told apart in one pass; in another order each pair is compared with each.
#[tactic(auto, using(crate::proofs::RisingSteps::rises_apart))]
pub fn repeats(pairs: &[Pair]) -> bool
    ensures { result ≡ spec.repeats (map pair_val pairs.now) }
{
    !rises(pairs) && repeats_in_any_order(pairs)
}
