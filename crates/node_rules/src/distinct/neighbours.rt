// Whether two keys are next to each other and the same.
ghost use Rattle.std.specs.Prelude.{◌≡◌};
ghost use Rattle.std.specs.Ordering.{is_eq};
ghost use Rattle.node_rules.specs.distinct.Repeats.{next_is_same, any_next_is_same};

/// Whether some key and the next are the same.
fn has_same_neighbours<K: Ord>(key: &K, keys: &[K]) -> bool
    ensures { result ≡ next_is_same (λ a b. is_eq (K.cmp a b)) key.now keys.now }
{
    let mut last = key;
    for next in keys {
        if last.cmp(next).is_eq() {
            return true;
        }
        last = next;
    }
    false
}

/// Whether some key of the list and the next are the same. Where the keys are in order, that is whether any two are.
pub fn has_same_next<K: Ord>(keys: &[K]) -> bool
    ensures { result ≡ any_next_is_same (λ a b. is_eq (K.cmp a b)) keys.now }
{
    match keys {
        [] => false,
        [first, rest @ ..] => has_same_neighbours(first, rest),
    }
}
