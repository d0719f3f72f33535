//! What is kept of samples by their keys: of each key the last values, in the order of the keys' first puts (this profile's own).

ghost use Rattle.key_instances.specs.kept.Laws.{KeepsLast};

/// After any list of puts that were taken one after another, what is kept of each key, in the order of the first puts, is its last values
/// in order.
pub fn keeps_last()
    ensures { KeepsLast }
{}
