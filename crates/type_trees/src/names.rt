ghost use Rattle.std.specs.Prelude.{◌≡◌, ◌==◌};
ghost use Rattle.type_trees.specs.Bridge as spec;

use crate::hashes::{little_endian, name_hash};
use crate::types::Name;

/// A name's hash as a number: its octets read from the lowest.
#[tactic(auto, unfolding(crate::specs::Bridge::name_number))]
pub fn name_number(name: &Name) -> u32
    ensures { result ≡ spec.name_number name.now }
{
    match name {
        Name::Full(text) => little_endian(name_hash(text.octets())),
        Name::Hashed(hash) => *hash,
    }
}

/// Whether two names have one hash. Equal texts are not hashed.
pub fn same_name(left: &Name, right: &Name) -> bool
    ensures { result ≡ (spec.name_number left.now == spec.name_number right.now) }
{
    if let (Name::Full(left), Name::Full(right)) = (left, right) {
        if left.octets() == right.octets() {
            return true;
        }
    }
    name_number(left) == name_number(right)
}
