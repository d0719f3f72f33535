ghost use Rattle.std.specs.Prelude.{◌≡◌, ℕ, List};
ghost use Rattle.type_object.specs.Names.{hash_of, named_by};

use type_object::{hash_of, kind_of};
use type_trees::HashId;

/// How a registry names the text of an object: the hash of its identifier, which is a function of the text's octets.
pub trait Naming: Send + Sync {
    ghost name: { List ℕ → List ℕ };

    fn name_of(octets: &[u8]) -> [u8; 14]
        ensures { result ≡ name octets.now };
}

/// The standard's naming: the first 14 octets of the text's MD5 (DDS-XTypes 1.3, 7.3.4).
pub struct Md5Naming;

impl Naming for Md5Naming {
    ghost name = { hash_of };

    fn name_of(octets: &[u8]) -> [u8; 14] {
        hash_of(octets)
    }
}

/// The identifier of an object's text: its kind, which stands behind the count of its octets, and its name.
pub(crate) fn named<N: Naming>(octets: &[u8]) -> HashId
    ensures { result ≡ named_by N.name octets.now }
{
    HashId {
        kind: kind_of(octets),
        hash: N::name_of(octets),
    }
}
