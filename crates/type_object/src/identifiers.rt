ghost use Rattle.std.specs.Prelude.{◌≡◌, slice_index};
ghost use Rattle.type_object.specs.Names as spec;

use md5::{Digest, Md5};
use type_trees::HashId;

/// An equivalence hash: the first 14 octets of the MD5 of an object's text (DDS-XTypes 1.3, 7.3.4; RFC 1321). It takes no memory.
pub fn hash_of(octets: &[u8]) -> [u8; 14]
    ensures { result ≡ spec.hash_of octets.now }
{
    let mut hasher = Md5::new();
    hasher.update(octets);
    let d = hasher.finalize();
    [
        d[0], d[1], d[2], d[3], d[4], d[5], d[6], d[7], d[8], d[9], d[10], d[11], d[12], d[13],
    ]
}

/// The kind of an object's text: the octet behind the count of its octets, 0xF1 for a minimal and 0xF2 for a complete object. It is 0
/// where there are too few octets.
pub fn kind_of(octets: &[u8]) -> u8
    ensures { result ≡ slice_index octets.now 4 }
{
    if 4 < octets.len() { octets[4] } else { 0 }
}

/// The identifier of an object's text: its kind and its hash. It takes no memory.
pub fn named(octets: &[u8]) -> HashId
    ensures { result ≡ spec.named octets.now }
{
    HashId {
        kind: kind_of(octets),
        hash: hash_of(octets),
    }
}
