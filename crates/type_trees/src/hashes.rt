ghost use Rattle.std.specs.Prelude.{◌≡◌};
ghost use Rattle.type_trees.specs.Hash as spec;

use md5::{Digest, Md5};

/// A name's hash: the first four octets of its MD5 (DDS-XTypes 1.3, 7.3.4: NameHash).
pub fn name_hash(name: &[u8]) -> [u8; 4]
    ensures { result ≡ spec.name_hash name.now }
{
    let mut hasher = Md5::new();
    hasher.update(name);
    let digest = hasher.finalize();
    [digest[0], digest[1], digest[2], digest[3]]
}

/// Four octets as a number, the lowest first.
pub(crate) fn little_endian(octets: [u8; 4]) -> u32
    ensures { result ≡ spec.little_endian octets }
{
    let [first, second, third, fourth] = octets;
    u32::from(first)
        + 256 * (u32::from(second) + 256 * (u32::from(third) + 256 * u32::from(fourth)))
}

/// The member id that a name's hash gives: the hash as a little-endian number, without its four highest bits
/// (DDS-XTypes 1.3, 7.3.1: the annotations `hashid` and `autoid`).
pub fn hash_id(name: &[u8]) -> u32
    ensures { result ≡ spec.hash_id name.now }
{
    little_endian(name_hash(name)) % 0x1000_0000
}
