ghost use Rattle.std.specs.Prelude.{◌≡◌, ◌++◌, Some};
ghost use Rattle.type_trees.specs.Ids as spec;

use crate::types::HashId;
use hex::FromHex;
use std::fmt;

impl HashId {
    /// The kind and the octets of the hash.
    fn octets(&self) -> [u8; 15]
        ensures { result ≡ spec.id_octets self.now }
    {
        let mut octets = [0; 15];
        octets[0] = self.kind;
        octets[1..].copy_from_slice(&self.hash);
        octets
    }

    /// The identifier that 30 hexadecimal digits of either case print. None where they are of another number, or the kind is neither
    /// 0xF1 nor 0xF2.
    pub fn from_digits(digits: &[u8]) -> Option<HashId>
        ensures { result ≡ spec.id_of_digits digits.now }
    {
        match <[u8; 15] as FromHex>::from_hex(digits) {
            Ok(octets) => id_of(octets),
            Err(_) => None,
        }
    }
}

fn is_object_kind(kind: u8) -> bool
    ensures { result ≡ spec.is_object_kind kind }
{
    kind == 0xf1 || kind == 0xf2
}

/// The identifier of these octets, unless their kind is no object's.
fn id_of(octets: [u8; 15]) -> Option<HashId>
    ensures { result ≡ spec.id_of octets }
{
    let kind = octets[0];
    if !is_object_kind(kind) {
        return None;
    }
    let mut hash = [0; 14];
    hash.copy_from_slice(&octets[1..]);
    Some(HashId { kind, hash })
}

/// 30 lower-case hexadecimal digits: those of the kind, and those of the hash.
impl fmt::Display for HashId {
    ghost output = { λ id. Some (spec.id_text id) };

    fn fmt<W: fmt::Write>(&self, f: &mut fmt::Formatter<W>) -> fmt::Result {
        let octets = self.octets();
        let mut digits = [0; 30];
        let Ok(()) = hex::encode_to_slice(&octets, &mut digits) else {
            return Err(fmt::Error);
        };
        let Ok(text) = str::from_utf8(&digits) else {
            return Err(fmt::Error);
        };
        f.write_str(text)
    }
}
