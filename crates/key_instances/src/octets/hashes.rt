//! The hashes of keys.
ghost use Rattle.std.specs.Prelude.{◌≡◌, ◌<◌, ◌^◌, length, true, false, IfOk, IsTrue};
ghost use Rattle.xt_shapes.specs.Typing.{has_type};
ghost use Rattle.type_trees.specs.Bridge.{type_shape};
ghost use Rattle.type_trees.specs.View.{val};
ghost use Rattle.projection_laws.specs.Premises.{IsValid};
ghost use Rattle.xcdr_model.specs.KeyOctets as spec;

use crate::octets::lengths::short_key;
use crate::octets::parts::key_octets;
use md5::{Digest, Md5};
use std::alloc::Global;
use type_trees::{Value, XType};
use xt_lists::OutOfMemory;

/// The octets with zeros behind them, up to 16.
fn padded(octets: &[u8]) -> [u8; 16]
    ensures { result ≡ spec.hash_of true octets.now }
{
    let mut hash = [0; 16];
    let count = octets.len().min(16);
    hash[..count].copy_from_slice(&octets[..count]);
    hash
}

fn digest(octets: &[u8]) -> [u8; 16]
    ensures { result ≡ spec.hash_of false octets.now }
{
    let mut hasher = Md5::new();
    hasher.update(octets);
    hasher.finalize()
}

/// The hash of a key's octets, of a type whose keys are short or not: the octets with zeros behind them, or their MD5 (DDS-XTypes 1.3,
/// 7.6.8). It takes no memory.
pub fn hash_of(short: bool, octets: &[u8]) -> [u8; 16]
    ensures { result ≡ spec.hash_of short octets.now }
{
    if short {
        padded(octets)
    } else {
        digest(octets)
    }
}

/// The hash of a value's key: its octets with zeros behind them where the keys of the type are short, else their MD5 (DDS-XTypes 1.3,
/// 7.6.8). The conditions are those of `key_octets`.
pub fn key_hash(alloc: Global, ty: &XType, value: &Value) -> Result<[u8; 16], OutOfMemory>
    requires valid { IsValid ty.now }
    requires typed { IsTrue (has_type (type_shape ty.now) (val value.now)) }
    requires few { length (spec.key_octets (type_shape ty.now) (val value.now)) < 2 ^ 32 }
    ensures { IfOk result (λ hash. hash ≡ spec.key_hash (type_shape ty.now) (val value.now)) }
{
    let octets = key_octets(alloc, ty, value)?;
    Ok(hash_of(short_key(ty), octets.octets()))
}
