ghost use Rattle.std.specs.Prelude.{◌≡◌};
ghost use Rattle.object_formats.specs.Tables as spec;
ghost use Rattle.object_formats.specs.View.{identifier, object};

use crate::objects::{TypeIdentifier, TypeObject};
use xt_shapes::Prim;

/// What an identifier's first octet says. A large form has 32 bits for each bound, and stands where one is 256 or more.
#[derive(Debug, Clone, Copy, PartialEq, Eq)]
pub enum Code {
    Prim(Prim),
    Str(bool),
    Seq(bool),
    Array(bool),
    Map(bool),
    Hash,
}

/// The kinds of object.
#[derive(Debug, Clone, Copy, PartialEq, Eq)]
pub enum Kind {
    Alias,
    Enum,
    Mask,
    Struct,
    Union,
}

/// The fields of flags.
#[derive(Debug, Clone, Copy, PartialEq, Eq)]
pub enum Flags {
    Element,
    Literal,
    Member,
    Case,
    Discriminator,
    Type,
}

/// The kind octet of an object and of the hashes in it.
pub fn own_kind(complete: bool) -> u8
    ensures { result ≡ spec.own complete }
{
    if complete { 0xF2 } else { 0xF1 }
}

/// What says of which kind the hashes in a collection are: 0xF3 where there are none.
pub fn ek_of(complete: bool, plain: bool) -> u8
    ensures { result ≡ spec.ek_of complete plain }
{
    if plain { 0xF3 } else { own_kind(complete) }
}

/// Whether an array with these dimensions has the large form.
pub fn any_large(dims: &[u32]) -> bool
    ensures { result ≡ spec.any_large dims.now }
{
    dims.iter().any(|size| 256 <= *size)
}

/// Whether no hash stands in it.
#[tactic(auto, using(crate::proofs::Views::identifier_rules), unfolding(crate::specs::Tables::is_plain))]
pub fn is_plain(ty: &TypeIdentifier) -> bool
    ensures { result ≡ spec.is_plain (identifier ty.now) }
{
    match ty {
        TypeIdentifier::None | TypeIdentifier::Prim(_) | TypeIdentifier::Str { .. } => true,
        TypeIdentifier::Seq { element, .. } | TypeIdentifier::Array { element, .. } => {
            is_plain(element)
        }
        TypeIdentifier::Map { value, key, .. } => is_plain(value) && is_plain(key),
        TypeIdentifier::Hash(_) => false,
    }
}

/// Whether an object is complete: where it has its type's name.
pub fn is_complete(ty: &TypeObject) -> bool
    ensures { result ≡ spec.is_complete (object ty.now) }
{
    match ty {
        TypeObject::Alias { name, .. }
        | TypeObject::Enum { name, .. }
        | TypeObject::Mask { name, .. }
        | TypeObject::Struct { name, .. }
        | TypeObject::Union { name, .. } => name.is_some(),
    }
}
