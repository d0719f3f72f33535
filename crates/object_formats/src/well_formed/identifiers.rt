ghost use Rattle.std.specs.Prelude.{◌≡◌};
ghost use Rattle.object_formats.specs.Objects as objects;
ghost use Rattle.object_formats.specs.Tables as spec;
ghost use Rattle.object_formats.specs.View as view;
ghost use Rattle.object_formats.specs.Heads as heads;

use crate::codes::{Flags, any_large, ek_of, is_plain, own_kind};
use crate::objects::TypeIdentifier;
use crate::well_formed::fields::are_flags;
use crate::well_formed::lists::each;
use type_trees::HashId;

#[tactic(auto, using(crate::proofs::Good::hash_good))]
fn is_hash(complete: bool, id: &HashId) -> bool
    ensures { result ≡ (spec.hashed complete).good (objects.hash id.now) }
{
    id.kind == own_kind(complete)
}

/// Whether what stands before the elements of a sequence or map is good; `plain` says whether no hash stands in them.
#[tactic(auto, using(crate::proofs::Good::bounded_head))]
fn is_bounded_head(complete: bool, plain: bool, ek: u8, flags: u16, bound: u32) -> bool
    ensures { result ≡ heads.is_bounded_head complete plain ek flags bound }
{
    are_flags(complete, Flags::Element, flags) && ek == ek_of(complete, plain)
}

/// The same of an array.
#[tactic(auto, using(crate::proofs::Good::array_head))]
fn is_array_head(complete: bool, plain: bool, ek: u8, flags: u16, dims: &[u32]) -> bool
    ensures { result ≡ heads.is_array_head complete plain ek flags dims.now }
{
    are_flags(complete, Flags::Element, flags)
        && ek == ek_of(complete, plain)
        && each(any_large(dims), dims)
}

/// Whether what stands before the identifiers in it is good; where there are none, whether the whole is.
#[tactic(auto, using(crate::proofs::Views::identifier_rules))]
fn is_head(complete: bool, ty: &TypeIdentifier) -> bool
    ensures { result ≡ heads.is_head complete (view.identifier ty.now) }
{
    match ty {
        TypeIdentifier::None => false,
        TypeIdentifier::Prim(_) | TypeIdentifier::Str { .. } => true,
        TypeIdentifier::Seq {
            ek,
            flags,
            bound,
            element,
        } => is_bounded_head(complete, is_plain(element), *ek, *flags, *bound),
        TypeIdentifier::Array {
            ek,
            flags,
            dims,
            element,
        } => is_array_head(complete, is_plain(element), *ek, *flags, dims.as_slice()),
        TypeIdentifier::Map {
            ek,
            flags,
            bound,
            value,
            key,
            ..
        } => {
            let plain = is_plain(value) && is_plain(key);
            is_bounded_head(complete, plain, *ek, *flags, *bound)
        }
        TypeIdentifier::Hash(id) => is_hash(complete, id),
    }
}

/// Whether it is a good identifier that nests at most so deep. A string's bound is good by its width.
#[tactic(auto, using(crate::proofs::Views::identifier_rules, crate::proofs::Good::nested_rules))]
fn nests(complete: bool, deep: u8, ty: &TypeIdentifier) -> bool
    ensures { result ≡ (spec.nested complete deep).good (view.identifier ty.now) }
{
    if deep == 0 || !is_head(complete, ty) {
        return false;
    }
    match ty {
        TypeIdentifier::None | TypeIdentifier::Prim(_) | TypeIdentifier::Hash(_) => true,
        TypeIdentifier::Str { bound } => {
            let _bound = *bound;
            true
        }
        TypeIdentifier::Seq { element, .. } | TypeIdentifier::Array { element, .. } => {
            nests(complete, deep - 1, element)
        }
        TypeIdentifier::Map {
            value,
            key_flags,
            key,
            ..
        } => {
            nests(complete, deep - 1, value)
                && are_flags(complete, Flags::Element, *key_flags)
                && nests(complete, deep - 1, key)
        }
    }
}

/// Whether it is a good identifier.
#[tactic(auto, unfolding(crate::specs::Tables::identifier))]
pub(crate) fn is_identifier(complete: bool, ty: &TypeIdentifier) -> bool
    ensures { result ≡ (spec.identifier complete).good (view.identifier ty.now) }
{
    nests(complete, 16, ty)
}

/// Whether it is a good base: none, or the hash of an object.
#[tactic(auto, using(crate::proofs::Views::identifier_rules), unfolding(crate::specs::Tables::base))]
pub(crate) fn is_base(complete: bool, ty: &TypeIdentifier) -> bool
    ensures { result ≡ (spec.base complete).good (view.identifier ty.now) }
{
    match ty {
        TypeIdentifier::None => true,
        TypeIdentifier::Hash(id) => is_hash(complete, id),
        TypeIdentifier::Prim(_) | TypeIdentifier::Str { .. } => false,
        TypeIdentifier::Seq { .. } | TypeIdentifier::Array { .. } => false,
        TypeIdentifier::Map { .. } => false,
    }
}
