//! Whether objects are well formed.
ghost use Rattle.std.specs.Prelude.{◌≡◌, map};
ghost use Rattle.object_formats.specs.Tables as spec;
ghost use Rattle.object_formats.specs.View as view;

mod fields;
mod identifiers;
mod lists;
mod parts;

use crate::codes::{Flags, is_complete};
use crate::objects::{
    ObjectCase, ObjectFlag, ObjectLiteral, ObjectMember, TypeIdentifier, TypeObject,
};
use fields::{are_flags, is_detail};
pub use fields::{allows, has_nul};
use identifiers::{is_base, is_identifier};
use lists::each;
use xt_lists::{Row, Text};

#[tactic(auto, using(crate::proofs::Good::alias_good))]
fn is_alias(complete: bool, name: &Option<Text>, related: &TypeIdentifier) -> bool
    ensures { result ≡ (spec.alias_body complete).good (name.now, view.identifier related.now) }
{
    is_detail(complete, name) && is_identifier(complete, related)
}

#[tactic(auto, using(crate::proofs::Good::enum_good))]
fn is_enum(
    complete: bool,
    name: &Option<Text>,
    flags: u16,
    bits: u16,
    literals: &Row<ObjectLiteral>,
) -> bool
    ensures { result ≡ (spec.enum_body complete).good (flags, ((bits, name.now), literals.now)) }
{
    are_flags(complete, Flags::Type, flags)
        && is_detail(complete, name)
        && each(complete, literals.as_slice())
}

#[tactic(auto, using(crate::proofs::Good::mask_good))]
fn is_mask(complete: bool, name: &Option<Text>, bits: u16, flags: &Row<ObjectFlag>) -> bool
    ensures { result ≡ (spec.mask_body complete).good ((bits, name.now), flags.now) }
{
    is_detail(complete, name) && each(complete, flags.as_slice())
}

#[tactic(auto, using(crate::proofs::Good::struct_good))]
fn is_struct(
    complete: bool,
    name: &Option<Text>,
    flags: u16,
    base: &TypeIdentifier,
    members: &Row<ObjectMember>,
) -> bool
    ensures { result ≡ (spec.struct_body complete).good (flags, ((view.identifier base.now, name.now), map view.member members.now)) }
{
    are_flags(complete, Flags::Type, flags)
        && is_base(complete, base)
        && is_detail(complete, name)
        && each(complete, members.as_slice())
}

#[tactic(auto, using(crate::proofs::Good::union_good))]
fn is_union(
    complete: bool,
    name: &Option<Text>,
    flags: u16,
    disc_flags: u16,
    disc: &TypeIdentifier,
    cases: &Row<ObjectCase>,
) -> bool
    ensures { result ≡ (spec.union_body complete).good (flags, (name.now, ((disc_flags, view.identifier disc.now), map view.case cases.now))) }
{
    are_flags(complete, Flags::Type, flags)
        && is_detail(complete, name)
        && are_flags(complete, Flags::Discriminator, disc_flags)
        && is_identifier(complete, disc)
        && each(complete, cases.as_slice())
}

/// Whether an object is well formed as a complete one, or as a minimal one.
fn is_good(complete: bool, object: &TypeObject) -> bool
    ensures { result ≡ (spec.kinds complete).good (view.object object.now) }
{
    match object {
        TypeObject::Alias { name, related } => is_alias(complete, name, related),
        TypeObject::Enum {
            name,
            flags,
            bits,
            literals,
        } => is_enum(complete, name, *flags, *bits, literals),
        TypeObject::Mask { name, bits, flags } => is_mask(complete, name, *bits, flags),
        TypeObject::Struct {
            name,
            flags,
            base,
            members,
        } => is_struct(complete, name, *flags, base, members),
        TypeObject::Union {
            name,
            flags,
            disc_flags,
            disc,
            cases,
        } => is_union(complete, name, *flags, *disc_flags, disc, cases),
    }
}

/// Whether an object is well formed: its text, where that is not too long, is read as that object. It takes no memory.
#[tactic(auto, unfolding(crate::specs::Tables::is_well_formed, crate::specs::Tables::object))]
pub fn is_well_formed(object: &TypeObject) -> bool
    ensures { result ≡ spec.is_well_formed (view.object object.now) }
{
    is_good(is_complete(object), object)
}
