ghost use Rattle.std.specs.Prelude.{◌≡◌, IfOk};
ghost use Rattle.object_formats.specs.View as view;
ghost use Rattle.type_resolve.specs.Objects as spec;
ghost use Rattle.type_resolve.specs.Views.{seen, side, forms, both_forms, base_in, member_sides, case_sides, parts_in, union_head};

use crate::flags::{ext_flag, set, type_flags};
use crate::parts::{flag_parts, literal_parts};
use crate::sides::{CaseSides, Identifiers, MemberSides, Sides};
use object_formats::{TypeIdentifier, TypeObject};
use std::alloc::Global;
use type_trees::{EnumType, MaskType};
use type_values::copy_optional_text;
use xt_lists::{OutOfMemory, Text};
use xt_shapes::Ext;

/// A type's minimal and complete object.
#[derive(Drop)]
pub(crate) struct Pair {
    pub(crate) minimal: TypeObject,
    pub(crate) complete: TypeObject,
}

/// What a structure or union has besides its parts.
#[derive(Clone, Copy)]
pub(crate) struct Header<'a> {
    pub(crate) name: &'a Option<Text>,
    pub(crate) ext: Ext,
    pub(crate) nested: bool,
    pub(crate) hashed_ids: bool,
}

pub(crate) fn alias_pair(
    alloc: Global,
    name: &Option<Text>,
    related: Sides,
) -> Result<Pair, OutOfMemory>
    ensures { IfOk result (λ p. forms p ≡ both_forms (λ c. spec.alias_object c name.now (side (seen related) c))) }
{
    let name = copy_optional_text(alloc, name)?;
    let Sides {
        plain: _,
        minimal,
        complete,
    } = related;
    Ok(Pair {
        minimal: TypeObject::Alias {
            name: None,
            related: minimal,
        },
        complete: TypeObject::Alias {
            name,
            related: complete,
        },
    })
}

pub(crate) fn enum_pair(alloc: Global, kind: &EnumType) -> Result<Pair, OutOfMemory>
    ensures { IfOk result (λ p. forms p ≡ both_forms (λ c. spec.enum_object c kind.now.name kind.now.ext kind.now.bits kind.now.literals)) }
{
    let name = copy_optional_text(alloc, &kind.name)?;
    let minimal = literal_parts(alloc, false, kind.literals.as_slice())?;
    let complete = literal_parts(alloc, true, kind.literals.as_slice())?;
    let flags = ext_flag(kind.ext);
    let bits = u16::from(kind.bits);
    Ok(Pair {
        minimal: TypeObject::Enum {
            name: None,
            flags,
            bits,
            literals: minimal,
        },
        complete: TypeObject::Enum {
            name,
            flags,
            bits,
            literals: complete,
        },
    })
}

pub(crate) fn mask_pair(alloc: Global, kind: &MaskType) -> Result<Pair, OutOfMemory>
    ensures { IfOk result (λ p. forms p ≡ both_forms (λ c. spec.mask_object c kind.now.name kind.now.bits kind.now.flags)) }
{
    let name = copy_optional_text(alloc, &kind.name)?;
    let minimal = flag_parts(alloc, false, kind.flags.as_slice())?;
    let complete = flag_parts(alloc, true, kind.flags.as_slice())?;
    let bits = u16::from(kind.bits);
    Ok(Pair {
        minimal: TypeObject::Mask {
            name: None,
            bits,
            flags: minimal,
        },
        complete: TypeObject::Mask {
            name,
            bits,
            flags: complete,
        },
    })
}

fn base_side(base: Option<Identifiers>, complete: bool) -> TypeIdentifier
    ensures { view.identifier result ≡ base_in base complete }
{
    match base {
        None => TypeIdentifier::None,
        Some(ids) if complete => TypeIdentifier::Hash(ids.complete),
        Some(ids) => TypeIdentifier::Hash(ids.minimal),
    }
}

/// A structure's objects, on the objects of its base.
pub(crate) fn struct_pair(
    alloc: Global,
    header: &Header<'_>,
    base: Option<Identifiers>,
    members: MemberSides,
) -> Result<Pair, OutOfMemory>
    ensures { IfOk result (λ p. forms p ≡ both_forms (λ c. spec.struct_object c header.now.name.now header.now.ext header.now.nested header.now.hashed_ids (base_in base c) (parts_in (member_sides members) c))) }
{
    let name = copy_optional_text(alloc, header.name)?;
    let MemberSides { minimal, complete } = members;
    Ok(Pair {
        minimal: TypeObject::Struct {
            name: None,
            flags: type_flags(false, header.ext, header.nested, header.hashed_ids),
            base: base_side(base, false),
            members: minimal,
        },
        complete: TypeObject::Struct {
            name,
            flags: type_flags(true, header.ext, header.nested, header.hashed_ids),
            base: base_side(base, true),
            members: complete,
        },
    })
}

/// A union's objects; `disc_key` says whether its discriminator is a key.
pub(crate) fn union_pair(
    alloc: Global,
    header: &Header<'_>,
    disc_key: bool,
    disc: Sides,
    cases: CaseSides,
) -> Result<Pair, OutOfMemory>
    ensures { IfOk result (λ p. forms p ≡ both_forms (λ c. spec.union_object c (union_head header.now disc_key) (side (seen disc) c) (parts_in (case_sides cases) c))) }
{
    let name = copy_optional_text(alloc, header.name)?;
    let Sides {
        plain: _,
        minimal: minimal_disc,
        complete: complete_disc,
    } = disc;
    let CaseSides { minimal, complete } = cases;
    let disc_flags = 1 + set(disc_key, 0x20);
    Ok(Pair {
        minimal: TypeObject::Union {
            name: None,
            flags: type_flags(false, header.ext, header.nested, header.hashed_ids),
            disc_flags,
            disc: minimal_disc,
            cases: minimal,
        },
        complete: TypeObject::Union {
            name,
            flags: type_flags(true, header.ext, header.nested, header.hashed_ids),
            disc_flags,
            disc: complete_disc,
            cases: complete,
        },
    })
}
