//! The objects of one definition, where those of the types before it were added.
ghost use Rattle.std.specs.Prelude.{◌≡◌, true, Some, IfOk};
ghost use Rattle.idl_types.specs.Definitions.{declared, defined, fits, base_fits};
ghost use Rattle.idl_types.specs.declared.declarations.Definition.TheVariants as definition_of;
ghost use Rattle.idl_types.specs.Kept.{all_valid};
ghost use Rattle.type_resolve.specs.Definitions as spec;
ghost use Rattle.type_resolve.specs.Definitions.{AreNamed};
ghost use Rattle.type_resolve.specs.Held.{AreHeld};
ghost use Rattle.type_resolve.specs.Objects.{texts};
ghost use Rattle.type_resolve.specs.Views.{Makes, Stores, itself, forms, both_forms, hashes_seen, sides};

use crate::adding::{add_pair, made};
use crate::numbers::Numbers;
use crate::objects::{Header, Pair, alias_pair, enum_pair, mask_pair, struct_pair, union_pair};
use crate::sides::Identifiers;
use crate::uses::{base_ids, own_cases, own_members, sides_of};
use idl_types::{Declaration, Definition, StructDefinition, UnionDefinition, Used};
use std::alloc::Global;
use type_object::{Pool, PoolFault};
use type_values::copy_text;
use xt_lists::Text;

/// A declaration's name as a type has it.
fn type_name(alloc: Global, name: &Text) -> Result<Option<Text>, PoolFault>
    ensures { Makes itself result (Some name.now) }
{
    let name = made(copy_text(alloc, name))?;
    Ok(Some(name))
}

fn alias_objects(
    alloc: Global,
    types: &[Declaration],
    ids: &[Identifiers],
    name: &Text,
    used: &Used,
) -> Result<Pair, PoolFault>
    requires { AreNamed (declared types.now) ids.now }
    ensures { Makes forms result (both_forms (λ c. spec.own_object c (declared types.now) name.now (definition_of.Alias used.now))) }
{
    let related = sides_of(alloc, types, ids, used)?;
    let name = type_name(alloc, name)?;
    made(alias_pair(alloc, &name, related))
}

fn union_objects(
    alloc: Global,
    types: &[Declaration],
    ids: &[Identifiers],
    name: &Text,
    kind: &UnionDefinition,
) -> Result<Pair, PoolFault>
    requires { AreNamed (declared types.now) ids.now }
    ensures { Makes forms result (both_forms (λ c. spec.own_object c (declared types.now) name.now (definition_of.Union kind.now))) }
{
    let disc = sides_of(alloc, types, ids, &kind.disc)?;
    let cases = own_cases(alloc, types, ids, kind.cases.as_slice())?;
    let name = type_name(alloc, name)?;
    let header = Header {
        name: &name,
        ext: kind.ext,
        nested: kind.nested,
        hashed_ids: kind.hashed_ids,
    };
    made(union_pair(alloc, &header, kind.disc_key, disc, cases))
}

/// A structure's objects have its own members alone, and name its base (DDS-XTypes 1.3, 7.3.4.3).
fn struct_objects<'a>(
    alloc: Global,
    types: &[Declaration],
    ids: &[Identifiers],
    name: &Text,
    kind: &'a StructDefinition,
    numbers: &mut Numbers<'a>,
) -> Result<Pair, PoolFault>
    requires named { AreNamed (declared types.now) ids.now }
    requires fits { base_fits (declared types.now) kind.now.ext kind.now.base ≡ true }
    ensures { Makes forms result (both_forms (λ c. spec.own_object c (declared types.now) name.now (definition_of.Struct kind.now))) }
{
    let members = own_members(alloc, types, ids, kind.members.as_slice(), numbers)?;
    let name = type_name(alloc, name)?;
    let header = Header {
        name: &name,
        ext: kind.ext,
        nested: kind.nested,
        hashed_ids: kind.hashed_ids,
    };
    let base = base_ids(types, ids, kind);
    made(struct_pair(alloc, &header, base, members))
}

/// The objects of a type that is declared behind others.
fn own_objects<'a>(
    alloc: Global,
    types: &[Declaration],
    ids: &[Identifiers],
    declaration: &'a Declaration,
    numbers: &mut Numbers<'a>,
) -> Result<Pair, PoolFault>
    requires named { AreNamed (declared types.now) ids.now }
    requires fits { fits (declared types.now) declaration.now.definition ≡ true }
    ensures { Makes forms result (both_forms (λ c. spec.own_object c (declared types.now) declaration.now.name declaration.now.definition)) }
{
    match &declaration.definition {
        Definition::Enum(kind) => made(enum_pair(alloc, kind)),
        Definition::Mask(kind) => made(mask_pair(alloc, kind)),
        Definition::Struct(kind) => {
            struct_objects(alloc, types, ids, &declaration.name, kind, numbers)
        }
        Definition::Union(kind) => union_objects(alloc, types, ids, &declaration.name, kind),
        Definition::Alias(used) => alias_objects(alloc, types, ids, &declaration.name, used),
    }
}

/// Adds the objects of a type that is declared behind others, whose objects were all added: what it uses is there, so that only its own
/// two objects are new (DDS-XTypes 1.3, 7.3.4).
pub(crate) fn add_declaration<'a>(
    alloc: Global,
    types: &[Declaration],
    ids: &[Identifiers],
    declaration: &'a Declaration,
    numbers: &mut Numbers<'a>,
    pool: &mut Pool,
) -> Result<Identifiers, PoolFault>
    requires named { AreNamed (declared types.now) ids.now }
    requires held { AreHeld pool.old (spec.types_texts (declared types.now)) }
    requires valid { all_valid (declared types.now) ≡ true }
    requires fits { fits (declared types.now) declaration.now.definition ≡ true }
    ensures { let whole = defined (declared types.now) declaration.now.name declaration.now.definition in Stores hashes_seen result pool.old (texts whole) pool.new (sides whole) }
{
    let pair = own_objects(alloc, types, ids, declaration, numbers)?;
    add_pair(alloc, pair, pool)
}
