ghost use Rattle.std.specs.Prelude.{◌≡◌, false, true};
ghost use Rattle.type_trees.specs.Trees as trees;
ghost use Rattle.type_trees.specs.View.{tree, alias_tree, array_tree, map_tree, sequence_tree, member_tree, struct_tree, union_tree, members_tree, cases_tree};
ghost use Rattle.type_resolve.specs.Objects as spec;
ghost use Rattle.type_resolve.specs.Held.{AreHeld};
ghost use Rattle.type_resolve.specs.Views.{Makes, Stores, seen, sides, hashes_seen, member_sides, case_sides};

use crate::adding::add_made;
use crate::collections::{of_array, of_hashes, of_map, of_prim, of_sequence, of_string};
use crate::heads::{of_case, of_member};
use crate::making::Making;
use crate::objects::{Header, alias_pair, enum_pair, mask_pair, struct_pair, union_pair};
use crate::sides::{CaseSides, Identifiers, MemberSides, Sides};
use std::alloc::Global;
use type_object::PoolFault;
use type_trees::{
    AliasType, ArrayType, Case, EnumType, MapType, MaskType, Member, SeqType, StructType,
    UnionType, XType,
};

pub(crate) fn enumeration(
    alloc: Global,
    kind: &EnumType,
    pool: &mut Making<'_>,
) -> Result<Identifiers, PoolFault>
    ensures { Stores hashes_seen result pool.old (spec.texts (trees.enumeration kind.now.name kind.now.ext kind.now.bits kind.now.literals)) pool.new (sides (trees.enumeration kind.now.name kind.now.ext kind.now.bits kind.now.literals)) }
{
    add_made(alloc, enum_pair(alloc, kind), pool)
}

pub(crate) fn bitmask(
    alloc: Global,
    kind: &MaskType,
    pool: &mut Making<'_>,
) -> Result<Identifiers, PoolFault>
    ensures { Stores hashes_seen result pool.old (spec.texts (trees.bitmask kind.now.name kind.now.bits kind.now.flags)) pool.new (sides (trees.bitmask kind.now.name kind.now.bits kind.now.flags)) }
{
    add_made(alloc, mask_pair(alloc, kind), pool)
}

/// Keeps in mind a type whose objects were all added, and gives what it is named by.
fn keep<'a>(ty: &'a XType, ids: Identifiers, pool: &mut Making<'a>) -> Result<Sides, PoolFault>
    requires held { AreHeld pool.old (spec.texts (tree ty.now)) }
    requires named { hashes_seen ids ≡ sides (tree ty.now) }
    ensures made { Makes seen result (sides (tree ty.now)) }
    ensures same { pool.new ≡ pool.old }
{
    match pool.keep(ty, ids) {
        Ok(()) => Ok(of_hashes(ids)),
        Err(_) => Err(PoolFault::OutOfMemory),
    }
}

/// Adds the objects that a type needs, and gives what it is named by. A type that has a name and was met before is not made again.
#[cycle(objects)]
#[tactic(auto, using(type_trees::proofs::Views::tree_rules))]
fn identify<'a>(alloc: Global, ty: &'a XType, pool: &mut Making<'a>) -> Result<Sides, PoolFault>
    ensures { Stores seen result pool.old (spec.texts (tree ty.now)) pool.new (sides (tree ty.now)) }
{
    if let Some(ids) = pool.known(ty) {
        return Ok(of_hashes(ids));
    }
    match ty {
        XType::Prim(prim) => Ok(of_prim(*prim)),
        XType::Str(bound) => Ok(of_string(*bound)),
        XType::Enum(kind) => {
            let ids = enumeration(alloc, kind, pool)?;
            keep(ty, ids, pool)
        }
        XType::Mask(kind) => {
            let ids = bitmask(alloc, kind, pool)?;
            keep(ty, ids, pool)
        }
        XType::Seq(kind) => sequence(alloc, kind, pool),
        XType::Array(kind) => array(alloc, kind, pool),
        XType::Map(kind) => map(alloc, kind, pool),
        XType::Struct(kind) => {
            let ids = structure(alloc, kind, pool)?;
            keep(ty, ids, pool)
        }
        XType::Union(kind) => {
            let ids = union(alloc, kind, pool)?;
            keep(ty, ids, pool)
        }
        XType::Alias(kind) => {
            let ids = alias(alloc, kind, pool)?;
            keep(ty, ids, pool)
        }
    }
}

#[cycle(objects)]
fn sequence<'a>(alloc: Global, kind: &'a SeqType, pool: &mut Making<'a>) -> Result<Sides, PoolFault>
    ensures { Stores seen result pool.old (spec.texts (sequence_tree kind.now)) pool.new (sides (sequence_tree kind.now)) }
{
    let element = identify(alloc, &kind.elem.ty, pool)?;
    of_sequence(alloc, kind.bound, kind.elem.tc, element)
}

#[cycle(objects)]
fn array<'a>(alloc: Global, kind: &'a ArrayType, pool: &mut Making<'a>) -> Result<Sides, PoolFault>
    ensures { Stores seen result pool.old (spec.texts (array_tree kind.now)) pool.new (sides (array_tree kind.now)) }
{
    let element = identify(alloc, &kind.elem.ty, pool)?;
    of_array(alloc, &kind.dims, kind.elem.tc, element)
}

#[cycle(objects)]
fn map<'a>(alloc: Global, kind: &'a MapType, pool: &mut Making<'a>) -> Result<Sides, PoolFault>
    ensures { Stores seen result pool.old (spec.texts (map_tree kind.now)) pool.new (sides (map_tree kind.now)) }
{
    let key = identify(alloc, &kind.key.ty, pool)?;
    let value = identify(alloc, &kind.value.ty, pool)?;
    of_map(alloc, kind.bound, kind.key.tc, key, kind.value.tc, value)
}

#[cycle(objects)]
pub(crate) fn alias<'a>(
    alloc: Global,
    kind: &'a AliasType,
    pool: &mut Making<'a>,
) -> Result<Identifiers, PoolFault>
    ensures { Stores hashes_seen result pool.old (spec.texts (alias_tree kind.now)) pool.new (sides (alias_tree kind.now)) }
{
    let related = identify(alloc, &kind.ty, pool)?;
    add_made(alloc, alias_pair(alloc, &kind.name, related), pool)
}

#[cycle(objects)]
pub(crate) fn union<'a>(
    alloc: Global,
    kind: &'a UnionType,
    pool: &mut Making<'a>,
) -> Result<Identifiers, PoolFault>
    ensures { Stores hashes_seen result pool.old (spec.texts (union_tree kind.now)) pool.new (sides (union_tree kind.now)) }
{
    let disc = identify(alloc, &kind.disc, pool)?;
    let cases = cases(alloc, kind.cases.as_slice(), pool)?;
    let header = Header {
        name: &kind.name,
        ext: kind.ext,
        nested: kind.nested,
        hashed_ids: kind.hashed_ids,
    };
    add_made(
        alloc,
        union_pair(alloc, &header, kind.disc_key, disc, cases),
        pool,
    )
}

/// A structure's bases come first, the outermost one before the others.
#[cycle(objects)]
pub(crate) fn structure<'a>(
    alloc: Global,
    kind: &'a StructType,
    pool: &mut Making<'a>,
) -> Result<Identifiers, PoolFault>
    ensures { Stores hashes_seen result pool.old (spec.texts (struct_tree kind.now)) pool.new (sides (struct_tree kind.now)) }
{
    let mut base = None;
    let mut had = 0;
    for layer in kind.bases.as_slice() {
        let count = layer.count as usize;
        let parts = members(alloc, kind.members.as_slice(), had, count, pool)?;
        let header = Header {
            name: &layer.name,
            ext: kind.ext,
            nested: layer.nested,
            hashed_ids: layer.hashed_ids,
        };
        base = Some(add_made(alloc, struct_pair(alloc, &header, base, parts), pool)?);
        had = had.max(count);
    }
    let count = kind.members.len();
    let parts = members(alloc, kind.members.as_slice(), had, count, pool)?;
    let header = Header {
        name: &kind.name,
        ext: kind.ext,
        nested: kind.nested,
        hashed_ids: kind.hashed_ids,
    };
    add_made(alloc, struct_pair(alloc, &header, base, parts), pool)
}

/// The members behind the first `had`, up to a count.
fn between(members: &[Member], had: usize, count: usize) -> &[Member]
    ensures { result.now ≡ spec.between had count members.now }
{
    let up_to = if count < members.len() {
        &members[..count]
    } else {
        members
    };
    if had < up_to.len() {
        &up_to[had..]
    } else {
        &[]
    }
}

#[cycle(objects)]
#[tactic(auto, using(type_trees::proofs::Views::member_tree_is))]
fn member_type<'a>(
    alloc: Global,
    member: &'a Member,
    pool: &mut Making<'a>,
) -> Result<Sides, PoolFault>
    ensures { Stores seen result pool.old (spec.texts (member_tree member.now).1) pool.new (sides (member_tree member.now).1) }
{
    identify(alloc, &member.ty, pool)
}

/// The members behind the first `had`, up to a count.
#[cycle(objects)]
fn members<'a>(
    alloc: Global,
    members: &'a [Member],
    had: usize,
    count: usize,
    pool: &mut Making<'a>,
) -> Result<MemberSides, PoolFault>
    ensures { let own = members_tree (spec.between had count members.now) in Stores member_sides result pool.old (spec.joined (spec.member_texts own)) pool.new (spec.member_parts false own, spec.member_parts true own) }
{
    let own = between(members, had, count);
    let mut parts = MemberSides::new(alloc);
    for member in own {
        let number = pool.number_of(&member.name);
        let ty = member_type(alloc, member, pool)?;
        parts.push(alloc, number, &of_member(member), ty)?;
    }
    Ok(parts)
}

#[cycle(objects)]
fn cases<'a>(
    alloc: Global,
    cases: &'a [Case],
    pool: &mut Making<'a>,
) -> Result<CaseSides, PoolFault>
    ensures { Stores case_sides result pool.old (spec.case_texts (cases_tree cases.now)) pool.new (spec.case_parts false (cases_tree cases.now), spec.case_parts true (cases_tree cases.now)) }
{
    let mut parts = CaseSides::new(alloc);
    for case in cases {
        let ty = identify(alloc, &case.ty, pool)?;
        parts.push(alloc, &of_case(case), ty)?;
    }
    Ok(parts)
}
