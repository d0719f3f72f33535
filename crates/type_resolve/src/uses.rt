//! What a type is named by where a definition uses it: what the definition adds to the types before it.
ghost use Rattle.std.specs.Prelude.{◌≡◌, true, false, map, slice_get};
ghost use Rattle.idl_types.specs.Definitions.{declared, base_fits};
ghost use Rattle.idl_types.specs.Uses.{tree_at, whole};
ghost use Rattle.type_resolve.specs.Definitions as spec;
ghost use Rattle.type_resolve.specs.Definitions.{AreNamed};
ghost use Rattle.type_resolve.specs.Views.{Makes, seen, sides, base_in, member_sides, case_sides};

use crate::collections::{of_array, of_hashes, of_map, of_prim, of_sequence, of_string};
use crate::heads::{of_used_case, of_used_member};
use crate::numbers::Numbers;
use crate::sides::{CaseSides, Identifiers, MemberSides, Sides};
use idl_types::{Declaration, StructDefinition, Used, UsedCase, UsedMember};
use std::alloc::Global;
use type_object::PoolFault;
use xt_shapes::Prim;

fn ids_at(ids: &[Identifiers], at: usize) -> Option<Identifiers>
    ensures { result ≡ slice_get ids.now at }
{
    ids.get(at).copied()
}

/// What the type at a place is named by; a boolean's where none stands there.
fn sides_at(types: &[Declaration], ids: &[Identifiers], at: usize) -> Sides
    requires { AreNamed (declared types.now) ids.now }
    ensures { seen result ≡ sides (tree_at (declared types.now) at) }
{
    match ids_at(ids, at) {
        Some(ids) => of_hashes(ids),
        None => of_prim(Prim::Boolean),
    }
}

/// What a type is named by where it is used (DDS-XTypes 1.3, 7.3.4.2). A declared type is not looked into.
#[tactic(auto, using(idl_types::proofs::Wholes::whole_rules))]
pub(crate) fn sides_of(
    alloc: Global,
    types: &[Declaration],
    ids: &[Identifiers],
    used: &Used,
) -> Result<Sides, PoolFault>
    requires { AreNamed (declared types.now) ids.now }
    ensures { Makes seen result (sides (whole (declared types.now) used.now)) }
{
    match used {
        Used::Prim(prim) => Ok(of_prim(*prim)),
        Used::Str(bound) => Ok(of_string(*bound)),
        Used::Seq { bound, tc, elem } => {
            let element = sides_of(alloc, types, ids, elem)?;
            of_sequence(alloc, *bound, *tc, element)
        }
        Used::Array { dims, tc, elem } => {
            let element = sides_of(alloc, types, ids, elem)?;
            of_array(alloc, dims, *tc, element)
        }
        Used::Map {
            bound,
            key_tc,
            key,
            tc,
            value,
        } => {
            let key = sides_of(alloc, types, ids, key)?;
            let value = sides_of(alloc, types, ids, value)?;
            of_map(alloc, *bound, *key_tc, key, *tc, value)
        }
        Used::Declared(at) => Ok(sides_at(types, ids, *at)),
    }
}

/// The identifiers of a structure's base, where it has one.
pub(crate) fn base_ids(
    types: &[Declaration],
    ids: &[Identifiers],
    kind: &StructDefinition,
) -> Option<Identifiers>
    requires named { AreNamed (declared types.now) ids.now }
    requires fits { base_fits (declared types.now) kind.now.ext kind.now.base ≡ true }
    ensures minimal { base_in result false ≡ spec.base_identifier false (declared types.now) kind.now.base }
    ensures complete { base_in result true ≡ spec.base_identifier true (declared types.now) kind.now.base }
{
    match kind.base {
        Some(at) => ids_at(ids, at),
        None => None,
    }
}

/// A structure's own members, in minimal and in complete objects.
pub(crate) fn own_members<'a>(
    alloc: Global,
    types: &[Declaration],
    ids: &[Identifiers],
    members: &'a [UsedMember],
    numbers: &mut Numbers<'a>,
) -> Result<MemberSides, PoolFault>
    requires { AreNamed (declared types.now) ids.now }
    ensures { let ts = declared types.now in Makes member_sides result (map (spec.used_member_part false ts) members.now, map (spec.used_member_part true ts) members.now) }
{
    let mut parts = MemberSides::new(alloc);
    for member in members {
        let number = numbers.number_of(&member.name);
        let ty = sides_of(alloc, types, ids, &member.used)?;
        parts.push(alloc, number, &of_used_member(member), ty)?;
    }
    Ok(parts)
}

/// A union's cases, in minimal and in complete objects.
pub(crate) fn own_cases(
    alloc: Global,
    types: &[Declaration],
    ids: &[Identifiers],
    cases: &[UsedCase],
) -> Result<CaseSides, PoolFault>
    requires { AreNamed (declared types.now) ids.now }
    ensures { let ts = declared types.now in Makes case_sides result (map (spec.used_case_part false ts) cases.now, map (spec.used_case_part true ts) cases.now) }
{
    let mut parts = CaseSides::new(alloc);
    for case in cases {
        let ty = sides_of(alloc, types, ids, &case.used)?;
        parts.push(alloc, &of_used_case(case), ty)?;
    }
    Ok(parts)
}
