//! Whether a definition is valid, where the types that were declared before are. What it uses of them is told by their measures.
ghost use Rattle.std.specs.Prelude.{◌≡◌, ◌≤◌, true, Some, None, IfOk, length};
ghost use Rattle.xt_shapes.specs.Lists.{all};
ghost use Rattle.node_rules.specs.Names.{scope_fits};
ghost use Rattle.node_rules.specs.Table.{failing};
ghost use Rattle.type_rules.specs.Valid.{type_fault};
ghost use Rattle.idl_types.specs.Definitions.{declared, defined, bases_before};
ghost use Rattle.xt_idl.specs.Light.{keys_keyable};
ghost use Rattle.xt_idl.specs.Numbers as numbers;
ghost use Rattle.xt_idl.specs.Measures as spec;

use crate::known::Known;
use crate::light::light_type;
use crate::measures::{Measure, measure_use};
use idl_types::{
    Declaration, Definition, StructDefinition, Used, UsedCase, UsedMember, declaration_at,
};
use node_rules::{dims_fit, failing_rule, is_scoped, name_fits};
use std::alloc::Global;
use xt_lists::{OutOfMemory, Text};
use xt_shapes::Try;

/// Whether an element, key or value of a collection may weigh so much.
#[tactic(auto, using(node_rules::proofs::Limits::light_test), unfolding(crate::specs::Measures::use_light))]
fn is_light(known: &Known<'_>, used: &Used) -> bool
    ensures { result ≡ spec.use_light (declared known.now.types.now) used.now }
{
    measure_use(known, used).weight <= 128
}

/// Whether a map may have this key and this value.
#[tactic(auto, unfolding(crate::specs::Measures::map_keeps))]
fn map_fits(known: &Known<'_>, key: &Used, value: &Used) -> bool
    ensures { result ≡ spec.map_keeps (declared known.now.types.now) key.now value.now }
{
    measure_use(known, key).is_map_key && is_light(known, key) && is_light(known, value)
}

/// Whether no rule is broken in a type where it is used.
#[tactic(auto, using(crate::proofs::ValidBy::use_rules))]
fn use_fits(known: &Known<'_>, used: &Used) -> bool
    ensures { result ≡ spec.use_keeps (declared known.now.types.now) used.now }
{
    match used {
        Used::Prim(_) | Used::Str(_) | Used::Declared(_) => true,
        Used::Seq { elem, .. } => is_light(known, elem) && use_fits(known, elem),
        Used::Array { dims, elem, .. } => {
            dims_fit(dims.as_slice()) && is_light(known, elem) && use_fits(known, elem)
        }
        Used::Map { key, value, .. } => {
            map_fits(known, key, value) && use_fits(known, key) && use_fits(known, value)
        }
    }
}

fn members_fit(known: &Known<'_>, members: &[UsedMember]) -> bool
    ensures { result ≡ all (λ m. spec.use_keeps (declared known.now.types.now) m.used) members.now }
{
    for member in members {
        if !use_fits(known, &member.used) {
            return false;
        }
    }
    true
}

fn cases_fit(known: &Known<'_>, cases: &[UsedCase]) -> bool
    ensures { result ≡ all (λ c. spec.use_keeps (declared known.now.types.now) c.used) cases.now }
{
    for case in cases {
        if !use_fits(known, &case.used) {
            return false;
        }
    }
    true
}

/// Whether no rule is broken in what a definition uses.
#[tactic(auto, unfolding(crate::specs::Measures::parts_keep))]
fn parts_fit(known: &Known<'_>, definition: &Definition) -> bool
    ensures { result ≡ spec.parts_keep (declared known.now.types.now) definition.now }
{
    match definition {
        Definition::Enum(_) | Definition::Mask(_) => true,
        Definition::Struct(kind) => members_fit(known, kind.members.as_slice()),
        Definition::Union(kind) => {
            use_fits(known, &kind.disc) && cases_fit(known, kind.cases.as_slice())
        }
        Definition::Alias(used) => use_fits(known, used),
    }
}

fn is_within(measure: &Measure) -> bool
    ensures { result ≡ spec.is_within measure.now }
{
    measure.depth <= 16
        && measure.nodes <= 65_536
        && measure.weight <= 65_536
        && measure.members.keys_keyable
}

fn member_fits(member: &UsedMember) -> bool
    ensures { result ≡ numbers.member_fits member.now }
{
    name_fits(&member.name) && member.id < 0x0fff_ffff && (!member.key || member.tc == Try::Discard)
}

fn each_fits(members: &[UsedMember]) -> bool
    ensures { result ≡ all numbers.member_fits members.now }
{
    for member in members {
        if !member_fits(member) {
            return false;
        }
    }
    true
}

/// How many bases come before a structure that has this one.
fn count_bases(types: &[Declaration], base: Option<usize>) -> usize
    ensures count { result ≡ length (bases_before (declared types.now) base) }
    ensures bound { result ≤ length types.now }
{
    let Some(at) = base else {
        return 0;
    };
    let Some(declaration) = declaration_at(types, at) else {
        return 0;
    };
    match &declaration.definition {
        Definition::Struct(kind) => 1 + count_bases(&types[..at], kind.base),
        Definition::Enum(_) | Definition::Mask(_) | Definition::Union(_) | Definition::Alias(_) =>
            0,
    }
}

fn is_named(name: &Text) -> bool
    ensures { result ≡ scope_fits (Some name.now) }
{
    name.len() <= 255 && is_scoped(name.octets())
}

/// Whether a structure keeps the rules at its node, but that its keys may have their types, where its base keeps them and it is told whether
/// its members' numbers are apart.
#[tactic(auto, unfolding(crate::specs::Numbers::structure_keeps))]
fn structure_fits(
    types: &[Declaration],
    name: &Text,
    kind: &StructDefinition,
    are_apart: bool,
) -> bool
    requires { are_apart ≡ numbers.are_apart (declared types.now) (Definition.Struct kind.now) }
    ensures { result ≡ numbers.structure_keeps (declared types.now) name.now kind.now }
{
    are_apart
        && is_named(name)
        && kind.members.len() > 0
        && count_bases(types, kind.base) <= 15
        && each_fits(kind.members.as_slice())
}

/// Whether no rule is broken at the node of a definition, but whether keys may have their types.
#[tactic(auto, using(crate::proofs::Lightened::failing_light, crate::proofs::StructureClear::structure_clear))]
fn node_fits(
    alloc: Global,
    known: &Known<'_>,
    name: &Text,
    definition: &Definition,
    are_apart: bool,
) -> Result<bool, OutOfMemory>
    requires { are_apart ≡ numbers.are_apart (declared known.now.types.now) definition.now }
    ensures { let t = defined (declared known.now.types.now) name.now definition.now in IfOk result (λ fits. fits ≡ true → keys_keyable t ≡ true → failing t ≡ None) }
{
    if let Definition::Struct(kind) = definition {
        return Ok(structure_fits(known.types, name, kind, are_apart));
    }
    match light_type(alloc, known.types, name, definition)? {
        Some(ty) => Ok(failing_rule(&ty).is_none()),
        None => Ok(false),
    }
}

/// Whether a definition of this measure is found to be valid, where it is told whether its members' numbers are apart.
#[tactic(auto, using(crate::proofs::ValidBy::valid_by))]
pub(crate) fn is_valid(
    alloc: Global,
    known: &Known<'_>,
    measure: &Measure,
    name: &Text,
    definition: &Definition,
    are_apart: bool,
) -> Result<bool, OutOfMemory>
    requires measure { measure.now ≡ spec.measured (defined (declared known.now.types.now) name.now definition.now) }
    requires apart { are_apart ≡ numbers.are_apart (declared known.now.types.now) definition.now }
    ensures { IfOk result (λ valid. valid ≡ true → type_fault (defined (declared known.now.types.now) name.now definition.now) ≡ None) }
{
    if is_within(measure) && parts_fit(known, definition) {
        node_fits(alloc, known, name, definition, are_apart)
    } else {
        Ok(false)
    }
}
