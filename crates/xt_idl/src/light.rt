//! A definition without the types of its cases: what the rules at its own node look at.
ghost use Rattle.std.specs.Prelude.{◌≡◌, IfOk, IfSome};
ghost use Rattle.xt_shapes.specs.declared.leaves.Primitive.TheVariants.{Boolean};
ghost use Rattle.type_trees.specs.Trees as trees;
ghost use Rattle.type_trees.specs.View.{tree, union_tree};
ghost use Rattle.idl_types.specs.Uses.{tree_at, whole};
ghost use Rattle.idl_types.specs.Definitions.{declared, defined};
ghost use Rattle.xt_idl.specs.Light as spec;

use crate::standing::{Stands, cases_of, union_of};
use crate::trees::{bitmask, enumeration};
use idl_types::{Declaration, Definition, UnionDefinition, Used, boxed, declaration_at};
use std::alloc::Global;
use type_trees::{AliasType, UnionType, XType};
use type_values::copy_text;
use xt_lists::{OutOfMemory, Text};
use xt_shapes::Prim;

/// A boolean stands for every type.
#[derive(Drop)]
struct Bare;

impl Stands for Bare {
    ghost stood = { λ bare used. trees.prim Boolean };

    #[tactic(auto, using(type_trees::proofs::Views::tree_rules))]
    fn stand(&self, _alloc: Global, _used: &Used) -> Result<XType, OutOfMemory> {
        Ok(XType::Prim(Prim::Boolean))
    }
}

/// The type at a place, where a discriminator may have it.
#[cycle(disc)]
#[tactic(auto, using(type_trees::proofs::Views::tree_rules))]
fn disc_at(alloc: Global, types: &[Declaration], at: usize) -> Result<Option<XType>, OutOfMemory>
    ensures { IfOk result (λ found. IfSome found (λ t. tree t ≡ tree_at (declared types.now) at)) }
{
    let Some(declaration) = declaration_at(types, at) else {
        return Ok(None);
    };
    match &declaration.definition {
        Definition::Enum(kind) => Ok(Some(enumeration(alloc, kind)?)),
        Definition::Alias(used) => {
            let Some(ty) = disc_type(alloc, &types[..at], used)? else {
                return Ok(None);
            };
            let name = Some(copy_text(alloc, &declaration.name)?);
            Ok(Some(XType::Alias(boxed(alloc, AliasType { name, ty })?)))
        }
        Definition::Mask(_) | Definition::Struct(_) | Definition::Union(_) => Ok(None),
    }
}

/// A discriminator's type, where a discriminator may have it.
#[cycle(disc)]
#[tactic(auto, using(type_trees::proofs::Views::tree_rules, idl_types::proofs::Wholes::whole_rules))]
pub(crate) fn disc_type(
    alloc: Global,
    types: &[Declaration],
    used: &Used,
) -> Result<Option<XType>, OutOfMemory>
    ensures { IfOk result (λ found. IfSome found (λ t. tree t ≡ whole (declared types.now) used.now)) }
{
    match used {
        Used::Prim(prim) => Ok(Some(XType::Prim(*prim))),
        Used::Declared(at) => disc_at(alloc, types, *at),
        Used::Str(_) | Used::Seq { .. } | Used::Array { .. } | Used::Map { .. } => Ok(None),
    }
}

fn light_union(
    alloc: Global,
    types: &[Declaration],
    name: &Text,
    kind: &UnionDefinition,
    disc: XType,
) -> Result<UnionType, OutOfMemory>
    requires { tree disc ≡ whole (declared types.now) kind.now.disc }
    ensures { IfOk result (λ u. union_tree u ≡ spec.light (defined (declared types.now) name.now (Definition.Union kind.now))) }
{
    let cases = cases_of(alloc, &Bare, kind.cases.as_slice())?;
    let name = copy_text(alloc, name)?;
    Ok(union_of(name, kind, disc, cases))
}

/// A definition without the types of its cases. None of a structure, which is tried as it stands, and where a union can't have its
/// discriminator.
#[tactic(auto, using(type_trees::proofs::Views::tree_rules))]
pub(crate) fn light_type(
    alloc: Global,
    types: &[Declaration],
    name: &Text,
    definition: &Definition,
) -> Result<Option<XType>, OutOfMemory>
    ensures { IfOk result (λ found. IfSome found (λ t. tree t ≡ spec.light (defined (declared types.now) name.now definition.now))) }
{
    match definition {
        Definition::Enum(kind) => Ok(Some(enumeration(alloc, kind)?)),
        Definition::Mask(kind) => Ok(Some(bitmask(alloc, kind)?)),
        Definition::Struct(_) => Ok(None),
        Definition::Union(kind) => {
            let Some(disc) = disc_type(alloc, types, &kind.disc)? else {
                return Ok(None);
            };
            let union = light_union(alloc, types, name, kind, disc)?;
            Ok(Some(XType::Union(boxed(alloc, union)?)))
        }
        Definition::Alias(_) => {
            let name = Some(copy_text(alloc, name)?);
            let ty = XType::Prim(Prim::Boolean);
            Ok(Some(XType::Alias(boxed(alloc, AliasType { name, ty })?)))
        }
    }
}
