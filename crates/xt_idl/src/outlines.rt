//! Declared types as their printed text shows them: what a definition uses stands by its name.
ghost use Rattle.std.specs.Prelude.{◌≡◌, ◌∷◌, [], true, false, Some, IfOk, IfSome};
ghost use Rattle.type_trees.specs.Trees as trees;
ghost use Rattle.type_trees.specs.View.{tree, struct_tree, union_tree};
ghost use Rattle.idl_printer.specs.Lines.{last_base, printed};
ghost use Rattle.idl_types.specs.State as state;
ghost use Rattle.idl_types.specs.Uses.{tree_at, whole};
ghost use Rattle.idl_types.specs.Definitions.{declared, defined, bases_before};
ghost use Rattle.idl_types.specs.Kept.{all_valid};
ghost use Rattle.xt_idl.specs.Outlines as spec;

use crate::light::disc_type;
use crate::standing::{
    Places, Stands, append_members, cases_of, structure_of, union_of, with_places,
};
use crate::trees::{bitmask, enumeration, trees_of};
use idl_printer::print;
use idl_types::{
    Declaration, Declarations, Definition, StructDefinition, UnionDefinition, Used, boxed,
    declaration_at,
};
use std::alloc::Global;
use type_trees::{AliasType, Base, Named, StructType, UnionType, XType};
use type_values::{copy_optional_text, copy_text};
use xt_lists::{OutOfMemory, Row, Text};
use xt_shapes::Prim;

/// An alias of this name.
#[tactic(auto, using(type_trees::proofs::Views::tree_rules))]
fn alias_named(alloc: Global, name: Option<Text>) -> Result<XType, OutOfMemory>
    ensures { IfOk result (λ t. tree t ≡ trees.alias name (trees.prim Prim.Boolean)) }
{
    let ty = XType::Prim(Prim::Boolean);
    Ok(XType::Alias(boxed(alloc, AliasType { name, ty })?))
}

/// The name of a type that is declared behind others.
fn name_in(
    alloc: Global,
    types: &[Declaration],
    declaration: &Declaration,
) -> Result<Option<Text>, OutOfMemory>
    ensures { IfOk result (λ name. trees.alias name (trees.prim Prim.Boolean) ≡ spec.use_outline (defined (declared types.now) declaration.now.name declaration.now.definition)) }
{
    match &declaration.definition {
        Definition::Enum(kind) => copy_optional_text(alloc, &kind.name),
        Definition::Mask(kind) => copy_optional_text(alloc, &kind.name),
        Definition::Struct(_) | Definition::Union(_) | Definition::Alias(_) => {
            Ok(Some(copy_text(alloc, &declaration.name)?))
        }
    }
}

/// Types that were declared before: its name stands for each.
#[derive(Drop)]
struct ByName<'a> {
    types: &'a [Declaration],
}

impl Places for ByName<'_> {
    ghost placed = { λ them at. spec.use_outline (tree_at (declared them.types.now) at) };

    /// A boolean where none stands there.
    fn at(&self, alloc: Global, at: usize) -> Result<XType, OutOfMemory> {
        let Some(declaration) = declaration_at(self.types, at) else {
            return Ok(XType::Prim(Prim::Boolean));
        };
        let name = name_in(alloc, &self.types[..at], declaration)?;
        alias_named(alloc, name)
    }
}

impl Stands for ByName<'_> {
    ghost stood = { λ them used. spec.use_outline (whole (declared them.types.now) used) };

    fn stand(&self, alloc: Global, used: &Used) -> Result<XType, OutOfMemory> {
        with_places(alloc, self, used)
    }
}

/// The base of this name, in front of no members.
fn base_named(alloc: Global, name: &Text) -> Result<Row<Base>, OutOfMemory>
    ensures { IfOk result (λ row. row ≡ (record { name = Some name.now; nested = false; hashed_ids = false; count = 0 }) ∷ []) }
{
    let mut row = Row::new(alloc);
    row.push(Base {
        name: Some(copy_text(alloc, name)?),
        nested: false,
        hashed_ids: false,
        count: 0,
    })?;
    Ok(row)
}

/// The name of a structure's base, where it has one.
#[tactic(auto, using(crate::proofs::Outlined::base_there))]
fn outline_base(
    alloc: Global,
    types: &[Declaration],
    base: Option<usize>,
) -> Result<Row<Base>, OutOfMemory>
    ensures { IfOk result (λ row. row ≡ spec.base_outline (last_base (bases_before (declared types.now) base))) }
{
    let Some(at) = base else {
        return Ok(Row::new(alloc));
    };
    let Some(declaration) = declaration_at(types, at) else {
        return Ok(Row::new(alloc));
    };
    match &declaration.definition {
        Definition::Struct(_) => base_named(alloc, &declaration.name),
        Definition::Enum(_) | Definition::Mask(_) | Definition::Union(_) | Definition::Alias(_) => {
            Ok(Row::new(alloc))
        }
    }
}

#[tactic(auto, using(crate::proofs::Outlined::own_behind))]
fn outline_structure(
    alloc: Global,
    types: &[Declaration],
    name: &Text,
    kind: &StructDefinition,
) -> Result<StructType, OutOfMemory>
    requires { all_valid (declared types.now) ≡ true }
    ensures { IfOk result (λ s. struct_tree s ≡ spec.outline (defined (declared types.now) name.now (Definition.Struct kind.now))) }
{
    let bases = outline_base(alloc, types, kind.base)?;
    let mut members = Row::new(alloc);
    let own = kind.members.as_slice();
    append_members(alloc, &ByName { types }, own, &mut members)?;
    let name = copy_text(alloc, name)?;
    Ok(structure_of(name, kind, bases, members))
}

/// A union with this discriminator.
#[tactic(auto, using(crate::proofs::Outlined::cases_are))]
fn outline_union(
    alloc: Global,
    types: &[Declaration],
    name: &Text,
    kind: &UnionDefinition,
    disc: XType,
) -> Result<UnionType, OutOfMemory>
    requires { tree disc ≡ whole (declared types.now) kind.now.disc }
    ensures { IfOk result (λ u. union_tree u ≡ spec.outline (defined (declared types.now) name.now (Definition.Union kind.now))) }
{
    let cases = cases_of(alloc, &ByName { types }, kind.cases.as_slice())?;
    let name = copy_text(alloc, name)?;
    Ok(union_of(name, kind, disc, cases))
}

/// A declared type; none where a union can't have its discriminator.
#[tactic(auto, using(type_trees::proofs::Views::tree_rules))]
fn outline_of(
    alloc: Global,
    types: &[Declaration],
    name: &Text,
    definition: &Definition,
) -> Result<Option<XType>, OutOfMemory>
    requires { all_valid (declared types.now) ≡ true }
    ensures { IfOk result (λ found. IfSome found (λ t. tree t ≡ spec.outline (defined (declared types.now) name.now definition.now))) }
{
    match definition {
        Definition::Enum(kind) => Ok(Some(enumeration(alloc, kind)?)),
        Definition::Mask(kind) => Ok(Some(bitmask(alloc, kind)?)),
        Definition::Struct(kind) => {
            let structure = outline_structure(alloc, types, name, kind)?;
            Ok(Some(XType::Struct(boxed(alloc, structure)?)))
        }
        Definition::Union(kind) => {
            let Some(disc) = disc_type(alloc, types, &kind.disc)? else {
                return Ok(None);
            };
            let union = outline_union(alloc, types, name, kind, disc)?;
            Ok(Some(XType::Union(boxed(alloc, union)?)))
        }
        Definition::Alias(used) => {
            let ty = ByName { types }.stand(alloc, used)?;
            let name = Some(copy_text(alloc, name)?);
            Ok(Some(XType::Alias(boxed(alloc, AliasType { name, ty })?)))
        }
    }
}

/// Declared types as their text shows them; none where a union can't have its discriminator.
#[tactic(auto, using(std::proofs::lemmas::List::map_push, crate::proofs::NamedAt::taken_more, crate::proofs::Outlined::valid_taken))]
fn outlines_of(alloc: Global, types: &[Declaration]) -> Result<Option<Row<Named>>, OutOfMemory>
    requires { all_valid (declared types.now) ≡ true }
    ensures { IfOk result (λ found. IfSome found (λ row. state.declared row ≡ spec.outlines (declared types.now))) }
{
    let mut row = Row::new(alloc);
    for at in 0..types.len() {
        let declaration = &types[at];
        let before = &types[..at];
        let Some(ty) = outline_of(alloc, before, &declaration.name, &declaration.definition)? else {
            return Ok(None);
        };
        let name = copy_text(alloc, &declaration.name)?;
        row.push(Named { name, ty })?;
    }
    Ok(Some(row))
}

/// The one text of the types that a text declares, as `print` has it of their trees. What a definition uses is not looked into.
#[tactic(auto, using(crate::proofs::Outlined::printed_outlines))]
pub fn print_declared(alloc: Global, types: &Declarations) -> Result<Text, OutOfMemory>
    ensures { IfOk result (λ text. text ≡ printed (declared types.now)) }
{
    let types = types.as_slice();
    match outlines_of(alloc, types)? {
        Some(outlines) => print(alloc, &outlines),
        None => print(alloc, &trees_of(alloc, types)?),
    }
}
