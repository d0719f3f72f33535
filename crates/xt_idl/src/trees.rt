//! Declared types as trees: where a definition uses a declared type, a copy of its tree stands.
ghost use Rattle.std.specs.Prelude.{◌≡◌, [], map, slice_get, IfOk};
ghost use Rattle.std.specs.Option.{option_map};
ghost use Rattle.type_trees.specs.View.{tree, member_tree, struct_tree};
ghost use Rattle.type_trees.specs.Trees as trees;
ghost use Rattle.idl_types.specs.State.{declared};
ghost use Rattle.idl_types.specs.Uses.{tree_at, whole};
ghost use Rattle.idl_types.specs.Definitions as spec;
ghost use Rattle.idl_types.specs.Definitions.{declared as declarations_view};
ghost use Rattle.idl_types.specs.Definitions.{defined, members_before, bases_before, members_on, bases_on};

use crate::standing::{
    Places, Stands, append_members, cases_of, structure_of, union_of, with_places,
};
use idl_types::{Declaration, Definition, StructDefinition, UnionDefinition, Used, boxed};
use std::alloc::Global;
use type_trees::{AliasType, Base, EnumType, MaskType, Member, Named, StructType, XType};
use type_values::{
    copy_bases, copy_flags, copy_literals, copy_members, copy_optional_text, copy_text, copy_type,
};
use xt_lists::{OutOfMemory, Row, Text};
use xt_shapes::Prim;

fn named_at(types: &[Named], at: usize) -> Option<&Named>
    ensures { option_map (λ n. n.now) result ≡ slice_get types.now at }
{
    types.get(at)
}

/// Types that were declared before: a copy of its tree stands for each.
#[derive(Drop)]
struct Copies<'a> {
    types: &'a [Named],
}

impl Places for Copies<'_> {
    ghost placed = { λ copies. tree_at (declared copies.types.now) };

    /// A boolean where none stands there.
    #[tactic(auto, using(crate::proofs::NamedAt::at_none, crate::proofs::NamedAt::at_some))]
    fn at(&self, alloc: Global, at: usize) -> Result<XType, OutOfMemory> {
        match named_at(self.types, at) {
            Some(named) => copy_type(alloc, &named.ty),
            None => Ok(XType::Prim(Prim::Boolean)),
        }
    }
}

impl Stands for Copies<'_> {
    ghost stood = { λ copies. whole (declared copies.types.now) };

    fn stand(&self, alloc: Global, used: &Used) -> Result<XType, OutOfMemory> {
        with_places(alloc, self, used)
    }
}

#[tactic(auto, using(type_trees::proofs::Views::tree_rules))]
pub(crate) fn enumeration(alloc: Global, kind: &EnumType) -> Result<XType, OutOfMemory>
    ensures { IfOk result (λ t. tree t ≡ trees.enumeration kind.now.name kind.now.ext kind.now.bits kind.now.literals) }
{
    let copy = EnumType {
        name: copy_optional_text(alloc, &kind.name)?,
        ext: kind.ext,
        bits: kind.bits,
        literals: copy_literals(alloc, kind.literals.as_slice())?,
    };
    Ok(XType::Enum(boxed(alloc, copy)?))
}

#[tactic(auto, using(type_trees::proofs::Views::tree_rules))]
pub(crate) fn bitmask(alloc: Global, kind: &MaskType) -> Result<XType, OutOfMemory>
    ensures { IfOk result (λ t. tree t ≡ trees.bitmask kind.now.name kind.now.bits kind.now.flags) }
{
    let copy = MaskType {
        name: copy_optional_text(alloc, &kind.name)?,
        bits: kind.bits,
        flags: copy_flags(alloc, kind.flags.as_slice())?,
    };
    Ok(XType::Mask(boxed(alloc, copy)?))
}

/// What a structure's tree has from its base.
#[derive(Drop)]
struct Inherited {
    bases: Row<Base>,
    members: Row<Member>,
}

fn nothing_inherited(alloc: Global) -> Inherited
    ensures bases { result.bases ≡ [] }
    ensures members { result.members ≡ [] }
{
    Inherited {
        bases: Row::new(alloc),
        members: Row::new(alloc),
    }
}

fn count_of(members: &[Member]) -> u32
    ensures { result ≡ spec.count_of (map member_tree members.now) }
{
    members.len().min(4_294_967_295) as u32
}

#[tactic(auto, using(type_trees::proofs::Views::tree_rules, crate::proofs::InheritedParts::copied_back))]
fn of_structure(alloc: Global, structure: &StructType) -> Result<Inherited, OutOfMemory>
    ensures bases { IfOk result (λ h. h.bases ≡ bases_on (struct_tree structure.now)) }
    ensures members { IfOk result (λ h. map member_tree h.members ≡ members_on (struct_tree structure.now)) }
{
    let mut bases = copy_bases(alloc, structure.bases.as_slice())?;
    bases.push(Base {
        name: copy_optional_text(alloc, &structure.name)?,
        nested: structure.nested,
        hashed_ids: structure.hashed_ids,
        count: count_of(structure.members.as_slice()),
    })?;
    let members = copy_members(alloc, structure.members.as_slice())?;
    Ok(Inherited { bases, members })
}

#[tactic(auto, using(type_trees::proofs::Views::tree_rules))]
fn of_type(alloc: Global, ty: &XType) -> Result<Inherited, OutOfMemory>
    ensures bases { IfOk result (λ h. h.bases ≡ bases_on (tree ty.now)) }
    ensures members { IfOk result (λ h. map member_tree h.members ≡ members_on (tree ty.now)) }
{
    match ty {
        XType::Struct(kind) => of_structure(alloc, kind),
        XType::Prim(_)
        | XType::Str(_)
        | XType::Enum(_)
        | XType::Mask(_)
        | XType::Seq(_)
        | XType::Array(_)
        | XType::Map(_)
        | XType::Union(_)
        | XType::Alias(_) => Ok(nothing_inherited(alloc)),
    }
}

#[tactic(auto, using(crate::proofs::NamedAt::at_none, crate::proofs::NamedAt::at_some))]
fn of_declared(alloc: Global, types: &[Named], at: usize) -> Result<Inherited, OutOfMemory>
    ensures bases { IfOk result (λ h. h.bases ≡ bases_on (tree_at (declared types.now) at)) }
    ensures members { IfOk result (λ h. map member_tree h.members ≡ members_on (tree_at (declared types.now) at)) }
{
    match named_at(types, at) {
        Some(named) => of_type(alloc, &named.ty),
        None => Ok(nothing_inherited(alloc)),
    }
}

fn of_base(alloc: Global, types: &[Named], base: Option<usize>) -> Result<Inherited, OutOfMemory>
    ensures bases { IfOk result (λ h. h.bases ≡ bases_before (declared types.now) base) }
    ensures members { IfOk result (λ h. map member_tree h.members ≡ members_before (declared types.now) base) }
{
    match base {
        Some(at) => of_declared(alloc, types, at),
        None => Ok(nothing_inherited(alloc)),
    }
}

#[tactic(auto, using(type_trees::proofs::Views::tree_rules))]
fn structure(
    alloc: Global,
    copies: &Copies,
    name: &Text,
    kind: &StructDefinition,
) -> Result<XType, OutOfMemory>
    ensures { IfOk result (λ t. tree t ≡ defined (declared copies.now.types.now) name.now (Definition.Struct kind.now)) }
{
    let Inherited { bases, mut members } = of_base(alloc, copies.types, kind.base)?;
    append_members(alloc, copies, kind.members.as_slice(), &mut members)?;
    let name = copy_text(alloc, name)?;
    let structure = structure_of(name, kind, bases, members);
    Ok(XType::Struct(boxed(alloc, structure)?))
}

#[tactic(auto, using(type_trees::proofs::Views::tree_rules))]
fn union(
    alloc: Global,
    copies: &Copies,
    name: &Text,
    kind: &UnionDefinition,
) -> Result<XType, OutOfMemory>
    ensures { IfOk result (λ t. tree t ≡ defined (declared copies.now.types.now) name.now (Definition.Union kind.now)) }
{
    let disc = copies.stand(alloc, &kind.disc)?;
    let cases = cases_of(alloc, copies, kind.cases.as_slice())?;
    let name = copy_text(alloc, name)?;
    let union = union_of(name, kind, disc, cases);
    Ok(XType::Union(boxed(alloc, union)?))
}

/// The tree of a definition, over the trees of the types that were declared before.
#[tactic(auto, using(type_trees::proofs::Views::tree_rules))]
pub(crate) fn defined_type(
    alloc: Global,
    types: &[Named],
    name: &Text,
    definition: &Definition,
) -> Result<XType, OutOfMemory>
    ensures { IfOk result (λ t. tree t ≡ defined (declared types.now) name.now definition.now) }
{
    let copies = Copies { types };
    match definition {
        Definition::Enum(kind) => enumeration(alloc, kind),
        Definition::Mask(kind) => bitmask(alloc, kind),
        Definition::Struct(kind) => structure(alloc, &copies, name, kind),
        Definition::Union(kind) => union(alloc, &copies, name, kind),
        Definition::Alias(used) => {
            let ty = copies.stand(alloc, used)?;
            let name = Some(copy_text(alloc, name)?);
            Ok(XType::Alias(boxed(alloc, AliasType { name, ty })?))
        }
    }
}

/// The trees of declared types, each by its full name, in order.
#[tactic(auto, using(std::proofs::lemmas::List::map_push, crate::proofs::NamedAt::taken_more))]
pub fn trees_of(alloc: Global, declarations: &[Declaration]) -> Result<Row<Named>, OutOfMemory>
    ensures { IfOk result (λ types. declared types ≡ declarations_view declarations.now) }
{
    let mut types = Row::new(alloc);
    for declaration in declarations {
        let ty = defined_type(
            alloc,
            types.as_slice(),
            &declaration.name,
            &declaration.definition,
        )?;
        let name = copy_text(alloc, &declaration.name)?;
        types.push(Named { name, ty })?;
    }
    Ok(types)
}
