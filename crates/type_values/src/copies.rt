ghost use Rattle.std.specs.Prelude.{◌≡◌, IfOk};
ghost use Rattle.type_trees.specs.View.{tree, alias_tree, array_tree, case_tree, elem_tree, map_tree, member_tree};
ghost use Rattle.type_trees.specs.View.{sequence_tree, struct_tree, union_tree, members_tree, cases_tree};

use std::alloc::Global;
use type_trees::{
    AliasType, ArrayType, Base, Case, Elem, EnumType, Flag, Literal, MapType, MaskType, Member,
    Name, SeqType, StructType, UnionType, XType,
};
use xt_lists::{OutOfMemory, Row, Text};

/// The same octets.
pub fn copy_text(alloc: Global, text: &Text) -> Result<Text, OutOfMemory>
    ensures { IfOk result (λ copy. copy ≡ text.now) }
{
    Text::from_octets(alloc, text.octets())
}

/// The same octets, where there are any.
pub fn copy_optional_text(alloc: Global, text: &Option<Text>) -> Result<Option<Text>, OutOfMemory>
    ensures { IfOk result (λ copy. copy ≡ text.now) }
{
    match text {
        None => Ok(None),
        Some(text) => Ok(Some(copy_text(alloc, text)?)),
    }
}

/// The same name.
pub fn copy_name(alloc: Global, name: &Name) -> Result<Name, OutOfMemory>
    ensures { IfOk result (λ copy. copy ≡ name.now) }
{
    match name {
        Name::Full(text) => Ok(Name::Full(copy_text(alloc, text)?)),
        Name::Hashed(hash) => Ok(Name::Hashed(*hash)),
    }
}

/// The same items.
pub fn copy_plain<T: Copy>(alloc: Global, items: &Row<T>) -> Result<Row<T>, OutOfMemory>
where
    T: Drop,
    ensures { IfOk result (λ copy. copy ≡ items.now) }
{
    let mut copy = Row::new(alloc);
    for item in items.as_slice() {
        copy.push(*item)?;
    }
    Ok(copy)
}

/// The same literals.
pub fn copy_literals(alloc: Global, literals: &[Literal]) -> Result<Row<Literal>, OutOfMemory>
    ensures { IfOk result (λ copy. copy ≡ literals.now) }
{
    let mut copy = Row::new(alloc);
    for literal in literals {
        copy.push(Literal {
            name: copy_name(alloc, &literal.name)?,
            value: literal.value,
            is_default: literal.is_default,
        })?;
    }
    Ok(copy)
}

/// The same flags.
pub fn copy_flags(alloc: Global, flags: &[Flag]) -> Result<Row<Flag>, OutOfMemory>
    ensures { IfOk result (λ copy. copy ≡ flags.now) }
{
    let mut copy = Row::new(alloc);
    for flag in flags {
        copy.push(Flag {
            name: copy_name(alloc, &flag.name)?,
            position: flag.position,
        })?;
    }
    Ok(copy)
}

/// A copy of the bases of a structure.
pub fn copy_bases(alloc: Global, bases: &[Base]) -> Result<Row<Base>, OutOfMemory>
    ensures { IfOk result (λ copy. copy ≡ bases.now) }
{
    let mut copy = Row::new(alloc);
    for base in bases {
        copy.push(Base {
            name: copy_optional_text(alloc, &base.name)?,
            nested: base.nested,
            hashed_ids: base.hashed_ids,
            count: base.count,
        })?;
    }
    Ok(copy)
}

#[cycle(copy_type)]
#[tactic(auto, using(type_trees::proofs::Views::tree_rules))]
fn copy_elem(alloc: Global, elem: &Elem) -> Result<Elem, OutOfMemory>
    ensures { IfOk result (λ copy. elem_tree copy ≡ elem_tree elem.now) }
{
    Ok(Elem {
        ty: copy_type(alloc, &elem.ty)?,
        tc: elem.tc,
    })
}

#[cycle(copy_type)]
#[tactic(auto, using(type_trees::proofs::Views::tree_rules))]
fn copy_member(alloc: Global, member: &Member) -> Result<Member, OutOfMemory>
    ensures { IfOk result (λ copy. member_tree copy ≡ member_tree member.now) }
{
    Ok(Member {
        id: member.id,
        name: copy_name(alloc, &member.name)?,
        ty: copy_type(alloc, &member.ty)?,
        tc: member.tc,
        optional: member.optional,
        must_understand: member.must_understand,
        key: member.key,
    })
}

/// A copy of the members of a structure.
#[cycle(copy_type)]
pub fn copy_members(alloc: Global, members: &[Member]) -> Result<Row<Member>, OutOfMemory>
    ensures { IfOk result (λ copy. members_tree copy ≡ members_tree members.now) }
{
    let mut copy = Row::new(alloc);
    for member in members {
        copy.push(copy_member(alloc, member)?)?;
    }
    Ok(copy)
}

#[cycle(copy_type)]
#[tactic(auto, using(type_trees::proofs::Views::tree_rules))]
fn copy_case(alloc: Global, case: &Case) -> Result<Case, OutOfMemory>
    ensures { IfOk result (λ copy. case_tree copy ≡ case_tree case.now) }
{
    Ok(Case {
        id: case.id,
        name: copy_name(alloc, &case.name)?,
        ty: copy_type(alloc, &case.ty)?,
        tc: case.tc,
        labels: copy_plain(alloc, &case.labels)?,
        is_default: case.is_default,
    })
}

#[cycle(copy_type)]
fn copy_cases(alloc: Global, cases: &Row<Case>) -> Result<Row<Case>, OutOfMemory>
    ensures { IfOk result (λ copy. cases_tree copy ≡ cases_tree cases.now) }
{
    let mut copy = Row::new(alloc);
    for case in cases.as_slice() {
        copy.push(copy_case(alloc, case)?)?;
    }
    Ok(copy)
}

#[cycle(copy_type)]
#[tactic(auto, using(type_trees::proofs::Views::tree_rules))]
fn copy_array(alloc: Global, array: &ArrayType) -> Result<ArrayType, OutOfMemory>
    ensures { IfOk result (λ copy. array_tree copy ≡ array_tree array.now) }
{
    Ok(ArrayType {
        dims: copy_plain(alloc, &array.dims)?,
        elem: copy_elem(alloc, &array.elem)?,
    })
}

#[cycle(copy_type)]
#[tactic(auto, using(type_trees::proofs::Views::tree_rules))]
fn copy_sequence(alloc: Global, sequence: &SeqType) -> Result<SeqType, OutOfMemory>
    ensures { IfOk result (λ copy. sequence_tree copy ≡ sequence_tree sequence.now) }
{
    Ok(SeqType {
        bound: sequence.bound,
        elem: copy_elem(alloc, &sequence.elem)?,
    })
}

#[cycle(copy_type)]
#[tactic(auto, using(type_trees::proofs::Views::tree_rules))]
fn copy_map(alloc: Global, map: &MapType) -> Result<MapType, OutOfMemory>
    ensures { IfOk result (λ copy. map_tree copy ≡ map_tree map.now) }
{
    Ok(MapType {
        bound: map.bound,
        key: copy_elem(alloc, &map.key)?,
        value: copy_elem(alloc, &map.value)?,
    })
}

#[cycle(copy_type)]
#[tactic(auto, using(type_trees::proofs::Views::tree_rules))]
fn copy_struct(alloc: Global, structure: &StructType) -> Result<StructType, OutOfMemory>
    ensures { IfOk result (λ copy. struct_tree copy ≡ struct_tree structure.now) }
{
    Ok(StructType {
        name: copy_optional_text(alloc, &structure.name)?,
        ext: structure.ext,
        nested: structure.nested,
        hashed_ids: structure.hashed_ids,
        bases: copy_bases(alloc, structure.bases.as_slice())?,
        members: copy_members(alloc, structure.members.as_slice())?,
    })
}

#[cycle(copy_type)]
#[tactic(auto, using(type_trees::proofs::Views::tree_rules))]
fn copy_union(alloc: Global, union: &UnionType) -> Result<UnionType, OutOfMemory>
    ensures { IfOk result (λ copy. union_tree copy ≡ union_tree union.now) }
{
    Ok(UnionType {
        name: copy_optional_text(alloc, &union.name)?,
        ext: union.ext,
        nested: union.nested,
        hashed_ids: union.hashed_ids,
        disc: copy_type(alloc, &union.disc)?,
        disc_key: union.disc_key,
        cases: copy_cases(alloc, &union.cases)?,
    })
}

#[cycle(copy_type)]
#[tactic(auto, using(type_trees::proofs::Views::tree_rules))]
fn copy_alias(alloc: Global, alias: &AliasType) -> Result<AliasType, OutOfMemory>
    ensures { IfOk result (λ copy. alias_tree copy ≡ alias_tree alias.now) }
{
    Ok(AliasType {
        name: copy_optional_text(alloc, &alias.name)?,
        ty: copy_type(alloc, &alias.ty)?,
    })
}

fn copy_enum(alloc: Global, kind: &EnumType) -> Result<EnumType, OutOfMemory>
    ensures { IfOk result (λ copy. copy ≡ kind.now) }
{
    Ok(EnumType {
        name: copy_optional_text(alloc, &kind.name)?,
        ext: kind.ext,
        bits: kind.bits,
        literals: copy_literals(alloc, kind.literals.as_slice())?,
    })
}

fn copy_mask(alloc: Global, kind: &MaskType) -> Result<MaskType, OutOfMemory>
    ensures { IfOk result (λ copy. copy ≡ kind.now) }
{
    Ok(MaskType {
        name: copy_optional_text(alloc, &kind.name)?,
        bits: kind.bits,
        flags: copy_flags(alloc, kind.flags.as_slice())?,
    })
}

/// A type equal to `ty`: the same names, flags, bounds and bases throughout. It takes any type, valid or not.
#[cycle(copy_type)]
#[tactic(auto, using(type_trees::proofs::Views::tree_rules))]
pub fn copy_type(alloc: Global, ty: &XType) -> Result<XType, OutOfMemory>
    ensures { IfOk result (λ copy. tree copy ≡ tree ty.now) }
{
    match ty {
        XType::Prim(prim) => Ok(XType::Prim(*prim)),
        XType::Str(bound) => Ok(XType::Str(*bound)),
        XType::Enum(kind) => Ok(XType::Enum(Box::new(alloc, copy_enum(alloc, kind)?)?)),
        XType::Mask(kind) => Ok(XType::Mask(Box::new(alloc, copy_mask(alloc, kind)?)?)),
        XType::Seq(kind) => Ok(XType::Seq(Box::new(alloc, copy_sequence(alloc, kind)?)?)),
        XType::Array(kind) => Ok(XType::Array(Box::new(alloc, copy_array(alloc, kind)?)?)),
        XType::Map(kind) => Ok(XType::Map(Box::new(alloc, copy_map(alloc, kind)?)?)),
        XType::Struct(kind) => Ok(XType::Struct(Box::new(alloc, copy_struct(alloc, kind)?)?)),
        XType::Union(kind) => Ok(XType::Union(Box::new(alloc, copy_union(alloc, kind)?)?)),
        XType::Alias(kind) => Ok(XType::Alias(Box::new(alloc, copy_alias(alloc, kind)?)?)),
    }
}
