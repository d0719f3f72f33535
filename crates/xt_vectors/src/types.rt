ghost use Rattle.std.specs.Prelude.{◌≡◌, IfOk, map};
ghost use Rattle.type_trees.specs.View.{tree, member_tree, members_tree};
ghost use Rattle.xt_vectors.specs.Types as spec;

use crate::plans::{Plan, Sort};
use std::alloc::Global;
use type_trees::{Elem, EnumType, Literal, Member, Name, SeqType, StructType, XType};
use xt_lists::{OutOfMemory, Row, Text};
use xt_shapes::{Ext, Primitive, Try};

/// A letter and a number.
fn numbered(alloc: Global, letter: u8, number: u32) -> Result<Text, OutOfMemory>
    ensures { IfOk result (λ text. text ≡ spec.numbered letter number) }
{
    let digits = format!(in alloc; "{number}")?;
    let mut text = Text::from_octets(alloc, &[letter])?;
    text.append(digits.as_bytes())?;
    Ok(text)
}

fn literal(alloc: Global, number: u8) -> Result<Literal, OutOfMemory>
    ensures { IfOk result (λ literal. literal ≡ spec.literal number) }
{
    Ok(Literal {
        name: Name::Full(numbered(alloc, b'l', u32::from(number))?),
        value: i32::from(number),
        is_default: false,
    })
}

/// The literals from 0 to `last`.
fn literals(alloc: Global, last: u8) -> Result<Row<Literal>, OutOfMemory>
    ensures { IfOk result (λ literals. literals ≡ spec.literals last) }
{
    let mut literals = Row::new(alloc);
    for number in 0..last {
        literals.push(literal(alloc, number)?)?;
    }
    literals.push(literal(alloc, last)?)?;
    Ok(literals)
}

#[tactic(auto, using(type_trees::proofs::Views::tree_rules))]
fn enumeration(alloc: Global, id: u32, last: u8) -> Result<XType, OutOfMemory>
    ensures { IfOk result (λ ty. tree ty ≡ spec.enumeration_of id last) }
{
    let ty = EnumType {
        name: Some(numbered(alloc, b'E', id)?),
        ext: Ext::Appendable,
        bits: 32,
        literals: literals(alloc, last)?,
    };
    Ok(XType::Enum(Box::new(alloc, ty)?))
}

#[tactic(auto, using(type_trees::proofs::Views::tree_rules))]
fn shorts(alloc: Global, bound: u8) -> Result<XType, OutOfMemory>
    ensures { IfOk result (λ ty. tree ty ≡ spec.shorts bound) }
{
    let ty = SeqType {
        bound: u32::from(bound),
        elem: Elem {
            ty: XType::Prim(Primitive::Int16),
            tc: Try::Discard,
        },
    };
    Ok(XType::Seq(Box::new(alloc, ty)?))
}

/// A structure without bases.
#[tactic(auto, using(type_trees::proofs::Views::tree_rules))]
fn structure(
    alloc: Global,
    name: &[u8],
    ext: Ext,
    members: Row<Member>,
) -> Result<XType, OutOfMemory>
    ensures { IfOk result (λ ty. tree ty ≡ spec.structure_over name.now ext (members_tree members)) }
{
    let ty = StructType {
        name: Some(Text::from_octets(alloc, name)?),
        ext,
        nested: false,
        hashed_ids: false,
        bases: Row::new(alloc),
        members,
    };
    Ok(XType::Struct(Box::new(alloc, ty)?))
}

/// A number as a member of the inner structure.
#[tactic(auto, using(type_trees::proofs::Views::tree_rules))]
fn part(alloc: Global, name: &[u8], id: u32, prim: Primitive) -> Result<Member, OutOfMemory>
    ensures { IfOk result (λ member. member_tree member ≡ spec.part name.now id prim) }
{
    Ok(Member {
        id,
        name: Name::Full(Text::from_octets(alloc, name)?),
        ty: XType::Prim(prim),
        tc: Try::Discard,
        optional: false,
        must_understand: false,
        key: false,
    })
}

fn parts(alloc: Global) -> Result<Row<Member>, OutOfMemory>
    ensures { IfOk result (λ members. members_tree members ≡ spec.parts) }
{
    let mut members = Row::new(alloc);
    members.push(part(alloc, b"a", 0, Primitive::Int32)?)?;
    members.push(part(alloc, b"b", 1, Primitive::Int64)?)?;
    Ok(members)
}

fn inner(alloc: Global) -> Result<XType, OutOfMemory>
    ensures { IfOk result (λ ty. tree ty ≡ spec.inner) }
{
    structure(alloc, b"N", Ext::Appendable, parts(alloc)?)
}

/// The type of a member.
#[tactic(auto, using(type_trees::proofs::Views::tree_rules), unfolding(crate::specs::Types::type_of))]
fn type_of(alloc: Global, id: u32, sort: Sort) -> Result<XType, OutOfMemory>
    ensures { IfOk result (λ ty. tree ty ≡ spec.type_of id sort) }
{
    match sort {
        Sort::Long => Ok(XType::Prim(Primitive::Int32)),
        Sort::Octet => Ok(XType::Prim(Primitive::Byte)),
        Sort::Text(bound) => Ok(XType::Str(u32::from(bound))),
        Sort::Shorts(bound) => shorts(alloc, bound),
        Sort::Literals(last) => enumeration(alloc, id, last),
        Sort::Pair => inner(alloc),
    }
}

#[tactic(auto, using(type_trees::proofs::Views::tree_rules))]
fn member_of(alloc: Global, plan: &Plan) -> Result<Member, OutOfMemory>
    ensures { IfOk result (λ member. member_tree member ≡ spec.member_of plan.now) }
{
    Ok(Member {
        id: plan.id,
        name: Name::Full(numbered(alloc, b'm', plan.id)?),
        ty: type_of(alloc, plan.id, plan.sort)?,
        tc: plan.tc,
        optional: plan.optional,
        must_understand: plan.must_understand,
        key: false,
    })
}

fn members_of(alloc: Global, plans: &[Plan]) -> Result<Row<Member>, OutOfMemory>
    ensures { IfOk result (λ members. map member_tree members ≡ map spec.member_of plans.now) }
{
    let mut members = Row::new(alloc);
    for plan in plans {
        members.push(member_of(alloc, plan)?)?;
    }
    Ok(members)
}

/// The structure of these members.
pub(crate) fn structure_of(alloc: Global, ext: Ext, plans: &[Plan]) -> Result<XType, OutOfMemory>
    ensures { IfOk result (λ ty. tree ty ≡ spec.structure_of ext plans.now) }
{
    structure(alloc, b"G", ext, members_of(alloc, plans)?)
}
