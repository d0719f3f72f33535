ghost use Rattle.std.specs.Prelude.{◌≡◌, ◌++◌, ◌∷◌, [], true, false, map, IfOk, IfErr};
ghost use Rattle.object_formats.specs.View as view;
ghost use Rattle.type_trees.specs.Bridge.{name_number};
ghost use Rattle.type_resolve.specs.Objects as spec;
ghost use Rattle.type_resolve.specs.Views.{seen, member_sides, case_sides, member_head, case_head};

use crate::adding::made;
use crate::flags::{case_flags, member_flags, set};
use crate::heads::{CaseHeading, MemberHeading};
use crate::sides::{CaseSides, MemberSides, Sides};
use object_formats::{ObjectCase, ObjectFlag, ObjectLiteral, ObjectMember, TypeIdentifier};
use std::alloc::Global;
use type_object::PoolFault;
use type_trees::{Flag, Literal, Name, name_number};
use type_values::{copy_name, copy_plain};
use xt_lists::{OutOfMemory, Row};

/// A name in full, or its hash.
pub(crate) fn name_in(alloc: Global, complete: bool, name: &Name) -> Result<Name, OutOfMemory>
    ensures { IfOk result (λ n. n ≡ spec.name_in complete name.now) }
{
    if complete {
        copy_name(alloc, name)
    } else {
        Ok(Name::Hashed(name_number(name)))
    }
}

pub(crate) fn literal_parts(
    alloc: Global,
    complete: bool,
    literals: &[Literal],
) -> Result<Row<ObjectLiteral>, OutOfMemory>
    ensures { IfOk result (λ row. row ≡ map (spec.literal_part complete) literals.now) }
{
    let mut row = Row::new(alloc);
    for literal in literals {
        row.push(ObjectLiteral {
            value: literal.value,
            flags: set(literal.is_default, 0x40),
            name: name_in(alloc, complete, &literal.name)?,
        })?;
    }
    Ok(row)
}

pub(crate) fn flag_parts(
    alloc: Global,
    complete: bool,
    flags: &[Flag],
) -> Result<Row<ObjectFlag>, OutOfMemory>
    ensures { IfOk result (λ row. row ≡ map (spec.flag_part complete) flags.now) }
{
    let mut row = Row::new(alloc);
    for flag in flags {
        row.push(ObjectFlag {
            position: u16::from(flag.position),
            name: name_in(alloc, complete, &flag.name)?,
        })?;
    }
    Ok(row)
}

/// A member under this name.
fn member_part(name: Name, member: &MemberHeading<'_>, ty: TypeIdentifier) -> ObjectMember
    ensures minimal { name ≡ spec.name_in false member.now.name.now → view.member result ≡ spec.member_part false (member_head member.now) (view.identifier ty) }
    ensures complete { name ≡ spec.name_in true member.now.name.now → view.member result ≡ spec.member_part true (member_head member.now) (view.identifier ty) }
{
    ObjectMember {
        id: member.id,
        flags: member_flags(member),
        ty,
        name,
    }
}

fn case_part(
    alloc: Global,
    complete: bool,
    case: &CaseHeading<'_>,
    ty: TypeIdentifier,
) -> Result<ObjectCase, OutOfMemory>
    ensures { IfOk result (λ c. view.case c ≡ spec.case_part complete (case_head case.now) (view.identifier ty)) }
{
    let name = name_in(alloc, complete, case.name)?;
    let labels = copy_plain(alloc, case.labels)?;
    Ok(ObjectCase {
        id: case.id,
        flags: case_flags(case),
        ty,
        labels,
        name,
    })
}

impl MemberSides {
    pub(crate) fn new(alloc: Global) -> MemberSides
        ensures { member_sides result ≡ ([], []) }
    {
        MemberSides {
            minimal: Row::new(alloc),
            complete: Row::new(alloc),
        }
    }

    /// Appends a member, the hash of whose name is this number, with its type's identifiers.
    pub(crate) fn push(
        &mut self,
        alloc: Global,
        number: u32,
        member: &MemberHeading<'_>,
        ty: Sides,
    ) -> Result<(), PoolFault>
        requires { number ≡ name_number member.now.name.now }
        ensures minimal { IfOk result (λ u. map view.member self.new.minimal ≡ map view.member self.old.minimal ++ spec.member_part false (member_head member.now) (seen ty).1 ∷ []) }
        ensures complete { IfOk result (λ u. map view.member self.new.complete ≡ map view.member self.old.complete ++ spec.member_part true (member_head member.now) (seen ty).2 ∷ []) }
        ensures only_memory { IfErr result (λ fault. fault ≡ PoolFault.OutOfMemory) }
    {
        made(self.push_both(alloc, number, member, ty))
    }

    fn push_both(
        &mut self,
        alloc: Global,
        number: u32,
        member: &MemberHeading<'_>,
        ty: Sides,
    ) -> Result<(), OutOfMemory>
        requires { number ≡ name_number member.now.name.now }
        ensures minimal { IfOk result (λ u. map view.member self.new.minimal ≡ map view.member self.old.minimal ++ spec.member_part false (member_head member.now) (seen ty).1 ∷ []) }
        ensures complete { IfOk result (λ u. map view.member self.new.complete ≡ map view.member self.old.complete ++ spec.member_part true (member_head member.now) (seen ty).2 ∷ []) }
    {
        let Sides {
            plain: _,
            minimal,
            complete,
        } = ty;
        push_minimal(&mut self.minimal, number, member, minimal)?;
        push_complete(&mut self.complete, alloc, member, complete)
    }
}

fn push_minimal(
    row: &mut Row<ObjectMember>,
    number: u32,
    member: &MemberHeading<'_>,
    ty: TypeIdentifier,
) -> Result<(), OutOfMemory>
    requires { number ≡ name_number member.now.name.now }
    ensures { IfOk result (λ u. map view.member row.new ≡ map view.member row.old ++ spec.member_part false (member_head member.now) (view.identifier ty) ∷ []) }
{
    let part = member_part(Name::Hashed(number), member, ty);
    row.push(part)
}

fn push_complete(
    row: &mut Row<ObjectMember>,
    alloc: Global,
    member: &MemberHeading<'_>,
    ty: TypeIdentifier,
) -> Result<(), OutOfMemory>
    ensures { IfOk result (λ u. map view.member row.new ≡ map view.member row.old ++ spec.member_part true (member_head member.now) (view.identifier ty) ∷ []) }
{
    let name = copy_name(alloc, member.name)?;
    let part = member_part(name, member, ty);
    row.push(part)
}

impl CaseSides {
    pub(crate) fn new(alloc: Global) -> CaseSides
        ensures { case_sides result ≡ ([], []) }
    {
        CaseSides {
            minimal: Row::new(alloc),
            complete: Row::new(alloc),
        }
    }

    /// Appends a case with its type's identifiers.
    pub(crate) fn push(
        &mut self,
        alloc: Global,
        case: &CaseHeading<'_>,
        ty: Sides,
    ) -> Result<(), PoolFault>
        ensures minimal { IfOk result (λ u. map view.case self.new.minimal ≡ map view.case self.old.minimal ++ spec.case_part false (case_head case.now) (seen ty).1 ∷ []) }
        ensures complete { IfOk result (λ u. map view.case self.new.complete ≡ map view.case self.old.complete ++ spec.case_part true (case_head case.now) (seen ty).2 ∷ []) }
        ensures only_memory { IfErr result (λ fault. fault ≡ PoolFault.OutOfMemory) }
    {
        made(self.push_both(alloc, case, ty))
    }

    fn push_both(
        &mut self,
        alloc: Global,
        case: &CaseHeading<'_>,
        ty: Sides,
    ) -> Result<(), OutOfMemory>
        ensures minimal { IfOk result (λ u. map view.case self.new.minimal ≡ map view.case self.old.minimal ++ spec.case_part false (case_head case.now) (seen ty).1 ∷ []) }
        ensures complete { IfOk result (λ u. map view.case self.new.complete ≡ map view.case self.old.complete ++ spec.case_part true (case_head case.now) (seen ty).2 ∷ []) }
    {
        let Sides {
            plain: _,
            minimal,
            complete,
        } = ty;
        push_case(&mut self.minimal, alloc, false, case, minimal)?;
        push_case(&mut self.complete, alloc, true, case, complete)
    }
}

fn push_case(
    row: &mut Row<ObjectCase>,
    alloc: Global,
    complete: bool,
    case: &CaseHeading<'_>,
    ty: TypeIdentifier,
) -> Result<(), OutOfMemory>
    ensures { IfOk result (λ u. map view.case row.new ≡ map view.case row.old ++ spec.case_part complete (case_head case.now) (view.identifier ty) ∷ []) }
{
    let part = case_part(alloc, complete, case, ty)?;
    row.push(part)
}
