// What is built of a value of another type, part by part.
ghost use Rattle.std.specs.Prelude.{◌≡◌, ◌&&◌, true, false, cond, not, map, is_none, IfOk};
ghost use Rattle.std.specs.Option.{option_map};
ghost use Rattle.settled_parts.specs.Parts.{part_of};
ghost use Rattle.try_construct.specs.Unions.{case_of};
ghost use Rattle.try_construct.specs.Found.{IsAt, IsFound};
ghost use Rattle.try_construct.specs.Steps.{items_built, entries_built, member_built, structure_built, one_case_built, case_built, union_built};
ghost use Rattle.type_trees.specs.Bridge.{shape, type_shape, members_shape, cases_shape, literal_shape, member_head, case_head};
ghost use Rattle.type_trees.specs.Parts.{map_parts, structure_parts, union_parts};
ghost use Rattle.type_trees.specs.View.{val, pair_val, slots_val};
ghost use Rattle.type_trees.specs.View.{array_tree, map_tree, sequence_tree, struct_tree, union_tree};
ghost use Rattle.xcdr_model.specs.Premises.{sound, sound_members, sound_cases, distinct_members};
ghost use Rattle.xcdr_model.specs.Projection as model;
ghost use Rattle.xt_shapes.specs.Kinds.{same_kind as same_kinds};
ghost use Rattle.xt_shapes.specs.Select.{case_at as case_shape_at, has_member, is_literal, is_must};
ghost use Rattle.xt_shapes.specs.Vals.{int, number_in as number_in_val, octets_in as octets_in_val, disc_in as disc_in_val, body_in as body_in_val};

use crate::entries::Entries;
use crate::found::index_of;
use crate::items::Items;
use crate::kinds::same_kind;
use crate::members::{Slots, slot_from};
use crate::unions::{SettledCase, fits_disc, settle_case, whole_union};
use crate::value_parts::{
    body_in, disc_in, entries_in, is_present_at, items_in, number_in, octets_in, present_at,
    slots_in,
};
use settled_parts::{Part, enum_part, text_part};
use std::alloc::Global;
use type_trees::{
    ArrayType, Case, Elem, Literal, MapType, Member, Pair, SeqType, Slot, StructType, UnionType,
    Value, XType, as_array, as_map, as_seq, as_struct, as_union, case_at, select,
};
use xt_lists::OutOfMemory;
use xt_shapes::Ext;

#[cycle(project)]
fn project_items(
    alloc: Global,
    elem: &Elem,
    bound: u32,
    other: &XType,
    values: &[Value],
) -> Result<Part, OutOfMemory>
    requires reader { sound (type_shape elem.now.ty) ≡ true }
    requires writer { sound (type_shape other.now) ≡ true }
    ensures { IfOk result (λ p. part_of p ≡ items_built bound elem.now.tc (type_shape elem.now.ty) (type_shape other.now) (map val values.now)) }
{
    let mut items = Items::new(alloc);
    for value in values {
        let part = project_part(alloc, &elem.ty, other, value)?;
        items.take(alloc, bound, elem, part)?;
    }
    Ok(items.part())
}

#[cycle(project)]
fn project_entries(
    alloc: Global,
    kind: &MapType,
    other: &MapType,
    pairs: &[Pair],
) -> Result<Part, OutOfMemory>
    requires key { sound (type_shape kind.now.key.ty) ≡ true }
    requires value { sound (type_shape kind.now.value.ty) ≡ true }
    requires writer_key { sound (type_shape other.now.key.ty) ≡ true }
    requires writer_value { sound (type_shape other.now.value.ty) ≡ true }
    ensures { IfOk result (λ p. part_of p ≡ entries_built (map_parts kind.now) (map_parts other.now) (map pair_val pairs.now)) }
{
    let mut entries = Entries::new(alloc);
    for pair in pairs {
        let key = project_part(alloc, &kind.key.ty, &other.key.ty, &pair.key)?;
        let value = project_part(alloc, &kind.value.ty, &other.value.ty, &pair.value)?;
        entries.take(alloc, kind, key, value)?;
    }
    entries.part(alloc)
}

/// What is built of a member, of the value of a member of the type `other`.
#[cycle(project)]
fn project_member(
    alloc: Global,
    member: &Member,
    other: &XType,
    value: &Value,
) -> Result<Part, OutOfMemory>
    requires reader { sound (type_shape member.now.ty) ≡ true }
    requires writer { sound (type_shape other.now) ≡ true }
    ensures { IfOk result (λ p. part_of p ≡ model.projected (type_shape member.now.ty) (type_shape other.now) (val value.now)) }
{
    project_part(alloc, &member.ty, other, value)
}

/// What is built of the member with the index `at` of the others, where its slot is present.
#[cycle(project)]
fn project_at(
    alloc: Global,
    member: &Member,
    others: &[Member],
    slots: &[Slot],
    at: usize,
) -> Result<Option<Part>, OutOfMemory>
    requires reader { sound (type_shape member.now.ty) ≡ true }
    requires writer { sound_members (members_shape others.now) ≡ true }
    requires found { IsAt others.now member.now.id at }
    requires apart { distinct_members (members_shape others.now) ≡ true }
    ensures { IfOk result (λ p. option_map part_of p ≡ member_built (type_shape member.now.ty) (model.part_at (members_shape others.now) (slots_val slots.now) member.now.id)) }
{
    match present_at(slots, at) {
        Some(value) => {
            let part = project_member(alloc, member, &others[at].ty, value)?;
            Ok(Some(part))
        }
        None => Ok(None),
    }
}

/// The same where there is such a member.
#[cycle(project)]
fn project_found(
    alloc: Global,
    member: &Member,
    others: &[Member],
    slots: &[Slot],
    at: Option<usize>,
) -> Result<Option<Part>, OutOfMemory>
    requires reader { sound (type_shape member.now.ty) ≡ true }
    requires writer { sound_members (members_shape others.now) ≡ true }
    requires found { IsFound others.now member.now.id at }
    requires apart { distinct_members (members_shape others.now) ≡ true }
    ensures { IfOk result (λ p. option_map part_of p ≡ member_built (type_shape member.now.ty) (model.part_at (members_shape others.now) (slots_val slots.now) member.now.id)) }
{
    match at {
        Some(at) => project_at(alloc, member, others, slots, at),
        None => Ok(None),
    }
}

#[cycle(project)]
fn project_slots(
    alloc: Global,
    members: &[Member],
    others: &[Member],
    slots: &[Slot],
) -> Result<Part, OutOfMemory>
    requires reader { sound_members (members_shape members.now) ≡ true }
    requires reader_apart { distinct_members (members_shape members.now) ≡ true }
    requires writer { sound_members (members_shape others.now) ≡ true }
    requires writer_apart { distinct_members (members_shape others.now) ≡ true }
    ensures { let parts = model.projected_members (members_shape members.now) (members_shape others.now) (slots_val slots.now) in
        IfOk result (λ p. part_of p ≡ model.whole_structure (members_shape members.now) parts false) }
{
    let mut gathered = Slots::new(alloc);
    let mut start = 0;
    for member in members {
        let at = index_of(others, member.id, start);
        if let Some(at) = at {
            start = at + 1;
        }
        let part = project_found(alloc, member, others, slots, at)?;
        gathered.take(slot_from(alloc, member, part)?)?;
    }
    Ok(gathered.part())
}

/// Where the next search begins after this member of the other structure; None where it is present and must be understood and
/// `members` lacks it (7.2.2.4.4).
fn next_start(members: &[Member], other: &Member, is_there: bool, start: usize) -> Option<usize>
    ensures { is_none result ≡ (is_there && (is_must (member_head other.now) && not (has_member (members_shape members.now) other.now.id))) }
{
    if !(is_there && (other.must_understand || other.key)) {
        return Some(start);
    }
    match index_of(members, other.id, start) {
        Some(found) => Some(found + 1),
        None => None,
    }
}

/// Whether the other structure has a present member that must be understood and that `members` lacks.
fn lacks_must(members: &[Member], others: &[Member], slots: &[Slot]) -> bool
    ensures { result ≡ model.lacks_must (members_shape members.now) (members_shape others.now) (slots_val slots.now) }
{
    let mut start = 0;
    for at in 0..others.len() {
        match next_start(members, &others[at], is_present_at(slots, at), start) {
            Some(next) => start = next,
            None => return true,
        }
    }
    false
}

#[cycle(project)]
fn project_members(
    alloc: Global,
    kind: &StructType,
    other: &StructType,
    slots: &[Slot],
) -> Result<Part, OutOfMemory>
    requires reader { sound_members (structure_parts kind.now).1 ≡ true }
    requires reader_apart { distinct_members (structure_parts kind.now).1 ≡ true }
    requires writer { sound_members (structure_parts other.now).1 ≡ true }
    requires writer_apart { distinct_members (structure_parts other.now).1 ≡ true }
    ensures { IfOk result (λ p. part_of p ≡ structure_built (structure_parts kind.now) (structure_parts other.now) (slots_val slots.now)) }
{
    let part = project_slots(
        alloc,
        kind.members.as_slice(),
        other.members.as_slice(),
        slots,
    )?;
    let unseen = match other.ext {
        Ext::Final => false,
        Ext::Appendable => false,
        Ext::Mutable => lacks_must(kind.members.as_slice(), other.members.as_slice(), slots),
    };
    Ok(part.with_unseen(unseen))
}

/// What is built of the case of a union, of the value of a case of the type `other`.
#[cycle(project)]
fn project_both(
    alloc: Global,
    case: &Case,
    other: &XType,
    body: &Value,
) -> Result<SettledCase, OutOfMemory>
    requires reader { sound (type_shape case.now.ty) ≡ true }
    requires writer { sound (type_shape other.now) ≡ true }
    ensures { IfOk result (λ s. case_of s ≡ one_case_built (case_head case.now) (type_shape case.now.ty) (type_shape other.now) (val body.now)) }
{
    let part = project_part(alloc, &case.ty, other, body)?;
    settle_case(alloc, case, part)
}

/// What is built of the case of a union, where the other union has a case with that id.
#[cycle(project)]
fn project_case(
    alloc: Global,
    case: &Case,
    others: &[Case],
    id: u32,
    union: &Value,
) -> Result<SettledCase, OutOfMemory>
    requires reader { sound (type_shape case.now.ty) ≡ true }
    requires writer { sound_cases (cases_shape others.now) ≡ true }
    ensures { IfOk result (λ s. case_of s ≡ model.of_case (one_case_built (case_head case.now) (type_shape case.now.ty)) (case_shape_at (cases_shape others.now) id) (body_in_val (val union.now))) }
{
    match (case_at(others, id), body_in(union)) {
        (Some(other), Some(body)) => project_both(alloc, case, &other.ty, body),
        _ => Ok(SettledCase::OneSided),
    }
}

/// The same of the case with the id `id`.
#[cycle(project)]
fn project_selected(
    alloc: Global,
    cases: &[Case],
    id: u32,
    others: &[Case],
    other: u32,
    union: &Value,
) -> Result<SettledCase, OutOfMemory>
    requires reader { sound_cases (cases_shape cases.now) ≡ true }
    requires writer { sound_cases (cases_shape others.now) ≡ true }
    ensures { IfOk result (λ s. case_of s ≡ model.projected_case (cases_shape cases.now) id (case_shape_at (cases_shape others.now) other) (body_in_val (val union.now))) }
{
    for case in cases {
        if case.id == id {
            return project_case(alloc, case, others, other, union);
        }
    }
    Ok(SettledCase::OneSided)
}

#[cycle(project)]
fn project_body(
    alloc: Global,
    cases: &[Case],
    others: &[Case],
    union: &Value,
) -> Result<SettledCase, OutOfMemory>
    requires reader { sound_cases (cases_shape cases.now) ≡ true }
    requires writer { sound_cases (cases_shape others.now) ≡ true }
    ensures { IfOk result (λ s. case_of s ≡ case_built (cases_shape cases.now) (cases_shape others.now) (disc_in_val (val union.now)) (body_in_val (val union.now))) }
{
    let disc = disc_in(union);
    match (select(cases, disc), select(others, disc)) {
        (None, None) => Ok(SettledCase::NoCase),
        (Some(id), Some(other)) => project_selected(alloc, cases, id, others, other, union),
        _ => Ok(SettledCase::OneSided),
    }
}

#[cycle(project)]
fn project_sequence(
    alloc: Global,
    kind: &SeqType,
    other: &XType,
    value: &Value,
) -> Result<Part, OutOfMemory>
    requires reader { sound (shape (sequence_tree kind.now)) ≡ true }
    requires writer { sound (type_shape other.now) ≡ true }
    ensures { IfOk result (λ p. part_of p ≡ model.projected (shape (sequence_tree kind.now)) (type_shape other.now) (val value.now)) }
{
    match as_seq(other) {
        Some(other) => project_items(
            alloc,
            &kind.elem,
            kind.bound,
            &other.elem.ty,
            items_in(value),
        ),
        None => Ok(Part::failed()),
    }
}

#[cycle(project)]
fn project_array(
    alloc: Global,
    kind: &ArrayType,
    other: &XType,
    value: &Value,
) -> Result<Part, OutOfMemory>
    requires reader { sound (shape (array_tree kind.now)) ≡ true }
    requires writer { sound (type_shape other.now) ≡ true }
    ensures { IfOk result (λ p. part_of p ≡ model.projected (shape (array_tree kind.now)) (type_shape other.now) (val value.now)) }
{
    match as_array(other) {
        Some(other) => project_items(alloc, &kind.elem, 0, &other.elem.ty, items_in(value)),
        None => Ok(Part::failed()),
    }
}

#[cycle(project)]
fn project_map(
    alloc: Global,
    kind: &MapType,
    other: &XType,
    value: &Value,
) -> Result<Part, OutOfMemory>
    requires reader { sound (shape (map_tree kind.now)) ≡ true }
    requires writer { sound (type_shape other.now) ≡ true }
    ensures { IfOk result (λ p. part_of p ≡ model.projected (shape (map_tree kind.now)) (type_shape other.now) (val value.now)) }
{
    match as_map(other) {
        Some(other) => project_entries(alloc, kind, other, entries_in(value)),
        None => Ok(Part::failed()),
    }
}

#[cycle(project)]
fn project_structure(
    alloc: Global,
    kind: &StructType,
    other: &XType,
    value: &Value,
) -> Result<Part, OutOfMemory>
    requires reader { sound (shape (struct_tree kind.now)) ≡ true }
    requires writer { sound (type_shape other.now) ≡ true }
    ensures { IfOk result (λ p. part_of p ≡ model.projected (shape (struct_tree kind.now)) (type_shape other.now) (val value.now)) }
{
    match as_struct(other) {
        Some(other) => project_members(alloc, kind, other, slots_in(value)),
        None => Ok(Part::failed()),
    }
}

#[cycle(project)]
fn project_union(
    alloc: Global,
    kind: &UnionType,
    other: &XType,
    value: &Value,
) -> Result<Part, OutOfMemory>
    requires reader { sound (shape (union_tree kind.now)) ≡ true }
    requires writer { sound (type_shape other.now) ≡ true }
    ensures { IfOk result (λ p. part_of p ≡ model.projected (shape (union_tree kind.now)) (type_shape other.now) (val value.now)) }
{
    match as_union(other) {
        Some(other) => project_cases(alloc, kind, other, value),
        None => Ok(Part::failed()),
    }
}

#[cycle(project)]
fn project_cases(
    alloc: Global,
    kind: &UnionType,
    other: &UnionType,
    value: &Value,
) -> Result<Part, OutOfMemory>
    requires reader { sound_cases (union_parts kind.now).3 ≡ true }
    requires writer { sound_cases (union_parts other.now).3 ≡ true }
    ensures { IfOk result (λ p. part_of p ≡ union_built (union_parts kind.now) (union_parts other.now) (val value.now)) }
{
    let disc = disc_in(value);
    let fits = same_kind(&kind.disc, &other.disc) && fits_disc(&kind.disc, disc);
    let case = project_body(alloc, kind.cases.as_slice(), other.cases.as_slice(), value)?;
    whole_union(alloc, fits, disc, case)
}

fn project_number(ty: &XType, other: &XType, value: &Value) -> Part
    ensures { part_of result ≡ (cond (same_kinds (type_shape ty.now) (type_shape other.now)) (model.got (int (number_in_val (val value.now)))) model.failed, false) }
{
    if same_kind(ty, other) {
        return Part::number(number_in(value));
    }
    Part::failed()
}

fn project_literal(ty: &XType, literals: &[Literal], other: &XType, value: &Value) -> Part
    ensures { let number = number_in_val (val value.now) in
        part_of result ≡ (cond (same_kinds (type_shape ty.now) (type_shape other.now) && is_literal (map literal_shape literals.now) number) (model.got (int number)) model.failed, false) }
{
    if same_kind(ty, other) {
        return enum_part(literals, number_in(value));
    }
    Part::failed()
}

fn project_text(
    alloc: Global,
    ty: &XType,
    bound: u32,
    other: &XType,
    value: &Value,
) -> Result<Part, OutOfMemory>
    ensures { IfOk result (λ p. part_of p ≡ (cond (same_kinds (type_shape ty.now) (type_shape other.now)) (model.gather_text bound (octets_in_val (val value.now))) model.failed, false)) }
{
    if same_kind(ty, other) {
        return text_part(alloc, bound, octets_in(value));
    }
    Ok(Part::failed())
}

/// What a reader of the type `ty` builds of a value of the type `other`.
#[cycle(project)]
#[tactic(auto, using(type_trees::proofs::Views::tree_rules), unfolding(xcdr_model::specs::Projection::projected))]
pub(crate) fn project_part(
    alloc: Global,
    ty: &XType,
    other: &XType,
    value: &Value,
) -> Result<Part, OutOfMemory>
    requires reader { sound (type_shape ty.now) ≡ true }
    requires writer { sound (type_shape other.now) ≡ true }
    ensures { IfOk result (λ p. part_of p ≡ model.projected (type_shape ty.now) (type_shape other.now) (val value.now)) }
{
    match ty {
        XType::Prim(_) => Ok(project_number(ty, other, value)),
        XType::Mask(_) => Ok(project_number(ty, other, value)),
        XType::Str(bound) => project_text(alloc, ty, *bound, other, value),
        XType::Enum(kind) => Ok(project_literal(ty, kind.literals.as_slice(), other, value)),
        XType::Seq(kind) => project_sequence(alloc, kind, other, value),
        XType::Array(kind) => project_array(alloc, kind, other, value),
        XType::Map(kind) => project_map(alloc, kind, other, value),
        XType::Struct(kind) => project_structure(alloc, kind, other, value),
        XType::Union(kind) => project_union(alloc, kind, other, value),
        XType::Alias(kind) => project_part(alloc, &kind.ty, other, value),
    }
}
