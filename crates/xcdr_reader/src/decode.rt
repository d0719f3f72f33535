// Values of octets.
ghost use Rattle.std.specs.Prelude.{◌≡◌, ◌≤◌, ◌+◌, ℕ, ℤ, true, false, length, IfOk, IfSome, OnOk};
ghost use Rattle.std.specs.Option.{option_map};
ghost use Rattle.type_trees.specs.declared.types.UnionType.{out-UnionType};
ghost use Rattle.type_trees.specs.View.{struct_tree, union_tree};
ghost use Rattle.type_trees.specs.Bridge.{shape, type_shape, members_shape, member_head, case_head, cases_shape};
ghost use Rattle.xcdr_model.specs.Premises.{sound, distinct_members, sound_members, sound_cases};
ghost use Rattle.xcdr_model.specs.Projection.{whole_structure};
ghost use Rattle.xcdr_model.specs.Reading.{filling};
ghost use Rattle.xcdr_model.specs.Xcdr2Reading.{read};
ghost use Rattle.try_construct.specs.Guides.{IsGuide, AreGuides, AreCaseGuides, TellsCases, part_at};
ghost use Rattle.try_construct.specs.Members.{by_member, slots_of};
ghost use Rattle.settled_parts.specs.Parts.{part_of};
ghost use Rattle.try_construct.specs.Unions.{case_of};
ghost use Rattle.xt_wire.specs.cursor.Decoding.{Decodes};
ghost use Rattle.xt_wire.specs.cursor.Standing.{room};
ghost use Rattle.xcdr_steps.specs.reading.Headings.{header_view};
ghost use Rattle.xcdr_reader.specs.Modes.{read_in, content_in, parameter_content, next_in};
ghost use Rattle.xcdr_reader.specs.Members.{Pieces, Holds, no_more, mutable_read, next_piece, piece_read, named_in, piece_of, IsIndexed, IsNew, IsWithin, has_come};
ghost use Rattle.xcdr_reader.specs.Parts.{items_read, entries_read, case_in, union_read, body_read, whole_read, slot_more};
ghost use Rattle.xcdr_reader.specs.Insides.{inside, members_read, cut_read, appended_read};

use crate::blocks::read_numbers;
use crate::comings::{Coming, read_coming};
use crate::headings::{next_heading, pass_rest};
use crate::known::{Known, Piece};
use crate::leaves::{
    read_disc, read_enum_part, read_mask_part, read_prim_part, read_text_part, short, spare_of,
};
use crate::modes::Mode;
use settled_parts::Part;
use std::alloc::Global;
use try_construct::{
    Entries, Guide, Items, SettledCase, Slots, settle_case, slot_from, whole_union,
};
use type_trees::{Case, Elem, MapType, Member, StructType, UnionType, XType, as_prim};
use xcdr_steps::again::Peeking;
use xcdr_steps::one::{close_content, open_content};
use xcdr_steps::reading::{Choice, Header, Heading, array_count, choose, has_ended, read_count};
use xt_shapes::Ext;
use xt_wire::cursor::{
    Cursor, DecodeFault, Frame, Framing, close_frame, enter_part, open_frame, read_number,
    read_pass,
};

/// Reads a value of this type in the cursor's region.
#[cycle(decode)]
pub(crate) fn read_part<C: Peeking>(
    alloc: Global,
    ty: &XType,
    guide: &Guide,
    mode: Mode,
    cursor: &mut C,
) -> Result<Part, DecodeFault>
    requires sound { sound (type_shape ty.now) ≡ true }
    requires guide { IsGuide (type_shape ty.now) guide.now }
    ensures { Decodes part_of (λ o s. read_in mode o (type_shape ty.now) s) (C.state cursor.old) (C.state cursor.new) result }
{
    let frame = open_frame(cursor, mode.framing(ty))?;
    let part = read_inside(alloc, ty, guide, mode, cursor)?;
    close_frame(cursor, frame)?;
    Ok(part)
}

// Reads what is inside the value's own region, where it has one.
#[cycle(decode)]
#[tactic(auto, using(type_trees::proofs::Views::tree_rules))]
fn read_inside<C: Peeking>(
    alloc: Global,
    ty: &XType,
    guide: &Guide,
    mode: Mode,
    cursor: &mut C,
) -> Result<Part, DecodeFault>
    requires sound { sound (type_shape ty.now) ≡ true }
    requires guide { IsGuide (type_shape ty.now) guide.now }
    ensures { Decodes part_of (inside mode (type_shape ty.now)) (C.state cursor.old) (C.state cursor.new) result }
{
    match ty {
        XType::Prim(prim) => read_prim_part(cursor, mode, *prim),
        XType::Str(bound) => read_text_part(alloc, cursor, mode, *bound),
        XType::Enum(kind) => read_enum_part(cursor, mode, kind, guide),
        XType::Mask(kind) => read_mask_part(cursor, mode, kind),
        XType::Seq(kind) => read_items(
            alloc,
            &kind.elem,
            guide.part(0),
            kind.bound,
            None,
            mode.inner(),
            cursor,
        ),
        XType::Array(kind) => {
            let count = array_count(kind.dims.as_slice())?;
            read_items(
                alloc,
                &kind.elem,
                guide.part(0),
                0,
                Some(count),
                mode.inner(),
                cursor,
            )
        }
        XType::Map(kind) => read_entries(alloc, kind, guide, mode.inner(), cursor),
        XType::Struct(kind) => read_structure(alloc, kind, guide, mode, cursor),
        XType::Union(kind) => read_union(alloc, kind, guide, mode, cursor),
        XType::Alias(kind) => read_inside(alloc, &kind.ty, guide, mode, cursor),
    }
}

#[cycle(decode)]
fn read_items<C: Peeking>(
    alloc: Global,
    elem: &Elem,
    guide: &Guide,
    bound: u32,
    given: Option<u64>,
    mode: Mode,
    cursor: &mut C,
) -> Result<Part, DecodeFault>
    requires sound { sound (type_shape elem.now.ty) ≡ true }
    requires guide { IsGuide (type_shape elem.now.ty) guide.now }
    ensures { Decodes part_of (items_read mode bound elem.now.tc (type_shape elem.now.ty) given) (C.state cursor.old) (C.state cursor.new) result }
{
    let count = read_count(cursor, given)?;
    if let Some(prim) = as_prim(&elem.ty) {
        return read_numbers(alloc, elem, bound, mode, prim, count, cursor);
    }
    let mut items = Items::new(alloc);
    for at in 0..count {
        let part = read_part(alloc, &elem.ty, guide, mode, cursor)?;
        items.take(alloc, bound, elem, part)?;
    }
    Ok(items.part())
}

#[cycle(decode)]
fn read_entries<C: Peeking>(
    alloc: Global,
    kind: &MapType,
    guide: &Guide,
    mode: Mode,
    cursor: &mut C,
) -> Result<Part, DecodeFault>
    requires key { sound (type_shape kind.now.key.ty) ≡ true }
    requires value { sound (type_shape kind.now.value.ty) ≡ true }
    requires key_guide { IsGuide (type_shape kind.now.key.ty) (part_at guide.now 0) }
    requires value_guide { IsGuide (type_shape kind.now.value.ty) (part_at guide.now 1) }
    ensures { Decodes part_of (entries_read mode kind.now.bound kind.now.key.tc (type_shape kind.now.key.ty) kind.now.value.tc (type_shape kind.now.value.ty)) (C.state cursor.old) (C.state cursor.new) result }
{
    let count = read_number(cursor, 4, 4)?;
    let mut entries = Entries::new(alloc);
    for at in 0..count {
        let key = read_part(alloc, &kind.key.ty, guide.part(0), mode, cursor)?;
        let value = read_part(alloc, &kind.value.ty, guide.part(1), mode, cursor)?;
        entries.take(alloc, kind, key, value)?;
    }
    Ok(entries.part(alloc)?)
}

#[cycle(decode)]
fn read_structure<C: Peeking>(
    alloc: Global,
    kind: &StructType,
    guide: &Guide,
    mode: Mode,
    cursor: &mut C,
) -> Result<Part, DecodeFault>
    requires sound { sound (shape (struct_tree kind.now)) ≡ true }
    requires guide { IsGuide (shape (struct_tree kind.now)) guide.now }
    ensures { Decodes part_of (inside mode (shape (struct_tree kind.now))) (C.state cursor.old) (C.state cursor.new) result }
{
    let members = kind.members.as_slice();
    match kind.ext {
        Ext::Final => read_members(alloc, members, guide, false, mode, cursor),
        Ext::Appendable => read_appended(alloc, members, guide, mode, cursor),
        Ext::Mutable => read_pieces(alloc, members, guide, mode, cursor),
    }
}

// Reads the members of an APPENDABLE structure.
#[cycle(decode)]
fn read_appended<C: Peeking>(
    alloc: Global,
    members: &[Member],
    guide: &Guide,
    mode: Mode,
    cursor: &mut C,
) -> Result<Part, DecodeFault>
    requires apart { distinct_members (members_shape members.now) ≡ true }
    requires sound { sound_members (members_shape members.now) ≡ true }
    requires guide { AreGuides (members_shape members.now) guide.now 0 }
    ensures { Decodes part_of (appended_read mode (members_shape members.now)) (C.state cursor.old) (C.state cursor.new) result }
{
    if mode.may_end() {
        return read_cut(alloc, members, guide, mode, cursor);
    }
    read_members(alloc, members, guide, false, mode, cursor)
}

// Reads members of a region that may end before the last, and has what is left of it.
#[cycle(decode)]
fn read_cut<C: Peeking>(
    alloc: Global,
    members: &[Member],
    guide: &Guide,
    mode: Mode,
    cursor: &mut C,
) -> Result<Part, DecodeFault>
    requires apart { distinct_members (members_shape members.now) ≡ true }
    requires sound { sound_members (members_shape members.now) ≡ true }
    requires guide { AreGuides (members_shape members.now) guide.now 0 }
    ensures { Decodes part_of (cut_read mode (members_shape members.now)) (C.state cursor.old) (C.state cursor.new) result }
{
    let part = read_members(alloc, members, guide, true, mode, cursor)?;
    pass_rest(cursor, mode)?;
    Ok(part)
}

#[cycle(decode)]
fn read_members<C: Peeking>(
    alloc: Global,
    members: &[Member],
    guide: &Guide,
    cut: bool,
    mode: Mode,
    cursor: &mut C,
) -> Result<Part, DecodeFault>
    requires apart { distinct_members (members_shape members.now) ≡ true }
    requires sound { sound_members (members_shape members.now) ≡ true }
    requires guide { AreGuides (members_shape members.now) guide.now 0 }
    ensures { Decodes part_of (members_read mode cut (members_shape members.now)) (C.state cursor.old) (C.state cursor.new) result }
{
    let mut slots = Slots::new(alloc);
    for (at, member) in members.iter().enumerate() {
        read_slot(alloc, member, guide.part(at), cut, mode, &mut slots, cursor)?;
    }
    Ok(slots.part())
}

// Reads what comes of the next member straight into its slot.
#[cycle(decode)]
#[inline(always)]
fn read_slot<C: Peeking>(
    alloc: Global,
    member: &Member,
    guide: &Guide,
    cut: bool,
    mode: Mode,
    slots: &mut Slots,
    cursor: &mut C,
) -> Result<(), DecodeFault>
    requires sound { sound (type_shape member.now.ty) ≡ true }
    requires guide { IsGuide (type_shape member.now.ty) guide.now }
    ensures { Decodes (λ u. slots_of slots.new) (slot_more mode cut (member_head member.now) (type_shape member.now.ty) (slots_of slots.old)) (C.state cursor.old) (C.state cursor.new) result }
{
    match read_coming(cursor, mode, cut, member.optional, member.id)? {
        Coming::Absent => {
            let settled = slot_from(alloc, member, None)?;
            slots.take(settled)?;
            Ok(())
        }
        Coming::Here => {
            let part = read_part(alloc, &member.ty, guide, mode.inner(), cursor)?;
            slots.take_part(alloc, member, part)?;
            Ok(())
        }
        Coming::Content(length) => {
            let part = read_content(alloc, &member.ty, guide, length, mode, cursor)?;
            slots.take_part(alloc, member, part)?;
            Ok(())
        }
    }
}

#[cycle(decode)]
#[tactic(auto, using(crate::proofs::PieceSteps::held_count, crate::proofs::PieceSteps::held_index))]
fn read_pieces<C: Peeking>(
    alloc: Global,
    members: &[Member],
    guide: &Guide,
    mode: Mode,
    cursor: &mut C,
) -> Result<Part, DecodeFault>
    requires apart { distinct_members (members_shape members.now) ≡ true }
    requires sound { sound_members (members_shape members.now) ≡ true }
    requires guide { AreGuides (members_shape members.now) guide.now 0 }
    ensures { Decodes part_of (mutable_read mode (members_shape members.now)) (C.state cursor.old) (C.state cursor.new) result }
{
    let mut known = Known::new(alloc, members)?;
    for turn in 0..cursor.region_end() - cursor.place() {
        let Some(piece) = read_next(alloc, members, guide, &known, mode, cursor)? else {
            return Ok(known.part(alloc, members)?);
        };
        known.keep(alloc, members, piece)?;
    }
    end_pieces(alloc, members, known, mode, cursor)
}

// The structure where all turns are taken: XCDR2's region has ended, and XCDR1's list has no end.
fn end_pieces<C: Cursor>(
    alloc: Global,
    members: &[Member],
    known: Known,
    mode: Mode,
    cursor: &C,
) -> Result<Part, DecodeFault>
    requires { length (by_member known.slots).1 ≡ length members.now }
    ensures { (ps : Pieces) → Holds (members_shape members.now) known ps → Decodes part_of (λ o s. no_more mode (whole_structure (members_shape members.now) ps.0 ps.1) s) (C.state cursor.now) (C.state cursor.now) result }
{
    match mode {
        Mode::Two => Ok(known.part(alloc, members)?),
        Mode::Inner => Err(short(cursor.place())),
        Mode::Tail => Err(short(cursor.place())),
    }
}

// What comes next among the members of a mutable structure: none at their end.
#[cycle(decode)]
fn read_next<C: Peeking>(
    alloc: Global,
    members: &[Member],
    guide: &Guide,
    known: &Known,
    mode: Mode,
    cursor: &mut C,
) -> Result<Option<Piece>, DecodeFault>
    requires apart { distinct_members (members_shape members.now) ≡ true }
    requires sound { sound_members (members_shape members.now) ≡ true }
    requires count { length (by_member known.now.slots).1 ≡ length members.now }
    requires indexed { IsIndexed (members_shape members.now) known.now }
    requires guide { AreGuides (members_shape members.now) guide.now 0 }
    ensures new { IfOk result (λ x. IfSome x (IsNew (members_shape members.now) known.now)) }
    ensures within { IfOk result (λ x. IfSome x (IsWithin (length members.now))) }
    ensures value { Decodes (option_map piece_of) (next_piece mode (members_shape members.now) (has_come (members_shape members.now) known.now)) (C.state cursor.old) (C.state cursor.new) result }
{
    match next_heading(cursor, mode)? {
        Heading::End => Ok(None),
        Heading::Ignored(length) => {
            read_pass(cursor, length)?;
            Ok(Some(Piece::Unknown(false)))
        }
        Heading::Member(header) => {
            let piece = read_piece(alloc, members, guide, header, known, mode, cursor)?;
            Ok(Some(piece))
        }
    }
}

#[cycle(decode)]
#[tactic(auto, using(crate::proofs::Indexed::sound_item))]
fn read_piece<C: Peeking>(
    alloc: Global,
    members: &[Member],
    guide: &Guide,
    header: Header,
    known: &Known,
    mode: Mode,
    cursor: &mut C,
) -> Result<Piece, DecodeFault>
    requires apart { distinct_members (members_shape members.now) ≡ true }
    requires sound { sound_members (members_shape members.now) ≡ true }
    requires count { length (by_member known.now.slots).1 ≡ length members.now }
    requires indexed { IsIndexed (members_shape members.now) known.now }
    requires room { header.length ≤ room (C.state cursor.old) }
    requires at { (C.state cursor.old).origin ≤ header.at }
    requires guide { AreGuides (members_shape members.now) guide.now 0 }
    ensures new { IfOk result (IsNew (members_shape members.now) known.now) }
    ensures within { IfOk result (IsWithin (length members.now)) }
    ensures behind { OnOk result ((C.state cursor.new).place ≡ (C.state cursor.old).place + header.length) }
    ensures value { Decodes piece_of (λ o s. piece_read (named_in mode o (members_shape members.now) header.id) (has_come (members_shape members.now) known.now header.id) (header_view (C.state cursor.old) header) s) (C.state cursor.old) (C.state cursor.new) result }
{
    match known.place(members, header)? {
        None => {
            read_pass(cursor, header.length)?;
            Ok(Piece::Unknown(header.must))
        }
        Some(at) => {
            let part = read_member(
                alloc,
                &members[at],
                guide.part(at),
                header.length,
                mode,
                cursor,
            )?;
            Ok(Piece::Came(at, header.id, part))
        }
    }
}

// Reads the content of a member whose header was read.
#[cycle(decode)]
#[inline(always)]
fn read_member<C: Peeking>(
    alloc: Global,
    member: &Member,
    guide: &Guide,
    length: u64,
    mode: Mode,
    cursor: &mut C,
) -> Result<Part, DecodeFault>
    requires sound { sound (type_shape member.now.ty) ≡ true }
    requires room { length ≤ room (C.state cursor.old) }
    requires guide { IsGuide (type_shape member.now.ty) guide.now }
    ensures behind { OnOk result ((C.state cursor.new).place ≡ (C.state cursor.old).place + length) }
    ensures value { Decodes part_of (content_in mode length (type_shape member.now.ty)) (C.state cursor.old) (C.state cursor.new) result }
{
    read_content(alloc, &member.ty, guide, length, mode, cursor)
}

// Reads the content of `length` octets that a member's header counts.
#[cycle(decode)]
fn read_content<C: Peeking>(
    alloc: Global,
    ty: &XType,
    guide: &Guide,
    length: u64,
    mode: Mode,
    cursor: &mut C,
) -> Result<Part, DecodeFault>
    requires sound { sound (type_shape ty.now) ≡ true }
    requires room { length ≤ room (C.state cursor.old) }
    requires guide { IsGuide (type_shape ty.now) guide.now }
    ensures behind { OnOk result ((C.state cursor.new).place ≡ (C.state cursor.old).place + length) }
    ensures value { Decodes part_of (content_in mode length (type_shape ty.now)) (C.state cursor.old) (C.state cursor.new) result }
{
    match mode {
        Mode::Two => read_filled(alloc, ty, guide, length, cursor),
        Mode::Inner => read_parameter_content(alloc, ty, guide, length, cursor),
        Mode::Tail => read_parameter_content(alloc, ty, guide, length, cursor),
    }
}

// Reads a value in a region of `length` octets, which must be used up.
#[cycle(decode)]
fn read_filled<C: Peeking>(
    alloc: Global,
    ty: &XType,
    guide: &Guide,
    length: u64,
    cursor: &mut C,
) -> Result<Part, DecodeFault>
    requires sound { sound (type_shape ty.now) ≡ true }
    requires room { length ≤ room (C.state cursor.old) }
    requires guide { IsGuide (type_shape ty.now) guide.now }
    ensures behind { OnOk result ((C.state cursor.new).place ≡ (C.state cursor.old).place + length) }
    ensures value { Decodes part_of (λ o s. filling length (λ s1. read o (type_shape ty.now) s1) s) (C.state cursor.old) (C.state cursor.new) result }
{
    let outer = enter_part(cursor, length)?;
    let part = read_part(alloc, ty, guide, Mode::Two, cursor)?;
    close_frame(
        cursor,
        Frame {
            framing: Framing::Filled,
            outer,
        },
    )?;
    Ok(part)
}

// Reads a value in a region of `length` octets with an origin of its own.
#[cycle(decode)]
fn read_parameter_content<C: Peeking>(
    alloc: Global,
    ty: &XType,
    guide: &Guide,
    length: u64,
    cursor: &mut C,
) -> Result<Part, DecodeFault>
    requires sound { sound (type_shape ty.now) ≡ true }
    requires room { length ≤ room (C.state cursor.old) }
    requires guide { IsGuide (type_shape ty.now) guide.now }
    ensures behind { OnOk result ((C.state cursor.new).place ≡ (C.state cursor.old).place + length) }
    ensures value { Decodes part_of (parameter_content length (type_shape ty.now)) (C.state cursor.old) (C.state cursor.new) result }
{
    let content = open_content(cursor, length)?;
    let part = read_part(alloc, ty, guide, Mode::Tail, cursor)?;
    close_content(cursor, content, spare_of(ty))?;
    Ok(part)
}

#[cycle(decode)]
fn read_union<C: Peeking>(
    alloc: Global,
    kind: &UnionType,
    guide: &Guide,
    mode: Mode,
    cursor: &mut C,
) -> Result<Part, DecodeFault>
    requires sound { sound (shape (union_tree kind.now)) ≡ true }
    requires guide { IsGuide (shape (union_tree kind.now)) guide.now }
    ensures { Decodes part_of (inside mode (shape (union_tree kind.now))) (C.state cursor.old) (C.state cursor.new) result }
{
    match kind.ext {
        Ext::Final => read_selected(alloc, kind, guide, false, mode, cursor),
        Ext::Appendable => read_selected(alloc, kind, guide, mode.may_end(), mode, cursor),
        Ext::Mutable => Err(short(cursor.place())),
    }
}

#[cycle(decode)]
fn read_selected<C: Peeking>(
    alloc: Global,
    kind: &UnionType,
    guide: &Guide,
    filled: bool,
    mode: Mode,
    cursor: &mut C,
) -> Result<Part, DecodeFault>
    requires sound { sound_cases (cases_shape (out-UnionType kind.now).cases) ≡ true }
    requires guide { IsGuide (shape (union_tree kind.now)) guide.now }
    ensures { Decodes part_of (union_read mode filled (type_shape (out-UnionType kind.now).disc) (cases_shape (out-UnionType kind.now).cases)) (C.state cursor.old) (C.state cursor.new) result }
{
    let number = read_disc(cursor, mode, &kind.disc)?;
    let case = read_case(
        alloc,
        kind.cases.as_slice(),
        guide,
        number,
        filled,
        mode,
        cursor,
    )?;
    let fits = guide.part(0).fits_disc(&kind.disc, number);
    Ok(whole_union(alloc, fits, number, case)?)
}

#[cycle(decode)]
#[tactic(auto, using(crate::proofs::Indexed::sound_case))]
fn read_case<C: Peeking>(
    alloc: Global,
    cases: &[Case],
    guide: &Guide,
    number: i128,
    filled: bool,
    mode: Mode,
    cursor: &mut C,
) -> Result<SettledCase, DecodeFault>
    requires sound { sound_cases (cases_shape cases.now) ≡ true }
    requires tells { TellsCases (cases_shape cases.now) guide.now }
    requires guide { AreCaseGuides (cases_shape cases.now) guide.now 1 }
    ensures { Decodes case_of (case_in mode filled (cases_shape cases.now) number) (C.state cursor.old) (C.state cursor.new) result }
{
    match choose(guide, cases, number, filled, has_ended(cursor, true)) {
        Choice::NoCase => Ok(SettledCase::NoCase),
        Choice::OneSided => {
            pass_rest(cursor, mode)?;
            Ok(SettledCase::OneSided)
        }
        Choice::Case(at) => read_body(alloc, &cases[at], guide.part(at + 1), filled, mode, cursor),
    }
}

#[cycle(decode)]
fn read_body<C: Peeking>(
    alloc: Global,
    case: &Case,
    guide: &Guide,
    filled: bool,
    mode: Mode,
    cursor: &mut C,
) -> Result<SettledCase, DecodeFault>
    requires sound { sound (type_shape case.now.ty) ≡ true }
    requires guide { IsGuide (type_shape case.now.ty) guide.now }
    ensures { Decodes case_of (body_read mode filled (case_head case.now) (type_shape case.now.ty)) (C.state cursor.old) (C.state cursor.new) result }
{
    let part = read_whole(alloc, &case.ty, guide, filled, mode, cursor)?;
    Ok(settle_case(alloc, case, part)?)
}

// Reads a case's value, which has all that is left of the region where it is `filled`.
#[cycle(decode)]
fn read_whole<C: Peeking>(
    alloc: Global,
    ty: &XType,
    guide: &Guide,
    filled: bool,
    mode: Mode,
    cursor: &mut C,
) -> Result<Part, DecodeFault>
    requires sound { sound (type_shape ty.now) ≡ true }
    requires guide { IsGuide (type_shape ty.now) guide.now }
    ensures { Decodes part_of (whole_read mode filled (type_shape ty.now)) (C.state cursor.old) (C.state cursor.new) result }
{
    if mode.fills(filled) {
        let left = cursor.region_end() - cursor.place();
        return read_content(alloc, ty, guide, left, mode, cursor);
    }
    read_part(alloc, ty, guide, mode, cursor)
}
