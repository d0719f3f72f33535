//! Values as octets.
ghost use Rattle.std.specs.Prelude.{◌≡◌, IfSome, map, length, cond, nat_lt};
ghost use Rattle.xt_shapes.specs.declared.leaves.Order.TheVariants.{Little};
ghost use Rattle.xt_shapes.specs.declared.leaves.Ext.TheVariants.{Appendable};
ghost use Rattle.xt_shapes.specs.declared.leaves.Rep.TheVariants.{Xcdr1, Xcdr2};
ghost use Rattle.xt_shapes.specs.Vals as vals;
ghost use Rattle.xt_shapes.specs.Vals.{Val, slots_of, present};
ghost use Rattle.xcdr_model.specs.FixedSpelling.{fixed, fixed1, fixed_of, headed_fixed, slot_fixed, slot_fixed1, sent_fixed1, piece_fixed, param_fixed, code_of, if_present_fixed, then_fixed, end_fixed};
ghost use Rattle.xcdr_model.specs.FixedSpelling as size_of;
ghost use Rattle.xcdr_model.specs.Xcdr2Reading.{is_primitive};
ghost use Rattle.type_trees.specs.Bridge.{type_shape, members_shape, cases_shape, member_head};
ghost use Rattle.type_trees.specs.Parts.{structure_parts, union_parts};
ghost use Rattle.packed_reader.specs.View.{packed_val, packed_union, packed_slot, numbers_of};
ghost use Rattle.xcdr_writer.specs.Parts as parts;
ghost use Rattle.xcdr_writer.specs.Parts.{slot_in, piece_in, members_of, pieces_of, case_of, items_fixed, counted_items, sequence_fixed, array_fixed, structure_fixed, mutable_fixed, selected_fixed, union_fixed};
ghost use Rattle.packed_writer.specs.Appending.{Appends};

use crate::body::Body;
use crate::leaves::{put_count, put_presence, write_disc, write_scalar, write_text};
use crate::numbers::write_numbers;
use crate::params::{put_end, put_long, put_short};
use packed_reader::{Numbers, Packed, PackedSlot, PackedUnion};
use type_trees::{Case, Member, StructType, UnionType, XType, as_prim, select};
use value_writer::{header_of, is_must, length_code};
use xcdr_writer::{is_bare, is_short};
use xt_shapes::{Ext, Rep};
use xt_wire::numbers::{enum_size, mask_size, prim_size, scalar_size};

// Whether no count of octets stands before a list of that type.
fn are_bare(rep: Rep, ty: &XType) -> bool
    ensures { result ≡ parts.is_bare rep (is_primitive (type_shape ty.now)) }
{
    is_bare(rep, as_prim(ty).is_some())
}

// The number of items of a value that has them.
#[tactic(auto, using(packed_reader::proofs::Views::packed_rules))]
fn count_in(value: &Packed<'_>) -> Option<u64>
    ensures { IfSome result (λ n. n ≡ length (vals.items_in (packed_val value.now))) }
{
    match value {
        Packed::Numbers(numbers) => Some(numbers.count),
        Packed::Own(own) => Some(own.count),
        Packed::List(values) => Some(values.len() as u64),
        Packed::Natural(_) | Packed::Whole(_) | Packed::Text(_) => None,
        Packed::Struct(_) | Packed::Union(_) => None,
    }
}

#[cycle(writing)]
fn write_each(rep: Rep, ty: &XType, values: &[Packed<'_>], out: &mut Body) -> Option<()>
    ensures { IfSome result (λ u. Appends (items_fixed rep Little (type_shape ty.now) (map packed_val values.now)) out.old out.new) }
{
    for value in values {
        write_value(rep, ty, value, out)?;
    }
    Some(())
}

// Numbers, where the type is one of them.
fn write_run(rep: Rep, ty: &XType, numbers: &Numbers<'_>, out: &mut Body) -> Option<()>
    ensures { IfSome result (λ u. Appends (items_fixed rep Little (type_shape ty.now) (numbers_of numbers.now)) out.old out.new) }
{
    let Some(prim) = as_prim(ty) else {
        return None;
    };
    write_numbers(rep, prim, numbers, out)
}

// The items of a value that has them.
#[cycle(writing)]
fn write_items(rep: Rep, ty: &XType, value: &Packed<'_>, out: &mut Body) -> Option<()>
    ensures { IfSome result (λ u. Appends (items_fixed rep Little (type_shape ty.now) (vals.items_in (packed_val value.now))) out.old out.new) }
{
    match value {
        Packed::Numbers(numbers) => write_run(rep, ty, numbers, out),
        Packed::Own(own) => write_run(rep, ty, &own.lent(), out),
        Packed::List(values) => write_each(rep, ty, values.as_slice(), out),
        Packed::Natural(_) | Packed::Whole(_) | Packed::Text(_) => None,
        Packed::Struct(_) | Packed::Union(_) => None,
    }
}

#[cycle(writing)]
fn write_counted(rep: Rep, ty: &XType, value: &Packed<'_>, out: &mut Body) -> Option<()>
    ensures { IfSome result (λ u. Appends (counted_items rep Little (type_shape ty.now) (vals.items_in (packed_val value.now))) out.old out.new) }
{
    put_count(count_in(value)?, out)?;
    write_items(rep, ty, value, out)
}

#[cycle(writing)]
fn write_sequence(rep: Rep, ty: &XType, value: &Packed<'_>, out: &mut Body) -> Option<()>
    ensures { IfSome result (λ u. Appends (sequence_fixed rep Little (type_shape ty.now) (vals.items_in (packed_val value.now))) out.old out.new) }
{
    if are_bare(rep, ty) {
        return write_counted(rep, ty, value, out);
    }
    put_count(0, out)?;
    let begin = out.len();
    write_counted(rep, ty, value, out)?;
    out.count_from(begin)
}

#[cycle(writing)]
fn write_array(rep: Rep, ty: &XType, value: &Packed<'_>, out: &mut Body) -> Option<()>
    ensures { IfSome result (λ u. Appends (array_fixed rep Little (type_shape ty.now) (vals.items_in (packed_val value.now))) out.old out.new) }
{
    if are_bare(rep, ty) {
        return write_items(rep, ty, value, out);
    }
    put_count(0, out)?;
    let begin = out.len();
    write_items(rep, ty, value, out)?;
    out.count_from(begin)
}

// So many octets a value has at least, where it is a text or a list; else 0.
fn least_octets(slot: &PackedSlot<'_>) -> u64 {
    match slot {
        PackedSlot::Present(Packed::Numbers(numbers)) => numbers.octets.len() as u64,
        PackedSlot::Present(Packed::Own(own)) => own.octets.len() as u64,
        PackedSlot::Present(Packed::Text(octets)) => octets.len() as u64,
        PackedSlot::Present(Packed::List(values)) => values.len() as u64,
        PackedSlot::Present(_) | PackedSlot::Absent => 0,
    }
}

#[cycle(writing)]
fn write_present(rep: Rep, ty: &XType, slot: &PackedSlot<'_>, out: &mut Body) -> Option<()>
    ensures { IfSome result (λ u. Appends (if_present_fixed (packed_slot slot.now) (λ w. fixed_of rep Little (type_shape ty.now) w)) out.old out.new) }
{
    match slot {
        PackedSlot::Absent => Some(()),
        PackedSlot::Present(value) => write_value(rep, ty, value, out),
    }
}

// The content of a parameter of XCDR1, from an origin of its own.
#[cycle(writing)]
fn write_apart(ty: &XType, slot: &PackedSlot<'_>, out: &mut Body) -> Option<()>
    ensures { let content = if_present_fixed (packed_slot slot.now) (λ w. fixed1 Little (type_shape ty.now) w) in
        IfSome result (λ u. Appends (λ p. content 0) out.old out.new) }
{
    let origin = out.restart();
    write_present(Rep::Xcdr1, ty, slot, out)?;
    out.resume(origin);
    Some(())
}

// A parameter with the short header. None says nothing: it comes where that doesn't hold the id or the length.
#[cycle(writing)]
fn write_short_param(member: &Member, slot: &PackedSlot<'_>, out: &mut Body) -> Option<()>
    ensures { let content = if_present_fixed (packed_slot slot.now) (λ w. fixed1 Little (type_shape member.now.ty) w) in
        IfSome result (λ u. Appends (param_fixed Little (member_head member.now) (content 0)) out.old out.new) }
{
    put_short(is_must(member), member.id, out)?;
    let begin = out.len();
    write_apart(&member.ty, slot, out)?;
    if !is_short(member.id, out.len().saturating_sub(begin) as u64) {
        return None;
    }
    out.short_count_from(begin)
}

// A parameter with the extended header. None says nothing: it comes where the short one holds the id and the length.
#[cycle(writing)]
fn write_long_param(member: &Member, slot: &PackedSlot<'_>, out: &mut Body) -> Option<()>
    ensures { let content = if_present_fixed (packed_slot slot.now) (λ w. fixed1 Little (type_shape member.now.ty) w) in
        IfSome result (λ u. Appends (param_fixed Little (member_head member.now) (content 0)) out.old out.new) }
{
    put_long(is_must(member), member.id, out)?;
    let begin = out.len();
    write_apart(&member.ty, slot, out)?;
    if is_short(member.id, out.len().saturating_sub(begin) as u64) {
        return None;
    }
    out.count_from(begin)
}

// A parameter of XCDR1: its header and the member's content, which is empty where the member is absent. What has long lists inside, and
// is none, is left to the general writer.
#[cycle(writing)]
fn write_param(member: &Member, slot: &PackedSlot<'_>, out: &mut Body) -> Option<()>
    ensures { let content = if_present_fixed (packed_slot slot.now) (λ w. fixed1 Little (type_shape member.now.ty) w) in
        IfSome result (λ u. Appends (param_fixed Little (member_head member.now) (content 0)) out.old out.new) }
{
    if is_short(member.id, least_octets(slot)) {
        return write_short_param(member, slot, out);
    }
    write_long_param(member, slot, out)
}

#[cycle(writing)]
fn write_slot1(member: &Member, slot: &PackedSlot<'_>, out: &mut Body) -> Option<()>
    ensures { IfSome result (λ u. Appends (slot_fixed1 member.now.optional Little (member_head member.now) (λ w. fixed1 Little (type_shape member.now.ty) w) (packed_slot slot.now)) out.old out.new) }
{
    if member.optional {
        return write_param(member, slot, out);
    }
    write_present(Rep::Xcdr1, &member.ty, slot, out)
}

#[cycle(writing)]
fn write_slot2(member: &Member, slot: &PackedSlot<'_>, out: &mut Body) -> Option<()>
    ensures { IfSome result (λ u. Appends (slot_fixed member.now.optional Little (λ w. fixed Little (type_shape member.now.ty) w) (packed_slot slot.now)) out.old out.new) }
{
    match slot {
        PackedSlot::Absent => put_presence(member.optional, false, out),
        PackedSlot::Present(value) => {
            put_presence(member.optional, true, out)?;
            write_value(Rep::Xcdr2, &member.ty, value, out)
        }
    }
}

// A member in its place.
#[cycle(writing)]
#[inline(always)]
fn write_slot(rep: Rep, member: &Member, slot: &PackedSlot<'_>, out: &mut Body) -> Option<()>
    ensures { IfSome result (λ u. Appends (slot_in rep Little (member_head member.now) (λ w. fixed_of rep Little (type_shape member.now.ty) w) (packed_slot slot.now)) out.old out.new) }
{
    match rep {
        Rep::Xcdr1 => write_slot1(member, slot, out),
        Rep::Xcdr2 => write_slot2(member, slot, out),
    }
}

#[cycle(writing)]
fn write_members(
    rep: Rep,
    members: &[Member],
    slots: &[PackedSlot<'_>],
    out: &mut Body,
) -> Option<()>
    ensures { IfSome result (λ u. Appends (members_of rep Little (members_shape members.now) (slots_of (map packed_slot slots.now))) out.old out.new) }
{
    for at in 0..members.len() {
        if at >= slots.len() {
            return None;
        }
        write_slot(rep, &members[at], &slots[at], out)?;
    }
    Some(())
}

// The content of a member of XCDR2: behind a count of its octets, where the length code is 4.
#[cycle(writing)]
fn write_content(ty: &XType, code: u32, value: &Packed<'_>, out: &mut Body) -> Option<()>
    ensures { let content = fixed Little (type_shape ty.now) (packed_val value.now) in
        IfSome result (λ u. Appends (cond (nat_lt code 4) content (headed_fixed Little content)) out.old out.new) }
{
    if code < 4 {
        return write_value(Rep::Xcdr2, ty, value, out);
    }
    put_count(0, out)?;
    let begin = out.len();
    write_value(Rep::Xcdr2, ty, value, out)?;
    out.count_from(begin)
}

// The header of a member of XCDR2 that is present, and its content.
#[cycle(writing)]
fn write_present_piece(member: &Member, value: &Packed<'_>, out: &mut Body) -> Option<()>
    ensures { let code = code_of (size_of.scalar_size (type_shape member.now.ty)) in
        IfSome result (λ u. Appends (piece_fixed Little (member_head member.now) code (λ w. fixed Little (type_shape member.now.ty) w) (present (packed_val value.now))) out.old out.new) }
{
    let code = length_code(scalar_size(&member.ty));
    out.number(4, 4, header_of(is_must(member), code, member.id))?;
    write_content(&member.ty, code, value, out)
}

#[cycle(writing)]
fn write_piece1(member: &Member, slot: &PackedSlot<'_>, out: &mut Body) -> Option<()>
    ensures { IfSome result (λ u. Appends (sent_fixed1 Little (member_head member.now) (λ w. fixed1 Little (type_shape member.now.ty) w) (packed_slot slot.now)) out.old out.new) }
{
    match slot {
        PackedSlot::Absent => Some(()),
        PackedSlot::Present(_) => write_param(member, slot, out),
    }
}

#[cycle(writing)]
fn write_piece2(member: &Member, slot: &PackedSlot<'_>, out: &mut Body) -> Option<()>
    ensures { let code = code_of (size_of.scalar_size (type_shape member.now.ty)) in
        IfSome result (λ u. Appends (piece_fixed Little (member_head member.now) code (λ w. fixed Little (type_shape member.now.ty) w) (packed_slot slot.now)) out.old out.new) }
{
    match slot {
        PackedSlot::Absent => Some(()),
        PackedSlot::Present(value) => write_present_piece(member, value, out),
    }
}

// A member behind its header, where it is present.
#[cycle(writing)]
#[inline(always)]
fn write_piece(rep: Rep, member: &Member, slot: &PackedSlot<'_>, out: &mut Body) -> Option<()>
    ensures { let size = size_of.scalar_size (type_shape member.now.ty) in
        IfSome result (λ u. Appends (piece_in rep Little (member_head member.now) size (λ w. fixed_of rep Little (type_shape member.now.ty) w) (packed_slot slot.now)) out.old out.new) }
{
    match rep {
        Rep::Xcdr1 => write_piece1(member, slot, out),
        Rep::Xcdr2 => write_piece2(member, slot, out),
    }
}

#[cycle(writing)]
fn write_pieces(
    rep: Rep,
    members: &[Member],
    slots: &[PackedSlot<'_>],
    out: &mut Body,
) -> Option<()>
    ensures { IfSome result (λ u. Appends (pieces_of rep Little (members_shape members.now) (slots_of (map packed_slot slots.now))) out.old out.new) }
{
    for at in 0..members.len() {
        if at >= slots.len() {
            return None;
        }
        write_piece(rep, &members[at], &slots[at], out)?;
    }
    Some(())
}

// The members of an APPENDABLE structure, in XCDR2 behind a count of their octets.
#[cycle(writing)]
fn write_appendable(
    rep: Rep,
    members: &[Member],
    slots: &[PackedSlot<'_>],
    out: &mut Body,
) -> Option<()>
    ensures { IfSome result (λ u. Appends (structure_fixed rep Little Appendable (members_shape members.now) (slots_of (map packed_slot slots.now))) out.old out.new) }
{
    if is_bare(rep, false) {
        return write_members(rep, members, slots, out);
    }
    put_count(0, out)?;
    let begin = out.len();
    write_members(rep, members, slots, out)?;
    out.count_from(begin)
}

// Members behind their headers, all behind a count of their octets.
#[cycle(writing)]
fn write_headed(members: &[Member], slots: &[PackedSlot<'_>], out: &mut Body) -> Option<()>
    ensures { let ms = members_shape members.now in
        IfSome result (λ u. Appends (headed_fixed Little (pieces_of Xcdr2 Little ms (slots_of (map packed_slot slots.now)))) out.old out.new) }
{
    put_count(0, out)?;
    let begin = out.len();
    write_pieces(Rep::Xcdr2, members, slots, out)?;
    out.count_from(begin)
}

// Parameters in declared order, and the end of their list.
#[cycle(writing)]
fn write_params(members: &[Member], slots: &[PackedSlot<'_>], out: &mut Body) -> Option<()>
    ensures { let ms = members_shape members.now in
        IfSome result (λ u. Appends (then_fixed (pieces_of Xcdr1 Little ms (slots_of (map packed_slot slots.now))) (end_fixed Little)) out.old out.new) }
{
    write_pieces(Rep::Xcdr1, members, slots, out)?;
    put_end(out)
}

#[cycle(writing)]
fn write_mutable(
    rep: Rep,
    members: &[Member],
    slots: &[PackedSlot<'_>],
    out: &mut Body,
) -> Option<()>
    ensures { IfSome result (λ u. Appends (mutable_fixed rep Little (members_shape members.now) (slots_of (map packed_slot slots.now))) out.old out.new) }
{
    match rep {
        Rep::Xcdr1 => write_params(members, slots, out),
        Rep::Xcdr2 => write_headed(members, slots, out),
    }
}

#[cycle(writing)]
fn write_structure(
    rep: Rep,
    kind: &StructType,
    slots: &[PackedSlot<'_>],
    out: &mut Body,
) -> Option<()>
    ensures { let parts = structure_parts kind.now in
        IfSome result (λ u. Appends (structure_fixed rep Little parts.0 parts.1 (slots_of (map packed_slot slots.now))) out.old out.new) }
{
    match kind.ext {
        Ext::Final => write_members(rep, kind.members.as_slice(), slots, out),
        Ext::Appendable => write_appendable(rep, kind.members.as_slice(), slots, out),
        Ext::Mutable => write_mutable(rep, kind.members.as_slice(), slots, out),
    }
}

// The slots of a structure.
#[inline(always)]
#[tactic(auto, using(packed_reader::proofs::Views::packed_rules))]
fn slots_in<'b, 'a>(value: &'b Packed<'a>) -> Option<&'b [PackedSlot<'a>]>
    ensures { IfSome result (λ s. slots_of (map packed_slot s.now) ≡ vals.slots_in (packed_val value.now)) }
{
    match value {
        Packed::Struct(slots) => Some(slots.as_slice()),
        Packed::Natural(_) | Packed::Whole(_) | Packed::Text(_) => None,
        Packed::Numbers(_) | Packed::Own(_) | Packed::List(_) | Packed::Union(_) => None,
    }
}

// A structure, where the value is one.
#[cycle(writing)]
fn write_fields(rep: Rep, kind: &StructType, value: &Packed<'_>, out: &mut Body) -> Option<()>
    ensures { let parts = structure_parts kind.now in
        IfSome result (λ u. Appends (structure_fixed rep Little parts.0 parts.1 (vals.slots_in (packed_val value.now))) out.old out.new) }
{
    let Some(slots) = slots_in(value) else {
        return None;
    };
    write_structure(rep, kind, slots, out)
}

// The union of a value that is one.
#[tactic(auto, using(packed_reader::proofs::Views::packed_rules))]
fn union_in<'b, 'a>(value: &'b Packed<'a>) -> Option<&'b PackedUnion<'a>>
    ensures { IfSome result (λ u. packed_union u.now ≡ packed_val value.now) }
{
    match value {
        Packed::Union(union) => Some(union),
        Packed::Natural(_) | Packed::Whole(_) | Packed::Text(_) => None,
        Packed::Numbers(_) | Packed::Own(_) | Packed::List(_) | Packed::Struct(_) => None,
    }
}

// The value of the case with that id.
#[cycle(writing)]
fn write_case(rep: Rep, cases: &[Case], id: u32, value: &Packed<'_>, out: &mut Body) -> Option<()>
    ensures { IfSome result (λ u. Appends (case_of rep Little (cases_shape cases.now) id (present (packed_val value.now))) out.old out.new) }
{
    for case in cases {
        if case.id == id {
            return write_value(rep, &case.ty, value, out);
        }
    }
    None
}

// A discriminator, and the case that it selects.
#[cycle(writing)]
fn write_selected(rep: Rep, kind: &UnionType, union: &PackedUnion<'_>, out: &mut Body) -> Option<()>
    ensures { let parts = union_parts kind.now in
        IfSome result (λ u. Appends (selected_fixed rep Little parts.2 parts.3 union.now.disc (packed_slot union.now.body)) out.old out.new) }
{
    write_disc(rep, &kind.disc, union.disc, out)?;
    let cases = kind.cases.as_slice();
    match (select(cases, union.disc), &union.body) {
        (None, PackedSlot::Absent) => Some(()),
        (Some(id), PackedSlot::Present(value)) => write_case(rep, cases, id, value, out),
        (None, PackedSlot::Present(_)) | (Some(_), PackedSlot::Absent) => None,
    }
}

// An APPENDABLE union, in XCDR2 behind a count of its octets.
#[cycle(writing)]
fn write_appendable_union(
    rep: Rep,
    kind: &UnionType,
    union: &PackedUnion<'_>,
    out: &mut Body,
) -> Option<()>
    ensures { let parts = union_parts kind.now in
        IfSome result (λ u. Appends (union_fixed rep Little Appendable parts.2 parts.3 union.now.disc (packed_slot union.now.body)) out.old out.new) }
{
    if is_bare(rep, false) {
        return write_selected(rep, kind, union, out);
    }
    put_count(0, out)?;
    let begin = out.len();
    write_selected(rep, kind, union, out)?;
    out.count_from(begin)
}

// A union, where the value is one. MUTABLE ones are left to the general writer.
#[cycle(writing)]
fn write_union(rep: Rep, kind: &UnionType, value: &Packed<'_>, out: &mut Body) -> Option<()>
    ensures { let parts = union_parts kind.now in
        let v = packed_val value.now in
        IfSome result (λ u. Appends (union_fixed rep Little parts.0 parts.2 parts.3 (vals.disc_in v) (vals.body_in v)) out.old out.new) }
{
    let union = union_in(value)?;
    match kind.ext {
        Ext::Final => write_selected(rep, kind, union, out),
        Ext::Appendable => write_appendable_union(rep, kind, union, out),
        Ext::Mutable => None,
    }
}

/// Appends the one spelling of a value in that representation, as `fixed_of` has it. None says nothing, and what was appended is to be
/// thrown away.
#[cycle(writing)]
pub(crate) fn write_value(rep: Rep, ty: &XType, value: &Packed<'_>, out: &mut Body) -> Option<()>
    ensures { IfSome result (λ u. Appends (fixed_of rep Little (type_shape ty.now) (packed_val value.now)) out.old out.new) }
{
    match ty {
        XType::Prim(prim) => write_scalar(rep, prim_size(*prim), value, out),
        XType::Enum(kind) => write_scalar(rep, enum_size(kind.bits), value, out),
        XType::Mask(kind) => write_scalar(rep, mask_size(kind.bits), value, out),
        XType::Str(_) => write_text(value, out),
        XType::Seq(kind) => write_sequence(rep, &kind.elem.ty, value, out),
        XType::Array(kind) => write_array(rep, &kind.elem.ty, value, out),
        XType::Struct(kind) => write_fields(rep, kind, value, out),
        XType::Alias(kind) => write_value(rep, &kind.ty, value, out),
        XType::Union(kind) => write_union(rep, kind, value, out),
        XType::Map(_) => None,
    }
}
