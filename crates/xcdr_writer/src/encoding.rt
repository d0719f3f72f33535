//! Values as octets.
ghost use Rattle.std.specs.Prelude.{◌≡◌, ◌≤◌, ◌+◌, ◌*◌, ◌^◌, map, cond, nat_lt, length};
ghost use Rattle.std.specs.Option.{option_map};
ghost use Rattle.xt_shapes.specs.Vals as vals;
ghost use Rattle.xt_shapes.specs.Vals.{Val, present};
ghost use Rattle.xt_shapes.specs.Select as spec;
ghost use Rattle.xt_shapes.specs.declared.leaves.Ext.TheVariants.{Appendable};
ghost use Rattle.xcdr_model.specs.FixedSpelling.{fixed, fixed1, fixed_of, number_fixed, headed_fixed, scalar_fixed, slot_fixed, slot_fixed1, sent_fixed1, piece_fixed, param_fixed, end_fixed, code_of, pieces_fixed, params_fixed, then_fixed, if_present_fixed, text_fixed};
ghost use Rattle.xcdr_model.specs.FixedSpelling as size_of;
ghost use Rattle.type_trees.specs.Bridge.{type_shape, members_shape, cases_shape, member_head};
ghost use Rattle.type_trees.specs.Parts.{structure_parts, union_parts};
ghost use Rattle.type_trees.specs.View.{val, pair_val, slots_val};
ghost use Rattle.xt_wire.specs.writer.Writing.{Puts, PutsWithin};
ghost use Rattle.value_writer.specs.Slots.{slot_of};
ghost use Rattle.xt_wire.specs.numbers.Units.{IsSize};
ghost use Rattle.xcdr_model.specs.Numbers as numbers;
ghost use Rattle.xcdr_writer.specs.Parts as parts;
ghost use Rattle.xcdr_writer.specs.Parts.{slot_in, piece_in, members_of, pieces_of, case_of, items_fixed, counted_items, entries_fixed, counted_entries, sequence_fixed, array_fixed, map_fixed, mutable_fixed, structure_fixed, selected_fixed, mutable_union, union_fixed, presence_fixed};

use crate::ends::{
    are_bare, are_bare_entries, end_of_counted, end_of_counted_entries, end_of_items,
    end_of_members, end_of_pieces, end_of_present, end_of_selected, end_of_value,
};
use crate::forms::{is_bare, most_of};
use crate::params::{put_end, put_header};
use type_trees::{
    ArrayType, Case, MapType, Member, Pair, SeqType, Slot, StructType, UnionType, Value, XType,
    as_prim, select,
};
use value_writer::{
    body_in, disc_in, entries_in, header_of, is_must, items_in, length_code, number_in, octets_in,
    put_run, slot_at, slots_in,
};
use xt_outside::{Failed, Sink};
use xt_shapes::{Ext, Rep};
use xt_wire::numbers::{enum_size, mask_size, prim_size, scalar_size};
use xt_wire::writer::{Writer, raw};

/// A number of `size` octets: 1, 2, 4 or 8, or 0 for none.
fn encode_number<K: Sink>(
    rep: Rep,
    size: u32,
    number: i128,
    out: &mut Writer<K>,
) -> Result<(), Failed>
    requires { IsSize size }
    ensures { Puts (number_fixed (parts.most_of rep) out.old.order size (numbers.raw size number)) out.old out.new result }
{
    match size {
        0 => Ok(()),
        size => out.number(most_of(rep), size, raw(size, number)),
    }
}

fn encode_scalar<K: Sink>(
    rep: Rep,
    size: u32,
    value: &Value,
    out: &mut Writer<K>,
) -> Result<(), Failed>
    requires { IsSize size }
    ensures { let number = numbers.raw size (vals.number_in (val value.now)) in
        Puts (number_fixed (parts.most_of rep) out.old.order size number) out.old out.new result }
{
    encode_number(rep, size, number_in(value), out)
}

/// The discriminator of a union.
fn encode_disc<K: Sink>(
    rep: Rep,
    ty: &XType,
    value: &Value,
    out: &mut Writer<K>,
) -> Result<(), Failed>
    ensures { Puts (scalar_fixed (parts.most_of rep) out.old.order (type_shape ty.now) (vals.disc_in (val value.now))) out.old out.new result }
{
    encode_number(rep, scalar_size(ty), disc_in(value), out)
}

/// The id of the case that the union's discriminator selects.
fn selected_in(cases: &[Case], value: &Value) -> Option<u32>
    ensures { result ≡ spec.select (cases_shape cases.now) (vals.disc_in (val value.now)) }
{
    select(cases, disc_in(value))
}

/// A count of 32 bits.
fn encode_count<K: Sink>(count: u64, out: &mut Writer<K>) -> Result<(), Failed>
    ensures { Puts (number_fixed 4 out.old.order 4 count) out.old out.new result }
{
    out.number(4, 4, u128::from(count))
}

/// A string: the count of its octets with the NUL, the octets, and the NUL.
fn encode_text<K: Sink>(octets: &[u8], out: &mut Writer<K>) -> Result<(), Failed>
    ensures { Puts (text_fixed out.old.order octets.now) out.old out.new result }
{
    out.number(4, 4, octets.len() as u128 + 1)?;
    out.put(octets)?;
    out.put(&[0])
}

#[cycle(encode)]
fn encode_each<K: Sink>(
    rep: Rep,
    ty: &XType,
    values: &[Value],
    out: &mut Writer<K>,
) -> Result<(), Failed>
    ensures { PutsWithin 4294967296 (items_fixed rep out.old.order (type_shape ty.now) (map val values.now)) out.old out.new result }
{
    for value in values {
        encode_value(rep, ty, value, out)?;
    }
    Ok(())
}

#[cycle(encode)]
fn encode_items<K: Sink>(
    rep: Rep,
    ty: &XType,
    values: &[Value],
    out: &mut Writer<K>,
) -> Result<(), Failed>
    ensures { PutsWithin 4294967296 (items_fixed rep out.old.order (type_shape ty.now) (map val values.now)) out.old out.new result }
{
    match as_prim(ty) {
        Some(prim) => put_run(most_of(rep), prim_size(prim), values, out),
        None => encode_each(rep, ty, values, out),
    }
}

#[cycle(encode)]
fn encode_counted<K: Sink>(
    rep: Rep,
    ty: &XType,
    values: &[Value],
    out: &mut Writer<K>,
) -> Result<(), Failed>
    ensures { PutsWithin 4294967296 (counted_items rep out.old.order (type_shape ty.now) (map val values.now)) out.old out.new result }
{
    encode_count(values.len() as u64, out)?;
    encode_items(rep, ty, values, out)
}

#[cycle(encode)]
fn encode_sequence<K: Sink>(
    rep: Rep,
    kind: &SeqType,
    values: &[Value],
    out: &mut Writer<K>,
) -> Result<(), Failed>
    ensures { PutsWithin 4294967296 (sequence_fixed rep out.old.order (type_shape kind.now.elem.ty) (map val values.now)) out.old out.new result }
{
    if are_bare(rep, &kind.elem.ty) {
        return encode_counted(rep, &kind.elem.ty, values, out);
    }
    encode_count(end_of_counted(rep, &kind.elem.ty, values, 0), out)?;
    encode_counted(rep, &kind.elem.ty, values, out)
}

#[cycle(encode)]
fn encode_array<K: Sink>(
    rep: Rep,
    kind: &ArrayType,
    values: &[Value],
    out: &mut Writer<K>,
) -> Result<(), Failed>
    ensures { PutsWithin 4294967296 (array_fixed rep out.old.order (type_shape kind.now.elem.ty) (map val values.now)) out.old out.new result }
{
    if are_bare(rep, &kind.elem.ty) {
        return encode_items(rep, &kind.elem.ty, values, out);
    }
    encode_count(end_of_items(rep, &kind.elem.ty, values, 0), out)?;
    encode_items(rep, &kind.elem.ty, values, out)
}

#[cycle(encode)]
fn encode_entries<K: Sink>(
    rep: Rep,
    kind: &MapType,
    entries: &[Pair],
    out: &mut Writer<K>,
) -> Result<(), Failed>
    ensures { let key = type_shape kind.now.key.ty in
        let value = type_shape kind.now.value.ty in
        PutsWithin 4294967296 (entries_fixed rep out.old.order key value (map pair_val entries.now)) out.old out.new result }
{
    for entry in entries {
        encode_value(rep, &kind.key.ty, &entry.key, out)?;
        encode_value(rep, &kind.value.ty, &entry.value, out)?;
    }
    Ok(())
}

#[cycle(encode)]
fn encode_counted_entries<K: Sink>(
    rep: Rep,
    kind: &MapType,
    entries: &[Pair],
    out: &mut Writer<K>,
) -> Result<(), Failed>
    ensures { let key = type_shape kind.now.key.ty in
        let value = type_shape kind.now.value.ty in
        PutsWithin 4294967296 (counted_entries rep out.old.order key value (map pair_val entries.now)) out.old out.new result }
{
    encode_count(entries.len() as u64, out)?;
    encode_entries(rep, kind, entries, out)
}

#[cycle(encode)]
fn encode_map<K: Sink>(
    rep: Rep,
    kind: &MapType,
    entries: &[Pair],
    out: &mut Writer<K>,
) -> Result<(), Failed>
    ensures { let key = type_shape kind.now.key.ty in
        let value = type_shape kind.now.value.ty in
        PutsWithin 4294967296 (map_fixed rep out.old.order key value (map pair_val entries.now)) out.old out.new result }
{
    if are_bare_entries(rep, kind) {
        return encode_counted_entries(rep, kind, entries, out);
    }
    encode_count(end_of_counted_entries(rep, kind, entries, 0), out)?;
    encode_counted_entries(rep, kind, entries, out)
}

#[cycle(encode)]
fn encode_present<K: Sink>(
    rep: Rep,
    ty: &XType,
    body: Option<&Value>,
    out: &mut Writer<K>,
) -> Result<(), Failed>
    ensures { let order = out.old.order in
        PutsWithin 4294967296 (if_present_fixed (slot_of (option_map (λ v. val v.now) body.entry)) (λ w. fixed_of rep order (type_shape ty.now) w)) out.old out.new result }
{
    match body {
        None => Ok(()),
        Some(value) => encode_value(rep, ty, value, out),
    }
}

/// The content of a parameter of XCDR1, from an origin of its own.
#[cycle(encode)]
fn encode_apart<K: Sink>(
    ty: &XType,
    body: Option<&Value>,
    out: &mut Writer<K>,
) -> Result<(), Failed>
    ensures { let order = out.old.order in
        let content = if_present_fixed (slot_of (option_map (λ v. val v.now) body.entry)) (λ w. fixed1 order (type_shape ty.now) w) in
        PutsWithin 4294967296 (λ p. content 0) out.old out.new result }
{
    let origin = out.restart();
    let result = encode_present(Rep::Xcdr1, ty, body, out);
    out.resume(origin);
    result
}

/// A parameter of XCDR1: its header and the member's content, which is empty where the member is absent.
#[cycle(encode)]
fn encode_param<K: Sink>(
    member: &Member,
    slot: Option<&Value>,
    out: &mut Writer<K>,
) -> Result<(), Failed>
    ensures { let order = out.old.order in
        let content = if_present_fixed (slot_of (option_map (λ v. val v.now) slot.entry)) (λ w. fixed1 order (type_shape member.now.ty) w) 0 in
        PutsWithin 4294967296 (param_fixed order (member_head member.now) content) out.old out.new result }
{
    let length = end_of_present(Rep::Xcdr1, &member.ty, slot, 0);
    put_header(is_must(member), member.id, length, out)?;
    encode_apart(&member.ty, slot, out)
}

#[cycle(encode)]
fn encode_slot1<K: Sink>(
    member: &Member,
    slot: Option<&Value>,
    out: &mut Writer<K>,
) -> Result<(), Failed>
    ensures { let order = out.old.order in
        PutsWithin 4294967296 (slot_fixed1 member.now.optional order (member_head member.now) (λ w. fixed1 order (type_shape member.now.ty) w) (slot_of (option_map (λ v. val v.now) slot.entry))) out.old out.new result }
{
    if member.optional {
        encode_param(member, slot, out)
    } else {
        encode_present(Rep::Xcdr1, &member.ty, slot, out)
    }
}

/// The octet of XCDR2 that tells whether an optional member is present.
fn encode_presence<K: Sink>(
    optional: bool,
    present: bool,
    out: &mut Writer<K>,
) -> Result<(), Failed>
    ensures { Puts (presence_fixed out.old.order optional present) out.old out.new result }
{
    if optional {
        out.number(4, 1, u128::from(present))
    } else {
        Ok(())
    }
}

#[cycle(encode)]
fn encode_slot2<K: Sink>(
    member: &Member,
    slot: Option<&Value>,
    out: &mut Writer<K>,
) -> Result<(), Failed>
    ensures { let order = out.old.order in
        PutsWithin 4294967296 (slot_fixed member.now.optional order (λ w. fixed order (type_shape member.now.ty) w) (slot_of (option_map (λ v. val v.now) slot.entry))) out.old out.new result }
{
    encode_presence(member.optional, slot.is_some(), out)?;
    encode_present(Rep::Xcdr2, &member.ty, slot, out)
}

/// A member in its place.
#[cycle(encode)]
fn encode_slot<K: Sink>(
    rep: Rep,
    member: &Member,
    slot: Option<&Value>,
    out: &mut Writer<K>,
) -> Result<(), Failed>
    ensures { let order = out.old.order in
        PutsWithin 4294967296 (slot_in rep order (member_head member.now) (λ w. fixed_of rep order (type_shape member.now.ty) w) (slot_of (option_map (λ v. val v.now) slot.entry))) out.old out.new result }
{
    match rep {
        Rep::Xcdr1 => encode_slot1(member, slot, out),
        Rep::Xcdr2 => encode_slot2(member, slot, out),
    }
}

#[cycle(encode)]
fn encode_members<K: Sink>(
    rep: Rep,
    members: &[Member],
    slots: &[Slot],
    out: &mut Writer<K>,
) -> Result<(), Failed>
    ensures { PutsWithin 4294967296 (members_of rep out.old.order (members_shape members.now) (slots_val slots.now)) out.old out.new result }
{
    for at in 0..members.len() {
        encode_slot(rep, &members[at], slot_at(slots, at), out)?;
    }
    Ok(())
}

/// The content of a member of XCDR2: behind a count of its octets, where the length code is 4.
#[cycle(encode)]
fn encode_content<K: Sink>(
    ty: &XType,
    code: u32,
    value: &Value,
    out: &mut Writer<K>,
) -> Result<(), Failed>
    ensures { let order = out.old.order in
        let content = fixed order (type_shape ty.now) (val value.now) in
        PutsWithin 4294967296 (cond (nat_lt code 4) content (headed_fixed order content)) out.old out.new result }
{
    if code < 4 {
        return encode_value(Rep::Xcdr2, ty, value, out);
    }
    encode_count(end_of_value(Rep::Xcdr2, ty, value, 0), out)?;
    encode_value(Rep::Xcdr2, ty, value, out)
}

/// The header of a member of XCDR2 that is present, and its content.
#[cycle(encode)]
fn encode_present_piece<K: Sink>(
    member: &Member,
    value: &Value,
    out: &mut Writer<K>,
) -> Result<(), Failed>
    ensures { let order = out.old.order in
        let code = code_of (size_of.scalar_size (type_shape member.now.ty)) in
        PutsWithin 4294967296 (piece_fixed order (member_head member.now) code (λ w. fixed order (type_shape member.now.ty) w) (present (val value.now))) out.old out.new result }
{
    let code = length_code(scalar_size(&member.ty));
    out.number(4, 4, header_of(is_must(member), code, member.id))?;
    encode_content(&member.ty, code, value, out)
}

#[cycle(encode)]
fn encode_piece2<K: Sink>(
    member: &Member,
    slot: Option<&Value>,
    out: &mut Writer<K>,
) -> Result<(), Failed>
    ensures { let order = out.old.order in
        let code = code_of (size_of.scalar_size (type_shape member.now.ty)) in
        PutsWithin 4294967296 (piece_fixed order (member_head member.now) code (λ w. fixed order (type_shape member.now.ty) w) (slot_of (option_map (λ v. val v.now) slot.entry))) out.old out.new result }
{
    match slot {
        None => Ok(()),
        Some(value) => encode_present_piece(member, value, out),
    }
}

#[cycle(encode)]
fn encode_piece1<K: Sink>(
    member: &Member,
    slot: Option<&Value>,
    out: &mut Writer<K>,
) -> Result<(), Failed>
    ensures { let order = out.old.order in
        PutsWithin 4294967296 (sent_fixed1 order (member_head member.now) (λ w. fixed1 order (type_shape member.now.ty) w) (slot_of (option_map (λ v. val v.now) slot.entry))) out.old out.new result }
{
    match slot {
        None => Ok(()),
        Some(_) => encode_param(member, slot, out),
    }
}

/// A member behind its header, where it is present.
#[cycle(encode)]
fn encode_piece<K: Sink>(
    rep: Rep,
    member: &Member,
    slot: Option<&Value>,
    out: &mut Writer<K>,
) -> Result<(), Failed>
    ensures { let order = out.old.order in
        let size = size_of.scalar_size (type_shape member.now.ty) in
        PutsWithin 4294967296 (piece_in rep order (member_head member.now) size (λ w. fixed_of rep order (type_shape member.now.ty) w) (slot_of (option_map (λ v. val v.now) slot.entry))) out.old out.new result }
{
    match rep {
        Rep::Xcdr1 => encode_piece1(member, slot, out),
        Rep::Xcdr2 => encode_piece2(member, slot, out),
    }
}

#[cycle(encode)]
fn encode_pieces<K: Sink>(
    rep: Rep,
    members: &[Member],
    slots: &[Slot],
    out: &mut Writer<K>,
) -> Result<(), Failed>
    ensures { PutsWithin 4294967296 (pieces_of rep out.old.order (members_shape members.now) (slots_val slots.now)) out.old out.new result }
{
    for at in 0..members.len() {
        encode_piece(rep, &members[at], slot_at(slots, at), out)?;
    }
    Ok(())
}

/// The members of an APPENDABLE structure, in XCDR2 behind a count of their octets.
#[cycle(encode)]
fn encode_appendable<K: Sink>(
    rep: Rep,
    members: &[Member],
    slots: &[Slot],
    out: &mut Writer<K>,
) -> Result<(), Failed>
    ensures { let order = out.old.order in
        PutsWithin 4294967296 (structure_fixed rep order Appendable (members_shape members.now) (slots_val slots.now)) out.old out.new result }
{
    if is_bare(rep, false) {
        return encode_members(rep, members, slots, out);
    }
    encode_count(end_of_members(rep, members, slots, 0), out)?;
    encode_members(rep, members, slots, out)
}

/// Parameters in declared order, and the end of their list.
#[cycle(encode)]
fn encode_params<K: Sink>(
    members: &[Member],
    slots: &[Slot],
    out: &mut Writer<K>,
) -> Result<(), Failed>
    ensures { let order = out.old.order in
        PutsWithin 4294967296 (then_fixed (params_fixed order (members_shape members.now) (slots_val slots.now)) (end_fixed order)) out.old out.new result }
{
    encode_pieces(Rep::Xcdr1, members, slots, out)?;
    put_end(out)
}

/// Members behind their headers, all behind a count of their octets.
#[cycle(encode)]
fn encode_headed<K: Sink>(
    members: &[Member],
    slots: &[Slot],
    out: &mut Writer<K>,
) -> Result<(), Failed>
    ensures { let order = out.old.order in
        PutsWithin 4294967296 (headed_fixed order (pieces_fixed order (members_shape members.now) (slots_val slots.now))) out.old out.new result }
{
    encode_count(end_of_pieces(Rep::Xcdr2, members, slots, 0), out)?;
    encode_pieces(Rep::Xcdr2, members, slots, out)
}

#[cycle(encode)]
fn encode_mutable<K: Sink>(
    rep: Rep,
    members: &[Member],
    slots: &[Slot],
    out: &mut Writer<K>,
) -> Result<(), Failed>
    ensures { PutsWithin 4294967296 (mutable_fixed rep out.old.order (members_shape members.now) (slots_val slots.now)) out.old out.new result }
{
    match rep {
        Rep::Xcdr1 => encode_params(members, slots, out),
        Rep::Xcdr2 => encode_headed(members, slots, out),
    }
}

#[cycle(encode)]
fn encode_structure<K: Sink>(
    rep: Rep,
    kind: &StructType,
    slots: &[Slot],
    out: &mut Writer<K>,
) -> Result<(), Failed>
    ensures { let parts = structure_parts kind.now in
        PutsWithin 4294967296 (structure_fixed rep out.old.order parts.0 parts.1 (slots_val slots.now)) out.old out.new result }
{
    match kind.ext {
        Ext::Final => encode_members(rep, kind.members.as_slice(), slots, out),
        Ext::Appendable => encode_appendable(rep, kind.members.as_slice(), slots, out),
        Ext::Mutable => encode_mutable(rep, kind.members.as_slice(), slots, out),
    }
}

#[cycle(encode)]
fn encode_case<K: Sink>(
    rep: Rep,
    cases: &[Case],
    id: u32,
    body: Option<&Value>,
    out: &mut Writer<K>,
) -> Result<(), Failed>
    ensures { PutsWithin 4294967296 (case_of rep out.old.order (cases_shape cases.now) id (slot_of (option_map (λ v. val v.now) body.entry))) out.old out.new result }
{
    for case in cases {
        if case.id == id {
            return encode_present(rep, &case.ty, body, out);
        }
    }
    Ok(())
}

/// A discriminator, and the case that it selects.
#[cycle(encode)]
fn encode_selected<K: Sink>(
    rep: Rep,
    kind: &UnionType,
    value: &Value,
    out: &mut Writer<K>,
) -> Result<(), Failed>
    ensures { let parts = union_parts kind.now in
        let v = val value.now in
        PutsWithin 4294967296 (selected_fixed rep out.old.order parts.2 parts.3 (vals.disc_in v) (vals.body_in v)) out.old out.new result }
{
    encode_disc(rep, &kind.disc, value, out)?;
    match selected_in(kind.cases.as_slice(), value) {
        None => Ok(()),
        Some(id) => encode_case(rep, kind.cases.as_slice(), id, body_in(value), out),
    }
}

/// An APPENDABLE union, in XCDR2 behind a count of its octets.
#[cycle(encode)]
fn encode_appendable_union<K: Sink>(
    rep: Rep,
    kind: &UnionType,
    value: &Value,
    out: &mut Writer<K>,
) -> Result<(), Failed>
    ensures { let parts = union_parts kind.now in
        let v = val value.now in
        PutsWithin 4294967296 (union_fixed rep out.old.order Appendable parts.2 parts.3 (vals.disc_in v) (vals.body_in v)) out.old out.new result }
{
    if is_bare(rep, false) {
        return encode_selected(rep, kind, value, out);
    }
    encode_count(
        end_of_selected(rep, kind, disc_in(value), body_in(value), 0),
        out,
    )?;
    encode_selected(rep, kind, value, out)
}

/// A MUTABLE union, which XCDR2 has not.
#[cycle(encode)]
fn encode_mutable_union<K: Sink>(
    rep: Rep,
    kind: &UnionType,
    value: &Value,
    out: &mut Writer<K>,
) -> Result<(), Failed>
    ensures { let parts = union_parts kind.now in
        let v = val value.now in
        PutsWithin 4294967296 (mutable_union rep (selected_fixed rep out.old.order parts.2 parts.3 (vals.disc_in v) (vals.body_in v))) out.old out.new result }
{
    match rep {
        Rep::Xcdr1 => encode_selected(rep, kind, value, out),
        Rep::Xcdr2 => Ok(()),
    }
}

#[cycle(encode)]
fn encode_union<K: Sink>(
    rep: Rep,
    kind: &UnionType,
    value: &Value,
    out: &mut Writer<K>,
) -> Result<(), Failed>
    ensures { let parts = union_parts kind.now in
        let v = val value.now in
        PutsWithin 4294967296 (union_fixed rep out.old.order parts.0 parts.2 parts.3 (vals.disc_in v) (vals.body_in v)) out.old out.new result }
{
    match kind.ext {
        Ext::Final => encode_selected(rep, kind, value, out),
        Ext::Appendable => encode_appendable_union(rep, kind, value, out),
        Ext::Mutable => encode_mutable_union(rep, kind, value, out),
    }
}

/// Writes the one fixed spelling of `value` in that representation, at the writer's place and in its order, where it has fewer than
/// 4,294,967,296 octets there. Of a longer one some octets are written, of which nothing is said.
///
/// A refused call wrote a beginning of the spelling, and comes only where the sink's count of faults rose. It takes no memory.
#[cycle(encode)]
pub fn encode_value<K: Sink>(
    rep: Rep,
    ty: &XType,
    value: &Value,
    out: &mut Writer<K>,
) -> Result<(), Failed>
    ensures { PutsWithin 4294967296 (fixed_of rep out.old.order (type_shape ty.now) (val value.now)) out.old out.new result }
{
    match ty {
        XType::Prim(prim) => encode_scalar(rep, prim_size(*prim), value, out),
        XType::Enum(kind) => encode_scalar(rep, enum_size(kind.bits), value, out),
        XType::Mask(kind) => encode_scalar(rep, mask_size(kind.bits), value, out),
        XType::Str(_) => encode_text(octets_in(value), out),
        XType::Seq(kind) => encode_sequence(rep, kind, items_in(value), out),
        XType::Array(kind) => encode_array(rep, kind, items_in(value), out),
        XType::Map(kind) => encode_map(rep, kind, entries_in(value), out),
        XType::Struct(kind) => encode_structure(rep, kind, slots_in(value), out),
        XType::Union(kind) => encode_union(rep, kind, value, out),
        XType::Alias(kind) => encode_value(rep, &kind.ty, value, out),
    }
}
