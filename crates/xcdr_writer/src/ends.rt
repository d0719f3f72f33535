//! Where a value's octets end that are written from a place on. An end past every sample's is answered as `TOO_FAR`.
ghost use Rattle.std.specs.Prelude.{◌≡◌, ◌&&◌, map};
ghost use Rattle.std.specs.Option.{option_map};
ghost use Rattle.xt_shapes.specs.Vals as vals;
ghost use Rattle.xt_shapes.specs.declared.leaves.Order.TheVariants.{Little};
ghost use Rattle.xcdr_model.specs.FixedSpelling.{fixed, fixed1, fixed_of, slot_fixed, slot_fixed1, sent_fixed1, piece_fixed, param_fixed, code_of, if_present_fixed, text_fixed};
ghost use Rattle.xcdr_model.specs.FixedSpelling as size_of;
ghost use Rattle.xcdr_model.specs.Xcdr2Reading.{is_primitive};
ghost use Rattle.type_trees.specs.Bridge.{type_shape, members_shape, cases_shape, member_head};
ghost use Rattle.type_trees.specs.Parts.{structure_parts, union_parts};
ghost use Rattle.xt_shapes.specs.Vals.{Val};
ghost use Rattle.type_trees.specs.View.{val, pair_val, slots_val};
ghost use Rattle.value_writer.specs.Places.{end_of, number_end};
ghost use Rattle.value_writer.specs.Slots.{slot_of};
ghost use Rattle.xcdr_writer.specs.Parts as parts;
ghost use Rattle.xcdr_writer.specs.Parts.{slot_in, piece_in, members_of, pieces_of, case_of, items_fixed, counted_items, entries_fixed, counted_entries, sequence_fixed, array_fixed, map_fixed, mutable_fixed, structure_fixed, selected_fixed, union_fixed, mutable_union, header_end, param_header_end, presence_end, delimiter_end};

use crate::forms::{is_bare, is_short, most_of};
use type_trees::{
    ArrayType, Case, MapType, Member, Pair, SeqType, Slot, StructType, UnionType, Value, XType,
    as_prim, select,
};
use value_writer::{
    TOO_FAR, body_in, disc_in, end_of_number, end_of_octets, end_of_run, entries_in, items_in,
    length_code, octets_in, slot_at, slots_in,
};
use xt_shapes::{Ext, Rep};
use xt_wire::numbers::{enum_size, mask_size, prim_size, scalar_size};

fn end_of_scalar(rep: Rep, ty: &XType, place: u64) -> u64
    ensures { result ≡ number_end (parts.most_of rep) (size_of.scalar_size (type_shape ty.now)) place }
{
    match scalar_size(ty) {
        0 => place.min(TOO_FAR),
        size => end_of_number(most_of(rep), size, place),
    }
}

/// The end of a count of 32 bits.
fn end_of_count(place: u64) -> u64
    ensures { result ≡ number_end 4 4 place }
{
    end_of_number(4, 4, place)
}

/// The end of a member's header of XCDR2 with this length code, and of the count behind it, if it has one.
fn end_of_header(code: u32, place: u64) -> u64
    ensures { result ≡ header_end code place }
{
    let end = end_of_count(place);
    if code < 4 { end } else { end_of_count(end) }
}

/// The end of a parameter's header of XCDR1.
fn end_of_param_header(id: u32, length: u64, place: u64) -> u64
    ensures { result ≡ param_header_end id length place }
{
    let end = end_of_count(place);
    if is_short(id, length) {
        end
    } else {
        end_of_octets(8, end)
    }
}

#[cycle(ends)]
fn end_of_each(rep: Rep, ty: &XType, values: &[Value], place: u64) -> u64
    ensures { result ≡ end_of (items_fixed rep Little (type_shape ty.now) (map val values.now)) place }
{
    let mut end = place.min(TOO_FAR);
    for value in values {
        end = end_of_value(rep, ty, value, end);
    }
    end
}

#[cycle(ends)]
pub(crate) fn end_of_items(rep: Rep, ty: &XType, values: &[Value], place: u64) -> u64
    ensures { result ≡ end_of (items_fixed rep Little (type_shape ty.now) (map val values.now)) place }
{
    match as_prim(ty) {
        Some(prim) => end_of_run(most_of(rep), prim_size(prim), values.len(), place),
        None => end_of_each(rep, ty, values, place),
    }
}

#[cycle(ends)]
#[tactic(auto, using(type_trees::proofs::Views::val_rules))]
fn end_of_entries(rep: Rep, kind: &MapType, entries: &[Pair], place: u64) -> u64
    ensures { let key = type_shape kind.now.key.ty in
        let value = type_shape kind.now.value.ty in
        result ≡ end_of (entries_fixed rep Little key value (map pair_val entries.now)) place }
{
    let mut end = place.min(TOO_FAR);
    for entry in entries {
        let key_end = end_of_value(rep, &kind.key.ty, &entry.key, end);
        end = end_of_value(rep, &kind.value.ty, &entry.value, key_end);
    }
    end
}

#[cycle(ends)]
pub(crate) fn end_of_present(rep: Rep, ty: &XType, body: Option<&Value>, place: u64) -> u64
    ensures { let f = λ (w : Val). fixed_of rep Little (type_shape ty.now) w in
        result ≡ end_of (if_present_fixed (slot_of (option_map (λ v. val v.now) body.entry)) f) place }
{
    match body {
        None => place.min(TOO_FAR),
        Some(value) => end_of_value(rep, ty, value, place),
    }
}

/// The end of a parameter of XCDR1 with the member's content, which is empty where the member is absent.
#[cycle(ends)]
fn end_of_param(member: &Member, slot: Option<&Value>, place: u64) -> u64
    ensures { let f = λ (w : Val). fixed1 Little (type_shape member.now.ty) w in
        let content = if_present_fixed (slot_of (option_map (λ v. val v.now) slot.entry)) f 0 in
        result ≡ end_of (param_fixed Little (member_head member.now) content) place }
{
    let length = end_of_present(Rep::Xcdr1, &member.ty, slot, 0);
    end_of_octets(
        length as usize,
        end_of_param_header(member.id, length, place),
    )
}

#[cycle(ends)]
fn end_of_slot1(member: &Member, slot: Option<&Value>, place: u64) -> u64
    ensures { let f = λ (w : Val). fixed1 Little (type_shape member.now.ty) w in
        let s = slot_of (option_map (λ v. val v.now) slot.entry) in
        result ≡ end_of (slot_fixed1 member.now.optional Little (member_head member.now) f s) place }
{
    if member.optional {
        end_of_param(member, slot, place)
    } else {
        end_of_present(Rep::Xcdr1, &member.ty, slot, place)
    }
}

/// The end of the octet before an optional member of XCDR2.
fn end_of_presence(optional: bool, place: u64) -> u64
    ensures { result ≡ presence_end optional place }
{
    if optional {
        end_of_number(4, 1, place)
    } else {
        place
    }
}

#[cycle(ends)]
fn end_of_slot2(member: &Member, slot: Option<&Value>, place: u64) -> u64
    ensures { let f = λ (w : Val). fixed Little (type_shape member.now.ty) w in
        result ≡ end_of (slot_fixed member.now.optional Little f (slot_of (option_map (λ v. val v.now) slot.entry))) place }
{
    end_of_present(
        Rep::Xcdr2,
        &member.ty,
        slot,
        end_of_presence(member.optional, place),
    )
}

#[cycle(ends)]
fn end_of_slot(rep: Rep, member: &Member, slot: Option<&Value>, place: u64) -> u64
    ensures { let f = λ (w : Val). fixed_of rep Little (type_shape member.now.ty) w in
        result ≡ end_of (slot_in rep Little (member_head member.now) f (slot_of (option_map (λ v. val v.now) slot.entry))) place }
{
    match rep {
        Rep::Xcdr1 => end_of_slot1(member, slot, place),
        Rep::Xcdr2 => end_of_slot2(member, slot, place),
    }
}

#[cycle(ends)]
pub(crate) fn end_of_members(rep: Rep, members: &[Member], slots: &[Slot], place: u64) -> u64
    ensures { result ≡ end_of (members_of rep Little (members_shape members.now) (slots_val slots.now)) place }
{
    let mut end = place.min(TOO_FAR);
    for at in 0..members.len() {
        end = end_of_slot(rep, &members[at], slot_at(slots, at), end);
    }
    end
}

#[cycle(ends)]
fn end_of_piece1(member: &Member, slot: Option<&Value>, place: u64) -> u64
    ensures { let f = λ (w : Val). fixed1 Little (type_shape member.now.ty) w in
        result ≡ end_of (sent_fixed1 Little (member_head member.now) f (slot_of (option_map (λ v. val v.now) slot.entry))) place }
{
    match slot {
        None => place.min(TOO_FAR),
        Some(_) => end_of_param(member, slot, place),
    }
}

#[cycle(ends)]
fn end_of_piece2(member: &Member, slot: Option<&Value>, place: u64) -> u64
    ensures { let f = λ (w : Val). fixed Little (type_shape member.now.ty) w in
        let code = code_of (size_of.scalar_size (type_shape member.now.ty)) in
        result ≡ end_of (piece_fixed Little (member_head member.now) code f (slot_of (option_map (λ v. val v.now) slot.entry))) place }
{
    match slot {
        None => place.min(TOO_FAR),
        Some(value) => {
            let code = length_code(scalar_size(&member.ty));
            end_of_value(Rep::Xcdr2, &member.ty, value, end_of_header(code, place))
        }
    }
}

#[cycle(ends)]
fn end_of_piece(rep: Rep, member: &Member, slot: Option<&Value>, place: u64) -> u64
    ensures { let f = λ (w : Val). fixed_of rep Little (type_shape member.now.ty) w in
        let size = size_of.scalar_size (type_shape member.now.ty) in
        result ≡ end_of (piece_in rep Little (member_head member.now) size f (slot_of (option_map (λ v. val v.now) slot.entry))) place }
{
    match rep {
        Rep::Xcdr1 => end_of_piece1(member, slot, place),
        Rep::Xcdr2 => end_of_piece2(member, slot, place),
    }
}

#[cycle(ends)]
pub(crate) fn end_of_pieces(rep: Rep, members: &[Member], slots: &[Slot], place: u64) -> u64
    ensures { result ≡ end_of (pieces_of rep Little (members_shape members.now) (slots_val slots.now)) place }
{
    let mut end = place.min(TOO_FAR);
    for at in 0..members.len() {
        end = end_of_piece(rep, &members[at], slot_at(slots, at), end);
    }
    end
}

/// The end of a MUTABLE structure: of the count of its octets and its members, or of these and the end of their list.
#[cycle(ends)]
fn end_of_mutable(rep: Rep, members: &[Member], slots: &[Slot], place: u64) -> u64
    ensures { result ≡ end_of (mutable_fixed rep Little (members_shape members.now) (slots_val slots.now)) place }
{
    match rep {
        Rep::Xcdr1 => end_of_count(end_of_pieces(rep, members, slots, place)),
        Rep::Xcdr2 => end_of_pieces(rep, members, slots, end_of_count(place)),
    }
}

#[cycle(ends)]
fn end_of_structure(rep: Rep, kind: &StructType, slots: &[Slot], place: u64) -> u64
    ensures { let parts = structure_parts kind.now in
        result ≡ end_of (structure_fixed rep Little parts.0 parts.1 (slots_val slots.now)) place }
{
    match kind.ext {
        Ext::Final => end_of_members(rep, kind.members.as_slice(), slots, place),
        Ext::Appendable => {
            let start = end_of_delimiter(is_bare(rep, false), place);
            end_of_members(rep, kind.members.as_slice(), slots, start)
        }
        Ext::Mutable => end_of_mutable(rep, kind.members.as_slice(), slots, place),
    }
}

#[cycle(ends)]
fn end_of_case(rep: Rep, cases: &[Case], id: u32, body: Option<&Value>, place: u64) -> u64
    ensures { result ≡ end_of (case_of rep Little (cases_shape cases.now) id (slot_of (option_map (λ v. val v.now) body.entry))) place }
{
    for case in cases {
        if case.id == id {
            return end_of_present(rep, &case.ty, body, place);
        }
    }
    place.min(TOO_FAR)
}

/// The end of a discriminator and of the case that it selects.
#[cycle(ends)]
pub(crate) fn end_of_selected(
    rep: Rep,
    kind: &UnionType,
    disc: i128,
    body: Option<&Value>,
    place: u64,
) -> u64
    ensures { let parts = union_parts kind.now in
        let slot = slot_of (option_map (λ v. val v.now) body.entry) in
        result ≡ end_of (selected_fixed rep Little parts.2 parts.3 disc slot) place }
{
    let end = end_of_scalar(rep, &kind.disc, place);
    match select(kind.cases.as_slice(), disc) {
        None => end,
        Some(id) => end_of_case(rep, kind.cases.as_slice(), id, body, end),
    }
}

/// The end of a MUTABLE union, which XCDR2 has not.
#[cycle(ends)]
fn end_of_mutable_union(rep: Rep, kind: &UnionType, value: &Value, place: u64) -> u64
    ensures { let parts = union_parts kind.now in
        let v = val value.now in
        result ≡ end_of (mutable_union rep (selected_fixed rep Little parts.2 parts.3 (vals.disc_in v) (vals.body_in v))) place }
{
    match rep {
        Rep::Xcdr1 => end_of_selected(rep, kind, disc_in(value), body_in(value), place),
        Rep::Xcdr2 => place.min(TOO_FAR),
    }
}

#[cycle(ends)]
fn end_of_union(rep: Rep, kind: &UnionType, value: &Value, place: u64) -> u64
    ensures { let parts = union_parts kind.now in
        let v = val value.now in
        result ≡ end_of (union_fixed rep Little parts.0 parts.2 parts.3 (vals.disc_in v) (vals.body_in v)) place }
{
    match kind.ext {
        Ext::Final => end_of_selected(rep, kind, disc_in(value), body_in(value), place),
        Ext::Appendable => {
            let start = end_of_delimiter(is_bare(rep, false), place);
            end_of_selected(rep, kind, disc_in(value), body_in(value), start)
        }
        Ext::Mutable => end_of_mutable_union(rep, kind, value, place),
    }
}

/// Whether these are primitives.
fn is_plain(ty: &XType) -> bool
    ensures { result ≡ is_primitive (type_shape ty.now) }
{
    as_prim(ty).is_some()
}

/// Whether a collection of these elements begins with no count of octets.
pub(crate) fn are_bare(rep: Rep, ty: &XType) -> bool
    ensures { result ≡ parts.is_bare rep (is_primitive (type_shape ty.now)) }
{
    is_bare(rep, is_plain(ty))
}

/// The same of a map's keys and values.
pub(crate) fn are_bare_entries(rep: Rep, kind: &MapType) -> bool
    ensures { result ≡ parts.is_bare rep (is_primitive (type_shape kind.now.key.ty) && is_primitive (type_shape kind.now.value.ty)) }
{
    is_bare(rep, is_plain(&kind.key.ty) && is_plain(&kind.value.ty))
}

/// The end of the count of octets before a part, unless it is `bare`.
fn end_of_delimiter(bare: bool, place: u64) -> u64
    ensures { result ≡ delimiter_end bare place }
{
    if bare { place } else { end_of_count(place) }
}

/// The end of a count of elements and of these.
#[cycle(ends)]
pub(crate) fn end_of_counted(rep: Rep, ty: &XType, values: &[Value], place: u64) -> u64
    ensures { result ≡ end_of (counted_items rep Little (type_shape ty.now) (map val values.now)) place }
{
    end_of_items(rep, ty, values, end_of_count(place))
}

/// The end of a count of entries and of these.
#[cycle(ends)]
pub(crate) fn end_of_counted_entries(rep: Rep, kind: &MapType, entries: &[Pair], place: u64) -> u64
    ensures { let key = type_shape kind.now.key.ty in
        let value = type_shape kind.now.value.ty in
        result ≡ end_of (counted_entries rep Little key value (map pair_val entries.now)) place }
{
    end_of_entries(rep, kind, entries, end_of_count(place))
}

#[cycle(ends)]
fn end_of_sequence(rep: Rep, kind: &SeqType, values: &[Value], place: u64) -> u64
    ensures { result ≡ end_of (sequence_fixed rep Little (type_shape kind.now.elem.ty) (map val values.now)) place }
{
    let start = end_of_delimiter(are_bare(rep, &kind.elem.ty), place);
    end_of_counted(rep, &kind.elem.ty, values, start)
}

#[cycle(ends)]
fn end_of_array(rep: Rep, kind: &ArrayType, values: &[Value], place: u64) -> u64
    ensures { result ≡ end_of (array_fixed rep Little (type_shape kind.now.elem.ty) (map val values.now)) place }
{
    let start = end_of_delimiter(are_bare(rep, &kind.elem.ty), place);
    end_of_items(rep, &kind.elem.ty, values, start)
}

#[cycle(ends)]
fn end_of_map(rep: Rep, kind: &MapType, entries: &[Pair], place: u64) -> u64
    ensures { let key = type_shape kind.now.key.ty in
        let value = type_shape kind.now.value.ty in
        result ≡ end_of (map_fixed rep Little key value (map pair_val entries.now)) place }
{
    let start = end_of_delimiter(are_bare_entries(rep, kind), place);
    end_of_counted_entries(rep, kind, entries, start)
}

/// The end of a string: its count, its octets, and a NUL.
fn end_of_text(octets: &[u8], place: u64) -> u64
    ensures { result ≡ end_of (text_fixed Little octets.now) place }
{
    end_of_octets(1, end_of_octets(octets.len(), end_of_count(place)))
}

/// The end of a value whose octets begin at `place`.
#[cycle(ends)]
#[tactic(auto, using(type_trees::proofs::Views::tree_rules))]
pub(crate) fn end_of_value(rep: Rep, ty: &XType, value: &Value, place: u64) -> u64
    ensures { result ≡ end_of (fixed_of rep Little (type_shape ty.now) (val value.now)) place }
{
    match ty {
        XType::Prim(prim) => end_of_number(most_of(rep), prim_size(*prim), place),
        XType::Enum(kind) => end_of_number(most_of(rep), enum_size(kind.bits), place),
        XType::Mask(kind) => end_of_number(most_of(rep), mask_size(kind.bits), place),
        XType::Str(_) => end_of_text(octets_in(value), place),
        XType::Seq(kind) => end_of_sequence(rep, kind, items_in(value), place),
        XType::Array(kind) => end_of_array(rep, kind, items_in(value), place),
        XType::Map(kind) => end_of_map(rep, kind, entries_in(value), place),
        XType::Struct(kind) => end_of_structure(rep, kind, slots_in(value), place),
        XType::Union(kind) => end_of_union(rep, kind, value, place),
        XType::Alias(kind) => end_of_value(rep, &kind.ty, value, place),
    }
}
