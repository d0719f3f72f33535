ghost use Rattle.std.specs.Prelude.{◌≡◌, true};
ghost use Rattle.type_rules.specs.Places.{depth, members_depth};
ghost use Rattle.type_trees.specs.View.{tree, members_tree, sequence_tree, array_tree, struct_tree};
ghost use Rattle.json_values.specs.Names.{member_names};
ghost use Rattle.json_values.specs.Read.{value_of, prim_of, sequence_of, array_of};
ghost use Rattle.dynamic_data.specs.Faithful.{are_apart, is_faithful, members_are_faithful};
ghost use Rattle.packed_json.specs.Tapes.{Reads, ReadsItems, ReadsMembers};

use crate::tapes::leaves::{MANY, read_literal, read_mask, read_prim, read_text};
use crate::tapes::members::{absent_slots, fill, has_open_slot};
use crate::tapes::runs::read_numbers;
use dynamic_data::place_among;
use json::Element;
use packed_reader::{Packed, PackedSlot};
use std::alloc::Global;
use type_trees::sizes::elements_of;
use type_trees::{ArrayType, Member, SeqType, StructType, XType};
use type_values::is_past;
use xt_lists::Row;
use xt_shapes::Prim;
use xt_wire::numbers::prim_size;

// A sequence of numbers.
fn read_run<'a>(alloc: Global, bound: u32, prim: Prim, part: &Element<'_, '_>) -> Option<Packed<'a>>
    ensures { Reads (sequence_of bound (prim_of prim)) 1 part.now result }
{
    let own = read_numbers(alloc, prim, 0, part)?;
    if own.count > 4_294_967_295 || is_past(bound, own.count as usize) {
        return None;
    }
    Some(Packed::Own(own))
}

// An array's octets are asked for at once, where they are at most so many.
const ROOM: u64 = 4_096;

// An array of numbers.
fn read_grid<'a>(
    alloc: Global,
    dims: &[u32],
    prim: Prim,
    part: &Element<'_, '_>,
) -> Option<Packed<'a>>
    ensures { Reads (array_of dims.now (prim_of prim)) 1 part.now result }
{
    let elements = elements_of(dims);
    let room = elements.min(ROOM / 8) * u64::from(prim_size(prim));
    let own = read_numbers(alloc, prim, room as usize, part)?;
    if own.count >= u64::MAX || own.count != elements {
        return None;
    }
    Some(Packed::Own(own))
}

// The values of a list's items.
#[cycle(read_part)]
fn read_items<'a>(alloc: Global, ty: &XType, part: &Element<'_, 'a>) -> Option<Row<Packed<'a>>>
    requires { is_faithful (tree ty.now) ≡ true }
    ensures { ReadsItems (value_of (tree ty.now)) (depth (tree ty.now)) part.now result }
{
    let mut items = part.items()?;
    let mut values = Row::new(alloc);
    while let Some(item) = items.next() {
        let value = read_part(alloc, ty, &item)?;
        let Ok(()) = values.push(value) else {
            return None;
        };
    }
    Some(values)
}

#[cycle(read_part)]
#[tactic(auto, using(packed_reader::proofs::Views::packed_rules, type_trees::proofs::Views::tree_rules))]
fn read_sequence<'a>(alloc: Global, kind: &SeqType, part: &Element<'_, 'a>) -> Option<Packed<'a>>
    requires { is_faithful (sequence_tree kind.now) ≡ true }
    ensures { Reads (value_of (sequence_tree kind.now)) (depth (sequence_tree kind.now)) part.now result }
{
    if let XType::Prim(prim) = &kind.elem.ty {
        return read_run(alloc, kind.bound, *prim, part);
    }
    let values = read_items(alloc, &kind.elem.ty, part)?;
    if is_past(kind.bound, values.len()) {
        return None;
    }
    Some(Packed::List(values))
}

#[cycle(read_part)]
#[tactic(auto, using(packed_reader::proofs::Views::packed_rules, type_trees::proofs::Views::tree_rules))]
fn read_array<'a>(alloc: Global, kind: &ArrayType, part: &Element<'_, 'a>) -> Option<Packed<'a>>
    requires { is_faithful (array_tree kind.now) ≡ true }
    ensures { Reads (value_of (array_tree kind.now)) (depth (array_tree kind.now)) part.now result }
{
    if let XType::Prim(prim) = &kind.elem.ty {
        return read_grid(alloc, kind.dims.as_slice(), *prim, part);
    }
    let values = read_items(alloc, &kind.elem.ty, part)?;
    let count = values.as_slice().len() as u64;
    if count != elements_of(kind.dims.as_slice()) {
        return None;
    }
    Some(Packed::List(values))
}

#[cycle(read_part)]
fn read_member<'a>(alloc: Global, member: &Member, part: &Element<'_, 'a>) -> Option<Packed<'a>>
    requires { is_faithful (tree member.now.ty) ≡ true }
    ensures { Reads (value_of (tree member.now.ty)) (depth (tree member.now.ty)) part.now result }
{
    read_part(alloc, &member.ty, part)
}

// The slots of an object's members, of which each is found by its name.
#[cycle(read_part)]
fn read_members<'a>(
    alloc: Global,
    members: &[Member],
    part: &Element<'_, 'a>,
) -> Option<Row<PackedSlot<'a>>>
    requires apart { are_apart (member_names (members_tree members.now)) ≡ true }
    requires faithful { members_are_faithful (members_tree members.now) ≡ true }
    ensures { ReadsMembers (members_tree members.now) (members_depth (members_tree members.now)) part.now result }
{
    let mut rest = part.members()?;
    let mut slots = absent_slots(alloc, members.len())?;
    while let Some((key, item)) = rest.next() {
        let at = place_among(members, key)?;
        let value = read_member(alloc, &members[at], &item)?;
        fill(&mut slots, at, value);
    }
    Some(slots)
}

#[cycle(read_part)]
#[tactic(auto, using(packed_reader::proofs::Views::packed_rules, type_trees::proofs::Views::tree_rules))]
fn read_struct<'a>(alloc: Global, kind: &StructType, part: &Element<'_, 'a>) -> Option<Packed<'a>>
    requires { is_faithful (struct_tree kind.now) ≡ true }
    ensures { Reads (value_of (struct_tree kind.now)) (depth (struct_tree kind.now)) part.now result }
{
    if kind.members.len() > MANY {
        return None;
    }
    let slots = read_members(alloc, kind.members.as_slice(), part)?;
    if has_open_slot(kind.members.as_slice(), slots.as_slice()) {
        return None;
    }
    Some(Packed::Struct(slots))
}

/// The value of a type that JSON on a tape means. None comes as of `read_taped`.
#[cycle(read_part)]
#[tactic(auto, using(type_trees::proofs::Views::tree_rules))]
pub(crate) fn read_part<'a>(alloc: Global, ty: &XType, part: &Element<'_, 'a>) -> Option<Packed<'a>>
    requires { is_faithful (tree ty.now) ≡ true }
    ensures { Reads (value_of (tree ty.now)) (depth (tree ty.now)) part.now result }
{
    match ty {
        XType::Prim(prim) => read_prim(*prim, part),
        XType::Str(bound) => read_text(*bound, part),
        XType::Enum(kind) => read_literal(kind.literals.as_slice(), part),
        XType::Mask(kind) => read_mask(kind.bits, part),
        XType::Seq(kind) => read_sequence(alloc, kind, part),
        XType::Array(kind) => read_array(alloc, kind, part),
        XType::Struct(kind) => read_struct(alloc, kind, part),
        XType::Alias(kind) => read_part(alloc, &kind.ty, part),
        XType::Map(_) | XType::Union(_) => None,
    }
}
