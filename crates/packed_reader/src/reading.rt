// Values of octets.
ghost use Rattle.std.specs.Prelude.{◌≡◌, ◌==◌, ◌&&◌, ℕ, true, false, List, IfSome, length, map};
ghost use Rattle.type_trees.specs.Bridge.{shape, type_shape, members_shape, cases_shape, member_head};
ghost use Rattle.type_trees.specs.View.{struct_tree, union_tree};
ghost use Rattle.type_trees.specs.declared.types.UnionType.{out-UnionType};
ghost use Rattle.xcdr_model.specs.Premises.{sound, sound_members, sound_cases, distinct_members};
ghost use Rattle.xt_shapes.specs.declared.leaves.Ext.TheVariants.{Appendable, Mutable};
ghost use Rattle.xt_shapes.specs.Shape as model;
ghost use Rattle.xt_shapes.specs.Shape.{product};
ghost use Rattle.xcdr_model.specs.Xcdr2Reading.{is_primitive};
ghost use Rattle.try_construct.specs.Guides.{IsGuide, AreGuides, AreCaseGuides, TellsCases, part_at};
ghost use Rattle.packed_reader.specs.View.{packed_val, packed_slot};
ghost use Rattle.packed_reader.specs.Spots.{spot_of};
ghost use Rattle.packed_reader.specs.Pieces.{ReadsPiece, ReadsPieces};
ghost use Rattle.packed_reader.specs.Unions.{ReadsBody, ReadsUnion};
ghost use Rattle.packed_reader.specs.Reads.{Reads, ReadsCounted, ReadsEach, ReadsMembers, ReadsSlot};

use crate::ahead::Ahead;
use crate::leaves::{read_disc, read_enum, read_mask, read_presence, read_prim, read_text};
use crate::lists::read_numbers;
use crate::numbers::{next_region, next_word};
use crate::pieces::next_content;
use crate::values::{Packed, PackedSlot, PackedUnion};
use std::alloc::Global;
use try_construct::Guide;
use type_trees::sizes::elements_of;
use type_trees::{Case, Elem, Member, StructType, UnionType, XType, as_prim};
use type_values::is_past;
use xt_lists::Row;
use xt_shapes::{Ext, Order, Rep};

// So many values of a type, one after another.
#[cycle(reading)]
fn read_items<'a>(
    alloc: Global,
    rep: Rep,
    order: Order,
    ty: &XType,
    guide: &Guide,
    count: u64,
    ahead: Ahead<'a>,
) -> Option<(Row<Packed<'a>>, Ahead<'a>)>
    requires sound { sound (type_shape ty.now) ≡ true }
    requires guide { IsGuide (type_shape ty.now) guide.now }
    ensures many { IfSome result (λ x. length x.0 ≡ count) }
    ensures value { IfSome result (λ x. ReadsEach rep order (type_shape ty.now) count (spot_of ahead.entry) (map packed_val x.0) (spot_of x.1)) }
{
    let mut values = Row::new(alloc);
    // (room for a few octets each, so that no count asks for more than its octets bear out)
    let Ok(()) = values.reserve((count as usize).min(ahead.rest.len() / 8)) else {
        return None;
    };
    let mut left = ahead;
    for _turn in 0..count {
        let (value, behind) = read_packed(alloc, rep, order, ty, guide, left)?;
        let Ok(()) = values.push(value) else {
            return None;
        };
        left = behind;
    }
    Some((values, left))
}

// So many values of a type as the count before them tells, within the bound.
#[cycle(reading)]
#[inline(always)]
fn read_counted<'a>(
    alloc: Global,
    rep: Rep,
    order: Order,
    ty: &XType,
    guide: &Guide,
    bound: u32,
    ahead: Ahead<'a>,
) -> Option<(Row<Packed<'a>>, Ahead<'a>)>
    requires sound { sound (type_shape ty.now) ≡ true }
    requires guide { IsGuide (type_shape ty.now) guide.now }
    ensures { IfSome result (λ x. ReadsCounted rep order bound (type_shape ty.now) (spot_of ahead.entry) (map packed_val x.0) (spot_of x.1)) }
{
    let (count, begin) = next_word(order, ahead)?;
    if is_past(bound, count as usize) {
        return None;
    }
    let (values, behind) = read_items(alloc, rep, order, ty, guide, count, begin)?;
    Some((values, behind))
}

// A sequence of what is no primitive. In XCDR2 it has a region of its own.
#[cycle(reading)]
#[inline(always)]
fn read_list<'a>(
    alloc: Global,
    rep: Rep,
    order: Order,
    elem: &Elem,
    guide: &Guide,
    bound: u32,
    ahead: Ahead<'a>,
) -> Option<(Packed<'a>, Ahead<'a>)>
    requires sound { sound (type_shape elem.now.ty) ≡ true }
    requires inside { is_primitive (type_shape elem.now.ty) ≡ false }
    requires guide { IsGuide (type_shape elem.now.ty) guide.now }
    ensures { IfSome result (λ x. Reads rep order (model.sequence bound elem.now.tc (type_shape elem.now.ty)) (spot_of ahead.entry) (packed_val x.0) (spot_of x.1)) }
{
    let ty = &elem.ty;
    match rep {
        Rep::Xcdr1 => {
            let (values, behind) = read_counted(alloc, Rep::Xcdr1, order, ty, guide, bound, ahead)?;
            Some((Packed::List(values), behind))
        }
        Rep::Xcdr2 => {
            let (inside, after) = next_region(order, ahead)?;
            let (values, end) = read_counted(alloc, Rep::Xcdr2, order, ty, guide, bound, inside)?;
            if !end.rest.is_empty() {
                return None;
            }
            Some((Packed::List(values), after))
        }
    }
}

// The guide is the sequence's own: numbers need none.
#[cycle(reading)]
#[inline(always)]
fn read_sequence<'a>(
    alloc: Global,
    rep: Rep,
    order: Order,
    elem: &Elem,
    guide: &Guide,
    bound: u32,
    ahead: Ahead<'a>,
) -> Option<(Packed<'a>, Ahead<'a>)>
    requires sound { sound (type_shape elem.now.ty) ≡ true }
    requires guide { IsGuide (type_shape elem.now.ty) (part_at guide.now 0) }
    ensures { IfSome result (λ x. Reads rep order (model.sequence bound elem.now.tc (type_shape elem.now.ty)) (spot_of ahead.entry) (packed_val x.0) (spot_of x.1)) }
{
    let Some(prim) = as_prim(&elem.ty) else {
        let (value, behind) = read_list(alloc, rep, order, elem, guide.part(0), bound, ahead)?;
        return Some((value, behind));
    };
    let (count, begin) = next_word(order, ahead)?;
    if is_past(bound, count as usize) {
        return None;
    }
    let (numbers, behind) = read_numbers(rep, order, prim, count, begin)?;
    Some((Packed::Numbers(numbers), behind))
}

// An array of what is no primitive. In XCDR2 it has a region of its own.
#[cycle(reading)]
#[inline(always)]
fn read_table<'a>(
    alloc: Global,
    rep: Rep,
    order: Order,
    elem: &Elem,
    guide: &Guide,
    count: u64,
    ahead: Ahead<'a>,
) -> Option<(Packed<'a>, Ahead<'a>)>
    requires sound { sound (type_shape elem.now.ty) ≡ true }
    requires inside { is_primitive (type_shape elem.now.ty) ≡ false }
    requires guide { IsGuide (type_shape elem.now.ty) guide.now }
    ensures { IfSome result (λ x. (dims : List ℕ) → product dims ≡ count → Reads rep order (model.array dims elem.now.tc (type_shape elem.now.ty)) (spot_of ahead.entry) (packed_val x.0) (spot_of x.1)) }
{
    let ty = &elem.ty;
    match rep {
        Rep::Xcdr1 => {
            let (values, behind) = read_items(alloc, Rep::Xcdr1, order, ty, guide, count, ahead)?;
            Some((Packed::List(values), behind))
        }
        Rep::Xcdr2 => {
            let (inside, after) = next_region(order, ahead)?;
            let (values, end) = read_items(alloc, Rep::Xcdr2, order, ty, guide, count, inside)?;
            if !end.rest.is_empty() {
                return None;
            }
            Some((Packed::List(values), after))
        }
    }
}

// The guide is the array's own: numbers need none.
#[cycle(reading)]
#[inline(always)]
fn read_array<'a>(
    alloc: Global,
    rep: Rep,
    order: Order,
    elem: &Elem,
    guide: &Guide,
    dims: &[u32],
    ahead: Ahead<'a>,
) -> Option<(Packed<'a>, Ahead<'a>)>
    requires sound { sound (type_shape elem.now.ty) ≡ true }
    requires guide { IsGuide (type_shape elem.now.ty) (part_at guide.now 0) }
    ensures { IfSome result (λ x. Reads rep order (model.array dims.now elem.now.tc (type_shape elem.now.ty)) (spot_of ahead.entry) (packed_val x.0) (spot_of x.1)) }
{
    let count = elements_of(dims);
    if count == u64::MAX {
        return None;
    }
    let Some(prim) = as_prim(&elem.ty) else {
        let (value, behind) = read_table(alloc, rep, order, elem, guide.part(0), count, ahead)?;
        return Some((value, behind));
    };
    let (numbers, behind) = read_numbers(rep, order, prim, count, ahead)?;
    Some((Packed::Numbers(numbers), behind))
}

// A member that stands in declared order.
#[cycle(reading)]
#[inline(always)]
fn read_slot<'a>(
    alloc: Global,
    rep: Rep,
    order: Order,
    member: &Member,
    guide: &Guide,
    ahead: Ahead<'a>,
) -> Option<(PackedSlot<'a>, Ahead<'a>)>
    requires sound { sound (type_shape member.now.ty) ≡ true }
    requires guide { IsGuide (type_shape member.now.ty) guide.now }
    ensures { IfSome result (λ x. ReadsSlot rep order (member_head member.now) (type_shape member.now.ty) (spot_of ahead.entry) (packed_slot x.0) (spot_of x.1)) }
{
    if !member.optional {
        let (value, behind) = read_packed(alloc, rep, order, &member.ty, guide, ahead)?;
        return Some((PackedSlot::Present(value), behind));
    }
    // (in XCDR1 it is a parameter)
    let Rep::Xcdr2 = rep else {
        return None;
    };
    let (is_there, inside) = read_presence(order, ahead)?;
    if !is_there {
        return Some((PackedSlot::Absent, inside));
    }
    let (value, behind) = read_packed(alloc, Rep::Xcdr2, order, &member.ty, guide, inside)?;
    Some((PackedSlot::Present(value), behind))
}

// Whether a region that may end here has ended.
#[inline(always)]
fn is_ended(cut: bool, left: Ahead) -> bool
    ensures { result ≡ (cut && (length left.entry.rest.now == 0)) }
{
    cut && left.rest.is_empty()
}

// The members in declared order. A region that is cut may end before the last.
#[cycle(reading)]
#[inline(always)]
pub(crate) fn read_members<'a>(
    alloc: Global,
    rep: Rep,
    order: Order,
    cut: bool,
    members: &[Member],
    guide: &Guide,
    ahead: Ahead<'a>,
) -> Option<(Packed<'a>, Ahead<'a>)>
    requires apart { distinct_members (members_shape members.now) ≡ true }
    requires sound { sound_members (members_shape members.now) ≡ true }
    requires guide { AreGuides (members_shape members.now) guide.now 0 }
    ensures { IfSome result (λ x. ReadsMembers rep order cut (members_shape members.now) (spot_of ahead.entry) (packed_val x.0) (spot_of x.1)) }
{
    let mut slots = Row::new(alloc);
    let Ok(()) = slots.reserve(members.len()) else {
        return None;
    };
    let mut left = ahead;
    for (at, member) in members.iter().enumerate() {
        if is_ended(cut, left) {
            return None;
        }
        let (slot, behind) = read_slot(alloc, rep, order, member, guide.part(at), left)?;
        let Ok(()) = slots.push(slot) else {
            return None;
        };
        left = behind;
    }
    Some((Packed::Struct(slots), left))
}

// A member behind its header, or none where it is optional and another header comes, or the region's end.
#[cycle(reading)]
#[inline(always)]
fn read_piece<'a>(
    alloc: Global,
    order: Order,
    member: &Member,
    guide: &Guide,
    ahead: Ahead<'a>,
) -> Option<(PackedSlot<'a>, Ahead<'a>)>
    requires sound { sound (type_shape member.now.ty) ≡ true }
    requires guide { IsGuide (type_shape member.now.ty) guide.now }
    ensures { IfSome result (λ x. ReadsPiece order (member_head member.now) (type_shape member.now.ty) (spot_of ahead.entry) (packed_slot x.0) (spot_of x.1)) }
{
    let Some((content, behind)) = next_content(order, member.id, ahead) else {
        if member.optional {
            return Some((PackedSlot::Absent, ahead));
        }
        return None;
    };
    let (value, end) = read_packed(alloc, Rep::Xcdr2, order, &member.ty, guide, content)?;
    if !end.rest.is_empty() {
        return None;
    }
    Some((PackedSlot::Present(value), behind))
}

// The members of a MUTABLE structure, in declared order, up to the region's end.
#[cycle(reading)]
#[inline(always)]
fn read_pieces<'a>(
    alloc: Global,
    order: Order,
    members: &[Member],
    guide: &Guide,
    ahead: Ahead<'a>,
) -> Option<Packed<'a>>
    requires apart { distinct_members (members_shape members.now) ≡ true }
    requires sound { sound_members (members_shape members.now) ≡ true }
    requires guide { AreGuides (members_shape members.now) guide.now 0 }
    ensures { IfSome result (λ v. ReadsPieces order (members_shape members.now) (spot_of ahead.entry) (packed_val v)) }
{
    let mut slots = Row::new(alloc);
    let Ok(()) = slots.reserve(members.len()) else {
        return None;
    };
    let mut left = ahead;
    for (at, member) in members.iter().enumerate() {
        let (slot, behind) = read_piece(alloc, order, member, guide.part(at), left)?;
        let Ok(()) = slots.push(slot) else {
            return None;
        };
        left = behind;
    }
    if !left.rest.is_empty() {
        return None;
    }
    Some(Packed::Struct(slots))
}

// An APPENDABLE structure. In XCDR2 it has a region of its own, and what is left there is passed over.
#[cycle(reading)]
#[inline(always)]
fn read_appendable<'a>(
    alloc: Global,
    rep: Rep,
    order: Order,
    members: &[Member],
    guide: &Guide,
    ahead: Ahead<'a>,
) -> Option<(Packed<'a>, Ahead<'a>)>
    requires apart { distinct_members (members_shape members.now) ≡ true }
    requires sound { sound_members (members_shape members.now) ≡ true }
    requires guide { AreGuides (members_shape members.now) guide.now 0 }
    ensures { IfSome result (λ x. Reads rep order (model.structure Appendable (members_shape members.now)) (spot_of ahead.entry) (packed_val x.0) (spot_of x.1)) }
{
    match rep {
        Rep::Xcdr1 => {
            let (value, behind) = read_members(
                alloc,
                Rep::Xcdr1,
                order,
                false,
                members,
                guide,
                ahead,
            )?;
            Some((value, behind))
        }
        Rep::Xcdr2 => {
            let (inside, after) = next_region(order, ahead)?;
            let (value, _) = read_members(alloc, Rep::Xcdr2, order, true, members, guide, inside)?;
            Some((value, after))
        }
    }
}

// A MUTABLE structure in XCDR2. In XCDR1 it is a list of parameters, of which none is read here.
#[cycle(reading)]
#[inline(always)]
fn read_mutable<'a>(
    alloc: Global,
    rep: Rep,
    order: Order,
    members: &[Member],
    guide: &Guide,
    ahead: Ahead<'a>,
) -> Option<(Packed<'a>, Ahead<'a>)>
    requires apart { distinct_members (members_shape members.now) ≡ true }
    requires sound { sound_members (members_shape members.now) ≡ true }
    requires guide { AreGuides (members_shape members.now) guide.now 0 }
    ensures { IfSome result (λ x. Reads rep order (model.structure Mutable (members_shape members.now)) (spot_of ahead.entry) (packed_val x.0) (spot_of x.1)) }
{
    match rep {
        Rep::Xcdr1 => None,
        Rep::Xcdr2 => {
            let (inside, after) = next_region(order, ahead)?;
            let value = read_pieces(alloc, order, members, guide, inside)?;
            Some((value, after))
        }
    }
}

#[cycle(reading)]
#[tactic(auto, using(type_trees::proofs::Views::tree_rules))]
#[inline(always)]
fn read_structure<'a>(
    alloc: Global,
    rep: Rep,
    order: Order,
    kind: &StructType,
    guide: &Guide,
    ahead: Ahead<'a>,
) -> Option<(Packed<'a>, Ahead<'a>)>
    requires sound { sound (shape (struct_tree kind.now)) ≡ true }
    requires guide { IsGuide (shape (struct_tree kind.now)) guide.now }
    ensures { IfSome result (λ x. Reads rep order (shape (struct_tree kind.now)) (spot_of ahead.entry) (packed_val x.0) (spot_of x.1)) }
{
    let members = kind.members.as_slice();
    match kind.ext {
        Ext::Final => {
            let (value, behind) = read_members(alloc, rep, order, false, members, guide, ahead)?;
            Some((value, behind))
        }
        Ext::Appendable => {
            let (value, behind) = read_appendable(alloc, rep, order, members, guide, ahead)?;
            Some((value, behind))
        }
        Ext::Mutable => {
            let (value, behind) = read_mutable(alloc, rep, order, members, guide, ahead)?;
            Some((value, behind))
        }
    }
}

// The value of a case, of which some octets are there.
#[cycle(reading)]
#[inline(always)]
fn read_body<'a>(
    alloc: Global,
    rep: Rep,
    order: Order,
    case: &Case,
    guide: &Guide,
    ahead: Ahead<'a>,
) -> Option<(Packed<'a>, Ahead<'a>)>
    requires sound { sound (type_shape case.now.ty) ≡ true }
    requires guide { IsGuide (type_shape case.now.ty) guide.now }
    ensures some { IfSome result (λ x. (length ahead.entry.rest.now == 0) ≡ false) }
    ensures value { IfSome result (λ x. Reads rep order (type_shape case.now.ty) (spot_of ahead.entry) (packed_val x.0) (spot_of x.1)) }
{
    if ahead.rest.is_empty() {
        return None;
    }
    let (value, behind) = read_packed(alloc, rep, order, &case.ty, guide, ahead)?;
    Some((value, behind))
}

// The value of the case that the number selects; absent where it selects none.
#[cycle(reading)]
#[inline(always)]
fn read_case<'a>(
    alloc: Global,
    rep: Rep,
    order: Order,
    cases: &[Case],
    guide: &Guide,
    number: i128,
    ahead: Ahead<'a>,
) -> Option<(PackedSlot<'a>, Ahead<'a>)>
    requires sound { sound_cases (cases_shape cases.now) ≡ true }
    requires tells { TellsCases (cases_shape cases.now) guide.now }
    requires guide { AreCaseGuides (cases_shape cases.now) guide.now 1 }
    ensures { IfSome result (λ x. ReadsBody rep order (cases_shape cases.now) number (spot_of ahead.entry) (packed_slot x.0) (spot_of x.1)) }
{
    let Some(at) = guide.find(cases, number) else {
        return Some((PackedSlot::Absent, ahead));
    };
    let (value, behind) = read_body(alloc, rep, order, &cases[at], guide.part(at + 1), ahead)?;
    Some((PackedSlot::Present(value), behind))
}

// The discriminator of a union, and its body behind it.
#[cycle(reading)]
#[inline(always)]
fn read_selected<'a>(
    alloc: Global,
    rep: Rep,
    order: Order,
    kind: &UnionType,
    guide: &Guide,
    ahead: Ahead<'a>,
) -> Option<(Packed<'a>, Ahead<'a>)>
    requires sound { sound (shape (union_tree kind.now)) ≡ true }
    requires guide { IsGuide (shape (union_tree kind.now)) guide.now }
    ensures { let u = out-UnionType kind.now in IfSome result (λ x. ReadsUnion rep order (type_shape u.disc) (cases_shape u.cases) (spot_of ahead.entry) (packed_val x.0) (spot_of x.1)) }
{
    let (disc, inside) = read_disc(rep, order, &kind.disc, guide.part(0), ahead)?;
    let cases = kind.cases.as_slice();
    let (body, behind) = read_case(alloc, rep, order, cases, guide, disc, inside)?;
    match Box::new(alloc, PackedUnion { disc, body }) {
        Ok(value) => Some((Packed::Union(value), behind)),
        Err(_) => None,
    }
}

// An APPENDABLE union. In XCDR2 it has a region of its own, which is used up.
#[cycle(reading)]
#[inline(always)]
fn read_region<'a>(
    alloc: Global,
    rep: Rep,
    order: Order,
    kind: &UnionType,
    guide: &Guide,
    ahead: Ahead<'a>,
) -> Option<(Packed<'a>, Ahead<'a>)>
    requires sound { sound (shape (union_tree kind.now)) ≡ true }
    requires guide { IsGuide (shape (union_tree kind.now)) guide.now }
    ensures { let u = out-UnionType kind.now in IfSome result (λ x. Reads rep order (model.union Appendable u.disc_key (type_shape u.disc) (cases_shape u.cases)) (spot_of ahead.entry) (packed_val x.0) (spot_of x.1)) }
{
    match rep {
        Rep::Xcdr1 => {
            let (value, behind) = read_selected(alloc, Rep::Xcdr1, order, kind, guide, ahead)?;
            Some((value, behind))
        }
        Rep::Xcdr2 => {
            let (inside, after) = next_region(order, ahead)?;
            let (value, end) = read_selected(alloc, Rep::Xcdr2, order, kind, guide, inside)?;
            if !end.rest.is_empty() {
                return None;
            }
            Some((value, after))
        }
    }
}

#[cycle(reading)]
#[inline(always)]
fn read_union<'a>(
    alloc: Global,
    rep: Rep,
    order: Order,
    kind: &UnionType,
    guide: &Guide,
    ahead: Ahead<'a>,
) -> Option<(Packed<'a>, Ahead<'a>)>
    requires sound { sound (shape (union_tree kind.now)) ≡ true }
    requires guide { IsGuide (shape (union_tree kind.now)) guide.now }
    ensures { IfSome result (λ x. Reads rep order (shape (union_tree kind.now)) (spot_of ahead.entry) (packed_val x.0) (spot_of x.1)) }
{
    match kind.ext {
        Ext::Final => {
            let (value, behind) = read_selected(alloc, rep, order, kind, guide, ahead)?;
            Some((value, behind))
        }
        Ext::Appendable => {
            let (value, behind) = read_region(alloc, rep, order, kind, guide, ahead)?;
            Some((value, behind))
        }
        Ext::Mutable => None,
    }
}

/// Reads a plain value of that type from the octets ahead; in XCDR1 one that has only its own octets. Some is what the definition reads,
/// with the octets behind it; None says nothing.
#[cycle(reading)]
#[tactic(auto, using(type_trees::proofs::Views::tree_rules))]
pub(crate) fn read_packed<'a>(
    alloc: Global,
    rep: Rep,
    order: Order,
    ty: &XType,
    guide: &Guide,
    ahead: Ahead<'a>,
) -> Option<(Packed<'a>, Ahead<'a>)>
    requires sound { sound (type_shape ty.now) ≡ true }
    requires guide { IsGuide (type_shape ty.now) guide.now }
    ensures { IfSome result (λ x. Reads rep order (type_shape ty.now) (spot_of ahead.entry) (packed_val x.0) (spot_of x.1)) }
{
    match ty {
        XType::Prim(prim) => read_prim(rep, order, *prim, ahead),
        XType::Str(bound) => read_text(order, *bound, ahead),
        XType::Enum(kind) => read_enum(rep, order, kind, guide, ahead),
        XType::Mask(kind) => read_mask(rep, order, kind, ahead),
        XType::Seq(kind) => read_sequence(alloc, rep, order, &kind.elem, guide, kind.bound, ahead),
        XType::Array(kind) => read_array(
            alloc,
            rep,
            order,
            &kind.elem,
            guide,
            kind.dims.as_slice(),
            ahead,
        ),
        XType::Struct(kind) => read_structure(alloc, rep, order, kind, guide, ahead),
        XType::Union(kind) => read_union(alloc, rep, order, kind, guide, ahead),
        XType::Alias(kind) => read_packed(alloc, rep, order, &kind.ty, guide, ahead),
        XType::Map(_) => None,
    }
}
