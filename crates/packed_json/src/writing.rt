//! Values, appended as their plan says.
ghost use Rattle.std.specs.Prelude.{◌≡◌, ◌++◌, false, map, slice_get, IfSome, MatchOption};
ghost use Rattle.serde_json.specs.Written.{comma_if};
ghost use Rattle.xt_shapes.specs.Vals.{int, text, listed, struct_of, vals_of, slots_of, absent, present};
ghost use Rattle.json_values.specs.Written.{int_data, prim_data, mask_data, octets_data};
ghost use Rattle.packed_reader.specs.View.{packed_val, packed_slot, packed_union, numbers_of};
ghost use Rattle.packed_json.specs.Plans.{Writes, WritesBody, WritesItems, WritesPart, WritesParts, before_disc, found_case, leaf_meaning, list_meaning, literal_meaning, meaning, part, slot_at, struct_meaning, union_meaning};

use crate::numbers::{put_list, put_prim, put_whole};
use crate::plan::{Plan, PlannedMember, PlannedUnion};
use crate::sinks::add_behind_comma;
use crate::texts::{put, put_comma, put_text};
use packed_reader::{Numbers, Packed, PackedSlot, PackedUnion};
use std::collections::BTreeMap;
use type_values::is_of_prim;
use xt_lists::Text;
use xt_shapes::Prim;

// A number of a primitive.
fn write_number(prim: Prim, number: i128, out: &mut Text) -> Option<()>
    ensures { IfSome result (λ u. Writes (leaf_meaning (int_data (prim_data prim))) (int number) out.old out.new) }
{
    put_prim(prim, false, number, out)
}

fn write_mask(number: i128, out: &mut Text) -> Option<()>
    ensures { IfSome result (λ u. Writes (leaf_meaning (int_data mask_data)) (int number) out.old out.new) }
{
    if !is_of_prim(Prim::Uint64, number) {
        return None;
    }
    put_whole(false, number, out)
}

fn write_literal(named: &BTreeMap<i128, Text>, number: i128, out: &mut Text) -> Option<()>
    ensures { IfSome result (λ u. Writes (literal_meaning named.now) (int number) out.old out.new) }
{
    match named.get(&number) {
        Some(text) => put(text.octets(), out),
        None => None,
    }
}

pub(crate) fn write_text(octets: &[u8], out: &mut Text) -> Option<()>
    ensures { IfSome result (λ u. Writes (leaf_meaning octets_data) (text octets.now) out.old out.new) }
{
    put_text(octets, out)
}

// An integer of a type that has them.
#[tactic(auto, using(crate::proofs::Meanings::plan_rules))]
pub(crate) fn write_integer(plan: &Plan, number: i128, out: &mut Text) -> Option<()>
    ensures { IfSome result (λ u. Writes (meaning plan.now) (int number) out.old out.new) }
{
    match plan {
        Plan::Prim(prim) => write_number(*prim, number, out),
        Plan::Mask => write_mask(number, out),
        Plan::Enum(named) => write_literal(named, number, out),
        Plan::Text | Plan::List(_) | Plan::Map(_) | Plan::Struct(_) | Plan::Union(_) => None,
    }
}

// A list of numbers of the primitive that the items are.
fn write_numbers(prim: Prim, numbers: &Numbers<'_>, out: &mut Text) -> Option<()>
    ensures { IfSome result (λ u. Writes (list_meaning (leaf_meaning (int_data (prim_data prim)))) (listed (vals_of (numbers_of numbers.now))) out.old out.new) }
{
    if prim != numbers.prim {
        return None;
    }
    put(b"[", out)?;
    put_list(numbers, out)?;
    Some(())
}

// A list of numbers, where the items are numbers.
#[tactic(auto, using(crate::proofs::Meanings::plan_rules))]
fn write_packed_list(item: &Plan, numbers: &Numbers<'_>, out: &mut Text) -> Option<()>
    ensures { IfSome result (λ u. Writes (list_meaning (meaning item.now)) (listed (vals_of (numbers_of numbers.now))) out.old out.new) }
{
    match item {
        Plan::Prim(prim) => write_numbers(*prim, numbers, out),
        Plan::Text
        | Plan::Mask
        | Plan::Enum(_)
        | Plan::List(_)
        | Plan::Map(_)
        | Plan::Struct(_)
        | Plan::Union(_) => None,
    }
}

#[cycle(writing)]
fn write_items(plan: &Plan, values: &[Packed<'_>], out: &mut Text) -> Option<()>
    ensures { IfSome result (λ u. WritesItems (meaning plan.now) (map packed_val values.now) out.old out.new) }
{
    let mut is_later = false;
    for value in values {
        put_comma(is_later, out)?;
        write_value(plan, value, out)?;
        is_later = true;
    }
    put(b"]", out)?;
    Some(())
}

// The value that a slot holds. There is none, where the member is absent.
fn value_at<'s, 'o>(slots: &'s [PackedSlot<'o>], at: usize) -> Option<&'s Packed<'o>>
    ensures { MatchOption result (slot_at (slots_of (map packed_slot slots.now)) at ≡ absent) (λ v. slot_at (slots_of (map packed_slot slots.now)) at ≡ present (packed_val v.now)) }
{
    if at >= slots.len() {
        return None;
    }
    match &slots[at] {
        PackedSlot::Absent => None,
        PackedSlot::Present(value) => Some(value),
    }
}

// A member, if it is there, behind others or none. Whether one stands before the next is answered.
#[cycle(writing)]
fn write_member(
    member: &PlannedMember,
    is_later: bool,
    slots: &[PackedSlot<'_>],
    out: &mut Text,
) -> Option<bool>
    ensures written { IfSome result (λ now. WritesPart (part member.now) is_later (slots_of (map packed_slot slots.now)) out.old out.new now) }
    ensures left_out { slot_at (slots_of (map packed_slot slots.now)) member.now.at ≡ absent → result ≡ Some is_later }
{
    let Some(value) = value_at(slots, member.at) else {
        return Some(is_later);
    };
    add_behind_comma(is_later, member.key.octets(), out)?;
    write_value(&member.plan, value, out)?;
    Some(true)
}

#[cycle(writing)]
fn write_members(members: &[PlannedMember], slots: &[PackedSlot<'_>], out: &mut Text) -> Option<()>
    ensures { IfSome result (λ u. WritesParts (map part members.now) (slots_of (map packed_slot slots.now)) out.old out.new) }
{
    let mut is_later = false;
    for member in members {
        is_later = write_member(member, is_later, slots, out)?;
    }
    put(b"}", out)?;
    Some(())
}

#[cycle(writing)]
fn write_structure(
    members: &[PlannedMember],
    slots: &[PackedSlot<'_>],
    out: &mut Text,
) -> Option<()>
    ensures { IfSome result (λ u. Writes (struct_meaning (map part members.now)) (struct_of (slots_of (map packed_slot slots.now))) out.old out.new) }
{
    put(b"{", out)?;
    write_members(members, slots, out)?;
    Some(())
}

#[cycle(writing)]
fn write_list(plan: &Plan, values: &[Packed<'_>], out: &mut Text) -> Option<()>
    ensures { IfSome result (λ u. Writes (list_meaning (meaning plan.now)) (listed (vals_of (map packed_val values.now))) out.old out.new) }
{
    put(b"[", out)?;
    write_items(plan, values, out)?;
    Some(())
}

// The discriminator of a union, and what stands before it.
pub(crate) fn write_disc(plan: &PlannedUnion, number: i128, out: &mut Text) -> Option<()>
    ensures { IfSome result (λ u. Writes (meaning plan.now.disc) (int number) (out.old ++ before_disc) out.new) }
{
    put(b"{\"d\":", out)?;
    write_integer(&plan.disc, number, out)?;
    Some(())
}

// The value of the case at a position, and the closing brace.
#[cycle(writing)]
fn write_case(cases: &[Plan], at: usize, value: &Packed<'_>, out: &mut Text) -> Option<()>
    ensures { IfSome result (λ u. WritesBody (slice_get (map meaning cases.now) at) (present (packed_val value.now)) out.old out.new) }
{
    if at >= cases.len() {
        return None;
    }
    put(b",\"v\":", out)?;
    write_value(&cases[at], value, out)?;
    put(b"}", out)?;
    Some(())
}

// The value of the case that the discriminator selects, if it is there, and the closing brace.
#[cycle(writing)]
#[tactic(auto, using(packed_reader::proofs::Views::packed_rules))]
fn write_body(plan: &PlannedUnion, value: &PackedUnion<'_>, out: &mut Text) -> Option<()>
    ensures { IfSome result (λ u. WritesBody (found_case plan.now.index (map meaning plan.now.cases) value.now.disc) (packed_slot value.now.body) out.old out.new) }
{
    match &value.body {
        PackedSlot::Absent => put(b"}", out),
        PackedSlot::Present(body) => {
            let at = plan.index.find(value.disc)?;
            write_case(plan.cases.as_slice(), at, body, out)
        }
    }
}

#[cycle(writing)]
#[tactic(auto, using(packed_reader::proofs::Views::packed_rules))]
fn write_union(plan: &PlannedUnion, value: &PackedUnion<'_>, out: &mut Text) -> Option<()>
    ensures { IfSome result (λ u. Writes (union_meaning (meaning plan.now.disc) plan.now.index (map meaning plan.now.cases)) (packed_union value.now) out.old out.new) }
{
    write_disc(plan, value.disc, out)?;
    write_body(plan, value, out)?;
    Some(())
}

/// Appends the JSON of a value by its type's plan; members that are absent are left out. None says nothing, and what was appended is to be thrown
/// away.
#[cycle(writing)]
#[tactic(auto, using(crate::proofs::Meanings::plan_rules, packed_reader::proofs::Views::packed_rules))]
pub fn write_value(plan: &Plan, value: &Packed<'_>, out: &mut Text) -> Option<()>
    ensures { IfSome result (λ u. Writes (meaning plan.now) (packed_val value.now) out.old out.new) }
{
    match (plan, value) {
        (plan, Packed::Natural(number)) => write_integer(plan, i128::from(*number), out),
        (plan, Packed::Whole(number)) => write_integer(plan, i128::from(*number), out),
        (Plan::Text, Packed::Text(octets)) => write_text(octets, out),
        (Plan::List(item), Packed::Numbers(numbers)) => write_packed_list(item, numbers, out),
        (Plan::List(item), Packed::Own(own)) => write_packed_list(item, &own.lent(), out),
        (Plan::List(item), Packed::List(values)) => write_list(item, values.as_slice(), out),
        (Plan::Struct(members), Packed::Struct(slots)) => {
            write_structure(members.as_slice(), slots.as_slice(), out)
        }
        (Plan::Union(plan), Packed::Union(value)) => write_union(plan, value, out),
        _ => None,
    }
}
