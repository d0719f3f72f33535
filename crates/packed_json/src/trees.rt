//! Values that stand as trees, appended as their plan says.
ghost use Rattle.std.specs.Prelude.{◌≡◌, map, slice_get, IfSome, MatchOption};
ghost use Rattle.type_trees.specs.View.{val, body_val, pair_val, union_val};
ghost use Rattle.xt_shapes.specs.Vals.{listed, mapped, struct_of, vals_of, pairs_of, slots_of, absent, present};
ghost use Rattle.packed_json.specs.Plans.{Writes, WritesBody, WritesItems, WritesPair, WritesPairs, WritesPart, WritesParts, found_case, list_meaning, map_meaning, meaning, part, slot_at, struct_meaning, union_meaning};

use crate::plan::{Plan, PlannedMap, PlannedMember, PlannedUnion};
use crate::sinks::add_behind_comma;
use crate::texts::{put, put_comma};
use crate::writing::{write_disc, write_integer, write_text};
use type_trees::{Pair, Slot, UnionValue, Value};
use xt_lists::Text;

#[cycle(trees)]
fn tree_items(plan: &Plan, values: &[Value], out: &mut Text) -> Option<()>
    ensures { IfSome result (λ u. WritesItems (meaning plan.now) (map val values.now) out.old out.new) }
{
    let mut is_later = false;
    for value in values {
        put_comma(is_later, out)?;
        write_tree(plan, value, out)?;
        is_later = true;
    }
    put(b"]", out)?;
    Some(())
}

// The value that a slot holds. There is none, where the member is absent.
fn tree_at(slots: &[Slot], at: usize) -> Option<&Value>
    ensures { MatchOption result (slot_at (slots_of (map body_val slots.now)) at ≡ absent) (λ v. slot_at (slots_of (map body_val slots.now)) at ≡ present (val v.now)) }
{
    if at >= slots.len() {
        return None;
    }
    match &slots[at] {
        Slot::Absent => None,
        Slot::Present(value) => Some(value),
    }
}

// A member, if it is there, behind others or none. Whether one stands before the next is answered.
#[cycle(trees)]
fn tree_member(
    member: &PlannedMember,
    is_later: bool,
    slots: &[Slot],
    out: &mut Text,
) -> Option<bool>
    ensures written { IfSome result (λ now. WritesPart (part member.now) is_later (slots_of (map body_val slots.now)) out.old out.new now) }
    ensures left_out { slot_at (slots_of (map body_val slots.now)) member.now.at ≡ absent → result ≡ Some is_later }
{
    let Some(value) = tree_at(slots, member.at) else {
        return Some(is_later);
    };
    add_behind_comma(is_later, member.key.octets(), out)?;
    write_tree(&member.plan, value, out)?;
    Some(true)
}

#[cycle(trees)]
fn tree_members(members: &[PlannedMember], slots: &[Slot], out: &mut Text) -> Option<()>
    ensures { IfSome result (λ u. WritesParts (map part members.now) (slots_of (map body_val slots.now)) out.old out.new) }
{
    let mut is_later = false;
    for member in members {
        is_later = tree_member(member, is_later, slots, out)?;
    }
    put(b"}", out)?;
    Some(())
}

#[cycle(trees)]
fn tree_structure(members: &[PlannedMember], slots: &[Slot], out: &mut Text) -> Option<()>
    ensures { IfSome result (λ u. Writes (struct_meaning (map part members.now)) (struct_of (slots_of (map body_val slots.now))) out.old out.new) }
{
    put(b"{", out)?;
    tree_members(members, slots, out)?;
    Some(())
}

#[cycle(trees)]
fn tree_list(plan: &Plan, values: &[Value], out: &mut Text) -> Option<()>
    ensures { IfSome result (λ u. Writes (list_meaning (meaning plan.now)) (listed (vals_of (map val values.now))) out.old out.new) }
{
    put(b"[", out)?;
    tree_items(plan, values, out)?;
    Some(())
}

// A key and its value, in brackets.
#[cycle(trees)]
#[tactic(auto, using(type_trees::proofs::Views::val_rules))]
fn tree_pair(plan: &PlannedMap, pair: &Pair, out: &mut Text) -> Option<()>
    ensures { IfSome result (λ u. WritesPair (meaning plan.now.key) (meaning plan.now.value) (pair_val pair.now) out.old out.new) }
{
    put(b"[", out)?;
    write_tree(&plan.key, &pair.key, out)?;
    put(b",", out)?;
    write_tree(&plan.value, &pair.value, out)?;
    put(b"]", out)?;
    Some(())
}

#[cycle(trees)]
fn tree_pairs(plan: &PlannedMap, pairs: &[Pair], out: &mut Text) -> Option<()>
    ensures { IfSome result (λ u. WritesPairs (meaning plan.now.key) (meaning plan.now.value) (map pair_val pairs.now) out.old out.new) }
{
    let mut is_later = false;
    for pair in pairs {
        put_comma(is_later, out)?;
        tree_pair(plan, pair, out)?;
        is_later = true;
    }
    put(b"]", out)?;
    Some(())
}

#[cycle(trees)]
fn tree_map(plan: &PlannedMap, pairs: &[Pair], out: &mut Text) -> Option<()>
    ensures { IfSome result (λ u. Writes (map_meaning (meaning plan.now.key) (meaning plan.now.value)) (mapped (pairs_of (map pair_val pairs.now))) out.old out.new) }
{
    put(b"[", out)?;
    tree_pairs(plan, pairs, out)?;
    Some(())
}

// The value of the case at a position, and the closing brace.
#[cycle(trees)]
fn tree_case(cases: &[Plan], at: usize, value: &Value, out: &mut Text) -> Option<()>
    ensures { IfSome result (λ u. WritesBody (slice_get (map meaning cases.now) at) (present (val value.now)) out.old out.new) }
{
    if at >= cases.len() {
        return None;
    }
    put(b",\"v\":", out)?;
    write_tree(&cases[at], value, out)?;
    put(b"}", out)?;
    Some(())
}

// The value of the case that the discriminator selects, if it is there, and the closing brace.
#[cycle(trees)]
#[tactic(auto, using(type_trees::proofs::Views::val_rules))]
fn tree_body(plan: &PlannedUnion, value: &UnionValue, out: &mut Text) -> Option<()>
    ensures { IfSome result (λ u. WritesBody (found_case plan.now.index (map meaning plan.now.cases) value.now.disc) (body_val value.now.body) out.old out.new) }
{
    match &value.body {
        Slot::Absent => put(b"}", out),
        Slot::Present(body) => {
            let at = plan.index.find(value.disc)?;
            tree_case(plan.cases.as_slice(), at, body, out)
        }
    }
}

#[cycle(trees)]
#[tactic(auto, using(type_trees::proofs::Views::val_rules))]
fn tree_union(plan: &PlannedUnion, value: &UnionValue, out: &mut Text) -> Option<()>
    ensures { IfSome result (λ u. Writes (union_meaning (meaning plan.now.disc) plan.now.index (map meaning plan.now.cases)) (union_val value.now) out.old out.new) }
{
    write_disc(plan, value.disc, out)?;
    tree_body(plan, value, out)?;
    Some(())
}

/// Appends the JSON of a value that stands as a tree by its type's plan; members that are absent are left out. None says nothing, and what was
/// appended is to be thrown away.
#[cycle(trees)]
#[tactic(auto, using(crate::proofs::Meanings::plan_rules, type_trees::proofs::Views::val_rules))]
pub fn write_tree(plan: &Plan, value: &Value, out: &mut Text) -> Option<()>
    ensures { IfSome result (λ u. Writes (meaning plan.now) (val value.now) out.old out.new) }
{
    match (plan, value) {
        (plan, Value::Int(number)) => write_integer(plan, *number, out),
        (Plan::Text, Value::Str(text)) => write_text(text.octets(), out),
        (Plan::List(item), Value::List(values)) => tree_list(item, values.as_slice(), out),
        (Plan::Map(plan), Value::Map(pairs)) => tree_map(plan, pairs.as_slice(), out),
        (Plan::Struct(members), Value::Struct(slots)) => {
            tree_structure(members.as_slice(), slots.as_slice(), out)
        }
        (Plan::Union(plan), Value::Union(value)) => tree_union(plan, value, out),
        _ => None,
    }
}
