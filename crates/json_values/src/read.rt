ghost use Rattle.std.specs.Prelude.{◌≡◌, ◌<◌, ◌≤◌, true, map, IfOk, IfErr, Some, option_map};
ghost use Rattle.serde_json.specs.View.{view, items_view, members_view};
ghost use Rattle.xt_shapes.specs.Select.{select};
ghost use Rattle.xt_shapes.specs.Vals.{number_in};
ghost use Rattle.type_trees.specs.Bridge.{cases_shape};
ghost use Rattle.type_rules.specs.Places.{depth, members_depth, cases_depth};
ghost use Rattle.type_trees.specs.View.{tree, val, pair_val, body_val, members_tree, cases_tree, array_tree, sequence_tree, struct_tree, union_tree, map_tree};
ghost use Rattle.json_values.specs.declared.faults.ValueFault.TheVariants.{OutOfMemory};
ghost use Rattle.json_values.specs.Names.{has_text_names, members_have_text_names, cases_have_text_names};
ghost use Rattle.json_values.specs.Read as spec;
ghost use Rattle.json_values.specs.Steps.{FailsAs, beneath, steps_of};
ghost use Rattle.serde_json.specs.Data.{object, array};
ghost use Rattle.serde_json.specs.Find.{get_member};
ghost use Rattle.std.specs.Str.{is_utf8};
ghost use Rattle.std.specs.Prelude.{length, None};
ghost use Rattle.json_values.specs.Names.{name_text};
ghost use Rattle.xt_shapes.specs.Vals.{union_of};
ghost use Rattle.xt_shapes.specs.declared.leaves.Step.{Step};

use crate::faults::{JsonRule, ValueFault, below};
use crate::indices::FEW;
use crate::leaves::{octets_fault, read_hex, read_literal, read_mask, read_prim, wrong};
use crate::objects::{
    has_missing_member, has_other_member, has_other_than_hex, has_other_than_union, part_at,
    part_of,
};
use crate::read_lists::{read_literals, read_numbers};
use serde_json::{Map, Value as Data};
use std::alloc::Global;
use type_trees::sizes::elements_of;
use type_trees::{
    ArrayType, Case, MapType, Member, Pair, SeqType, Slot, StructType, UnionType, UnionValue,
    Value, XType, select,
};
use type_values::{has_same_keys, is_past};
use xt_lists::{Row, Text};
use xt_shapes::Step;

#[tactic(auto, using(type_trees::proofs::Views::val_rules))]
#[inline(always)]
fn read_plain(alloc: Global, bound: u32, text: &str) -> Result<Value, ValueFault>
    ensures ok { IfOk result (λ v. spec.octets_of bound text.now ≡ Ok (val v)) }
    ensures err { FailsAs (spec.octets_of bound text.now) result }
    ensures short { IfErr result (λ e. steps_of e ≡ 0) }
{
    match octets_fault(bound, text.as_bytes()) {
        Some(rule) => Err(wrong(rule)),
        None => match Vec::from_slice(alloc, text.as_bytes()) {
            Ok(octets) => Ok(Value::Str(Text::from_vec(octets))),
            Err(_) => Err(ValueFault::OutOfMemory),
        },
    }
}

fn read_hex_object(
    alloc: Global,
    bound: u32,
    found: &Map<String, Data>,
) -> Result<Value, ValueFault>
    ensures ok { IfOk result (λ v. spec.text_of bound (object (members_view found.now.entries)) ≡ Ok (val v)) }
    ensures err { FailsAs (spec.text_of bound (object (members_view found.now.entries))) result }
    ensures short { IfErr result (λ e. steps_of e ≡ 0) }
{
    if has_other_than_hex(found) {
        return Err(wrong(JsonRule::Unknown));
    }
    read_hex(alloc, bound, part_at(found, "hex"))
}

#[tactic(auto, using(crate::proofs::DataViews::data_rules))]
#[inline(always)]
fn read_text(alloc: Global, bound: u32, part: &Data) -> Result<Value, ValueFault>
    ensures ok { IfOk result (λ v. spec.text_of bound (view part.now) ≡ Ok (val v)) }
    ensures err { FailsAs (spec.text_of bound (view part.now)) result }
    ensures short { IfErr result (λ e. steps_of e ≡ 0) }
{
    match part {
        Data::String(text) => read_plain(alloc, bound, text.as_str()),
        Data::Object(found) => read_hex_object(alloc, bound, found),
        Data::Null | Data::Bool(_) | Data::Number(_) | Data::Array(_) => Err(wrong(JsonRule::Kind)),
    }
}

#[cycle(read_value)]
#[inline(always)]
fn read_below(alloc: Global, step: Step, ty: &XType, part: &Data) -> Result<Value, ValueFault>
    requires deep { depth (tree ty.now) ≤ 15 }
    requires named { has_text_names (tree ty.now) ≡ true }
    ensures ok { IfOk result (λ v. beneath step (spec.value_of (tree ty.now) (view part.now)) ≡ Ok (val v)) }
    ensures err { FailsAs (beneath step (spec.value_of (tree ty.now) (view part.now))) result }
    ensures short { IfErr result (λ e. steps_of e ≤ depth (tree ty.now)) }
{
    match read_value(alloc, ty, part) {
        Ok(value) => Ok(value),
        Err(fault) => Err(below(step, fault)),
    }
}

#[cycle(read_value)]
fn read_each(alloc: Global, ty: &XType, items: &[Data]) -> Result<Row<Value>, ValueFault>
    requires deep { depth (tree ty.now) ≤ 15 }
    requires named { has_text_names (tree ty.now) ≡ true }
    ensures ok { IfOk result (λ vs. spec.items_of (spec.value_of (tree ty.now)) (items_view items.now) ≡ Ok (map val vs)) }
    ensures err { FailsAs (spec.items_of (spec.value_of (tree ty.now)) (items_view items.now)) result }
    ensures short { IfErr result (λ e. steps_of e ≤ depth (tree ty.now)) }
{
    let mut values = Row::new(alloc);
    values.reserve(items.len())?;
    for item in items {
        let value = read_below(alloc, Step::Element, ty, item)?;
        values.push(value)?;
    }
    Ok(values)
}

/// The values of a list. Numbers are read without a look at the type for each, and many literals by an index.
#[cycle(read_value)]
#[tactic(auto, using(type_trees::proofs::Views::tree_rules))]
fn read_items(alloc: Global, ty: &XType, items: &[Data]) -> Result<Row<Value>, ValueFault>
    requires deep { depth (tree ty.now) ≤ 15 }
    requires named { has_text_names (tree ty.now) ≡ true }
    ensures ok { IfOk result (λ vs. spec.items_of (spec.value_of (tree ty.now)) (items_view items.now) ≡ Ok (map val vs)) }
    ensures err { FailsAs (spec.items_of (spec.value_of (tree ty.now)) (items_view items.now)) result }
    ensures short { IfErr result (λ e. steps_of e ≤ depth (tree ty.now)) }
{
    match ty {
        XType::Prim(prim) => read_numbers(alloc, *prim, items),
        XType::Enum(kind) if kind.literals.len() > FEW && items.len() > FEW => {
            read_literals(alloc, kind.literals.as_slice(), items)
        }
        _ => read_each(alloc, ty, items),
    }
}

#[cycle(read_value)]
#[tactic(auto, using(crate::proofs::DataViews::data_rules, type_trees::proofs::Views::val_rules, type_trees::proofs::Views::tree_rules, crate::proofs::DataViews::items_len_is))]
#[inline(always)]
fn read_sequence(alloc: Global, kind: &SeqType, part: &Data) -> Result<Value, ValueFault>
    requires deep { depth (sequence_tree kind.now) ≤ 16 }
    requires named { has_text_names (sequence_tree kind.now) ≡ true }
    ensures ok { IfOk result (λ v. spec.value_of (sequence_tree kind.now) (view part.now) ≡ Ok (val v)) }
    ensures err { FailsAs (spec.value_of (sequence_tree kind.now) (view part.now)) result }
    ensures short { IfErr result (λ e. steps_of e < depth (sequence_tree kind.now)) }
{
    match part {
        Data::Array(items) => {
            if is_past(kind.bound, items.len()) {
                return Err(wrong(JsonRule::Bound));
            }
            Ok(Value::List(read_items(alloc, &kind.elem.ty, items.as_slice())?))
        }
        Data::Null | Data::Bool(_) | Data::Number(_) | Data::String(_) | Data::Object(_) => Err(
            wrong(JsonRule::Kind),
        ),
    }
}

#[cycle(read_value)]
#[tactic(auto, using(crate::proofs::DataViews::data_rules, type_trees::proofs::Views::val_rules, type_trees::proofs::Views::tree_rules, crate::proofs::DataViews::items_len_is))]
#[inline(always)]
fn read_array(alloc: Global, kind: &ArrayType, part: &Data) -> Result<Value, ValueFault>
    requires deep { depth (array_tree kind.now) ≤ 16 }
    requires named { has_text_names (array_tree kind.now) ≡ true }
    ensures ok { IfOk result (λ v. spec.value_of (array_tree kind.now) (view part.now) ≡ Ok (val v)) }
    ensures err { FailsAs (spec.value_of (array_tree kind.now) (view part.now)) result }
    ensures short { IfErr result (λ e. steps_of e < depth (array_tree kind.now)) }
{
    match part {
        Data::Array(items) => {
            if items.len() as u64 != elements_of(kind.dims.as_slice()) {
                return Err(wrong(JsonRule::Count));
            }
            Ok(Value::List(read_items(alloc, &kind.elem.ty, items.as_slice())?))
        }
        Data::Null | Data::Bool(_) | Data::Number(_) | Data::String(_) | Data::Object(_) => Err(
            wrong(JsonRule::Kind),
        ),
    }
}

#[cycle(read_value)]
#[tactic(auto, using(type_trees::proofs::Views::val_rules, type_trees::proofs::Views::tree_rules))]
#[inline(always)]
fn read_both(alloc: Global, kind: &MapType, items: &[Data]) -> Result<Pair, ValueFault>
    requires deep { depth (map_tree kind.now) ≤ 16 }
    requires named { has_text_names (map_tree kind.now) ≡ true }
    requires two { length items.now ≡ 2 }
    ensures ok { IfOk result (λ p. spec.pair_of (spec.value_of (tree kind.now.key.ty)) (spec.value_of (tree kind.now.value.ty)) (array (items_view items.now)) ≡ Ok (pair_val p)) }
    ensures err { FailsAs (spec.pair_of (spec.value_of (tree kind.now.key.ty)) (spec.value_of (tree kind.now.value.ty)) (array (items_view items.now))) result }
    ensures short { IfErr result (λ e. steps_of e < depth (map_tree kind.now)) }
{
    let key = read_below(alloc, Step::Key, &kind.key.ty, &items[0])?;
    let value = read_below(alloc, Step::Entry, &kind.value.ty, &items[1])?;
    Ok(Pair { key, value })
}

#[cycle(read_value)]
#[tactic(auto, using(crate::proofs::DataViews::data_rules, crate::proofs::Pairs::not_two))]
#[inline(always)]
fn read_pair(alloc: Global, kind: &MapType, part: &Data) -> Result<Pair, ValueFault>
    requires deep { depth (map_tree kind.now) ≤ 16 }
    requires named { has_text_names (map_tree kind.now) ≡ true }
    ensures ok { IfOk result (λ p. spec.pair_of (spec.value_of (tree kind.now.key.ty)) (spec.value_of (tree kind.now.value.ty)) (view part.now) ≡ Ok (pair_val p)) }
    ensures err { FailsAs (spec.pair_of (spec.value_of (tree kind.now.key.ty)) (spec.value_of (tree kind.now.value.ty)) (view part.now)) result }
    ensures short { IfErr result (λ e. steps_of e < depth (map_tree kind.now)) }
{
    match part {
        Data::Array(items) => {
            if items.len() != 2 {
                return Err(wrong(JsonRule::Count));
            }
            read_both(alloc, kind, items.as_slice())
        }
        Data::Null | Data::Bool(_) | Data::Number(_) | Data::String(_) | Data::Object(_) => Err(
            wrong(JsonRule::Kind),
        ),
    }
}

#[cycle(read_value)]
fn read_pairs(alloc: Global, kind: &MapType, items: &[Data]) -> Result<Row<Pair>, ValueFault>
    requires deep { depth (map_tree kind.now) ≤ 16 }
    requires named { has_text_names (map_tree kind.now) ≡ true }
    ensures ok { IfOk result (λ ps. spec.entries_of (spec.value_of (tree kind.now.key.ty)) (spec.value_of (tree kind.now.value.ty)) (items_view items.now) ≡ Ok (map pair_val ps)) }
    ensures err { FailsAs (spec.entries_of (spec.value_of (tree kind.now.key.ty)) (spec.value_of (tree kind.now.value.ty)) (items_view items.now)) result }
    ensures short { IfErr result (λ e. steps_of e < depth (map_tree kind.now)) }
{
    let mut pairs = Row::new(alloc);
    for item in items {
        let pair = read_pair(alloc, kind, item)?;
        pairs.push(pair)?;
    }
    Ok(pairs)
}

#[cycle(read_value)]
#[tactic(auto, using(crate::proofs::DataViews::data_rules, type_trees::proofs::Views::val_rules, type_trees::proofs::Views::tree_rules, crate::proofs::DataViews::items_len_is))]
fn read_map(alloc: Global, kind: &MapType, part: &Data) -> Result<Value, ValueFault>
    requires deep { depth (map_tree kind.now) ≤ 16 }
    requires named { has_text_names (map_tree kind.now) ≡ true }
    ensures ok { IfOk result (λ v. spec.value_of (map_tree kind.now) (view part.now) ≡ Ok (val v)) }
    ensures err { FailsAs (spec.value_of (map_tree kind.now) (view part.now)) result }
    ensures short { IfErr result (λ e. steps_of e < depth (map_tree kind.now)) }
{
    match part {
        Data::Array(items) => {
            if is_past(kind.bound, items.len()) {
                return Err(wrong(JsonRule::Bound));
            }
            let pairs = read_pairs(alloc, kind, items.as_slice())?;
            if has_same_keys(alloc, pairs.as_slice())? {
                return Err(wrong(JsonRule::Twice));
            }
            Ok(Value::Map(pairs))
        }
        Data::Null | Data::Bool(_) | Data::Number(_) | Data::String(_) | Data::Object(_) => Err(
            wrong(JsonRule::Kind),
        ),
    }
}

#[cycle(read_value)]
#[tactic(auto, using(type_trees::proofs::Views::val_rules))]
#[inline(always)]
fn read_slot(alloc: Global, member: &Member, found: &Map<String, Data>) -> Result<Slot, ValueFault>
    requires deep { depth (tree member.now.ty) ≤ 15 }
    requires member_named { is_utf8 (name_text member.now.name) ≡ true }
    requires named { has_text_names (tree member.now.ty) ≡ true }
    ensures ok { IfOk result (λ s. spec.slot_of member.now.id (spec.value_of (tree member.now.ty)) (get_member (name_text member.now.name) (members_view found.now.entries)) ≡ Ok (body_val s)) }
    ensures err { FailsAs (spec.slot_of member.now.id (spec.value_of (tree member.now.ty)) (get_member (name_text member.now.name) (members_view found.now.entries))) result }
    ensures short { IfErr result (λ e. steps_of e ≤ depth (tree member.now.ty)) }
{
    match part_of(found, &member.name) {
        None => Ok(Slot::Absent),
        Some(part) => Ok(Slot::Present(read_below(
            alloc,
            Step::Member(member.id),
            &member.ty,
            part,
        )?)),
    }
}

#[cycle(read_value)]
fn read_slots(
    alloc: Global,
    members: &[Member],
    found: &Map<String, Data>,
) -> Result<Row<Slot>, ValueFault>
    requires deep { members_depth (members_tree members.now) ≤ 15 }
    requires named { members_have_text_names (members_tree members.now) ≡ true }
    ensures ok { IfOk result (λ ss. spec.slots_in (members_tree members.now) (members_view found.now.entries) ≡ Ok (map body_val ss)) }
    ensures err { FailsAs (spec.slots_in (members_tree members.now) (members_view found.now.entries)) result }
    ensures short { IfErr result (λ e. steps_of e ≤ members_depth (members_tree members.now)) }
{
    let mut slots = Row::new(alloc);
    slots.reserve(members.len())?;
    for member in members {
        let slot = read_slot(alloc, member, found)?;
        slots.push(slot)?;
    }
    Ok(slots)
}

#[cycle(read_value)]
#[tactic(auto, using(crate::proofs::DataViews::data_rules, type_trees::proofs::Views::val_rules, type_trees::proofs::Views::tree_rules, crate::proofs::DataViews::items_len_is))]
#[inline(always)]
fn read_struct(alloc: Global, kind: &StructType, part: &Data) -> Result<Value, ValueFault>
    requires deep { depth (struct_tree kind.now) ≤ 16 }
    requires named { has_text_names (struct_tree kind.now) ≡ true }
    ensures ok { IfOk result (λ v. spec.value_of (struct_tree kind.now) (view part.now) ≡ Ok (val v)) }
    ensures err { FailsAs (spec.value_of (struct_tree kind.now) (view part.now)) result }
    ensures short { IfErr result (λ e. steps_of e < depth (struct_tree kind.now)) }
{
    match part {
        Data::Object(found) => {
            if has_other_member(alloc, kind.members.as_slice(), found)? {
                return Err(wrong(JsonRule::Unknown));
            }
            if has_missing_member(kind.members.as_slice(), found) {
                return Err(wrong(JsonRule::Missing));
            }
            Ok(Value::Struct(read_slots(alloc, kind.members.as_slice(), found)?))
        }
        Data::Null | Data::Bool(_) | Data::Number(_) | Data::String(_) | Data::Array(_) => Err(
            wrong(JsonRule::Kind),
        ),
    }
}

#[tactic(auto, using(type_trees::proofs::Views::val_rules))]
fn number_in(value: &Value) -> i128
    ensures { result ≡ number_in (val value.now) }
{
    match value {
        Value::Int(number) => *number,
        Value::Str(_) | Value::List(_) | Value::Map(_) | Value::Struct(_) | Value::Union(_) => 0,
    }
}

#[tactic(auto, using(type_trees::proofs::Views::val_rules))]
fn union_value(alloc: Global, disc: i128, body: Slot) -> Result<Value, ValueFault>
    ensures ok { IfOk result (λ v. val v ≡ union_of disc (body_val body)) }
    ensures err { IfErr result (λ e. e ≡ OutOfMemory) }
{
    match Box::new(alloc, UnionValue { disc, body }) {
        Ok(union) => Ok(Value::Union(union)),
        Err(_) => Err(ValueFault::OutOfMemory),
    }
}

/// A value of the case with that id.
#[cycle(read_value)]
#[tactic(auto, using(type_trees::proofs::Views::tree_rules))]
fn read_case(alloc: Global, cases: &[Case], id: u32, part: &Data) -> Result<Value, ValueFault>
    requires deep { cases_depth (cases_tree cases.now) ≤ 15 }
    requires named { cases_have_text_names (cases_tree cases.now) ≡ true }
    ensures ok { IfOk result (λ v. spec.case_reading (cases_tree cases.now) id (view part.now) ≡ Ok (val v)) }
    ensures err { FailsAs (spec.case_reading (cases_tree cases.now) id (view part.now)) result }
    ensures short { IfErr result (λ e. steps_of e ≤ cases_depth (cases_tree cases.now)) }
{
    for case in cases {
        if case.id == id {
            return read_below(alloc, Step::Member(id), &case.ty, part);
        }
    }
    Err(wrong(JsonRule::Case))
}

/// A union whose discriminator is read.
#[cycle(read_value)]
#[tactic(auto, using(type_trees::proofs::Views::val_rules))]
fn read_body(
    alloc: Global,
    cases: &[Case],
    disc: i128,
    part: Option<&Data>,
) -> Result<Value, ValueFault>
    requires deep { cases_depth (cases_tree cases.now) ≤ 15 }
    requires named { cases_have_text_names (cases_tree cases.now) ≡ true }
    ensures ok { IfOk result (λ v. spec.body_of disc (select (cases_shape cases.now) disc) (spec.case_reading (cases_tree cases.now)) (option_map (λ d. view d.now) part.entry) ≡ Ok (val v)) }
    ensures err { FailsAs (spec.body_of disc (select (cases_shape cases.now) disc) (spec.case_reading (cases_tree cases.now)) (option_map (λ d. view d.now) part.entry)) result }
    ensures short { IfErr result (λ e. steps_of e ≤ cases_depth (cases_tree cases.now)) }
{
    match (select(cases, disc), part) {
        (None, None) => union_value(alloc, disc, Slot::Absent),
        (Some(id), Some(part)) => {
            let value = read_case(alloc, cases, id, part)?;
            union_value(alloc, disc, Slot::Present(value))
        }
        (None, Some(_)) | (Some(_), None) => Err(wrong(JsonRule::Case)),
    }
}

#[cycle(read_value)]
fn read_parts(
    alloc: Global,
    kind: &UnionType,
    found: &Map<String, Data>,
) -> Result<Value, ValueFault>
    requires deep { depth (union_tree kind.now) ≤ 16 }
    requires named { has_text_names (union_tree kind.now) ≡ true }
    ensures ok { IfOk result (λ v. spec.value_of (union_tree kind.now) (object (members_view found.now.entries)) ≡ Ok (val v)) }
    ensures err { FailsAs (spec.value_of (union_tree kind.now) (object (members_view found.now.entries))) result }
    ensures short { IfErr result (λ e. steps_of e < depth (union_tree kind.now)) }
{
    if has_other_than_union(found) {
        return Err(wrong(JsonRule::Unknown));
    }
    match part_at(found, "d") {
        None => Err(wrong(JsonRule::Missing)),
        Some(part) => {
            let disc = read_below(alloc, Step::Disc, &kind.disc, part)?;
            read_body(
                alloc,
                kind.cases.as_slice(),
                number_in(&disc),
                part_at(found, "v"),
            )
        }
    }
}

#[cycle(read_value)]
#[tactic(auto, using(crate::proofs::DataViews::data_rules, type_trees::proofs::Views::val_rules, type_trees::proofs::Views::tree_rules, crate::proofs::DataViews::items_len_is))]
fn read_union(alloc: Global, kind: &UnionType, part: &Data) -> Result<Value, ValueFault>
    requires deep { depth (union_tree kind.now) ≤ 16 }
    requires named { has_text_names (union_tree kind.now) ≡ true }
    ensures ok { IfOk result (λ v. spec.value_of (union_tree kind.now) (view part.now) ≡ Ok (val v)) }
    ensures err { FailsAs (spec.value_of (union_tree kind.now) (view part.now)) result }
    ensures short { IfErr result (λ e. steps_of e < depth (union_tree kind.now)) }
{
    match part {
        Data::Object(found) => read_parts(alloc, kind, found),
        Data::Null | Data::Bool(_) | Data::Number(_) | Data::String(_) | Data::Array(_) => Err(
            wrong(JsonRule::Kind),
        ),
    }
}

/// The value of `ty` that a JSON value means.
#[cycle(read_value)]
#[tactic(auto, using(type_trees::proofs::Views::tree_rules))]
pub(crate) fn read_value(alloc: Global, ty: &XType, part: &Data) -> Result<Value, ValueFault>
    requires deep { depth (tree ty.now) ≤ 16 }
    requires named { has_text_names (tree ty.now) ≡ true }
    ensures ok { IfOk result (λ v. spec.value_of (tree ty.now) (view part.now) ≡ Ok (val v)) }
    ensures err { FailsAs (spec.value_of (tree ty.now) (view part.now)) result }
    ensures short { IfErr result (λ e. steps_of e < depth (tree ty.now)) }
{
    match ty {
        XType::Prim(prim) => read_prim(*prim, part),
        XType::Str(bound) => read_text(alloc, *bound, part),
        XType::Enum(kind) => read_literal(kind.literals.as_slice(), part),
        XType::Mask(kind) => read_mask(kind.bits, part),
        XType::Seq(kind) => read_sequence(alloc, kind, part),
        XType::Array(kind) => read_array(alloc, kind, part),
        XType::Map(kind) => read_map(alloc, kind, part),
        XType::Struct(kind) => read_struct(alloc, kind, part),
        XType::Union(kind) => read_union(alloc, kind, part),
        XType::Alias(kind) => read_value(alloc, &kind.ty, part),
    }
}

/// The value of `ty` that a JSON text means. The first place that is no value of the type is named.
pub fn read_json(alloc: Global, ty: &XType, text: &[u8]) -> Result<Value, ValueFault>
    requires deep { depth (tree ty.now) ≤ 16 }
    requires named { has_text_names (tree ty.now) ≡ true }
    ensures ok { IfOk result (λ v. spec.read_as (tree ty.now) text.now ≡ Ok (val v)) }
    ensures err { FailsAs (spec.read_as (tree ty.now) text.now) result }
{
    match Data::from_slice(alloc, text) {
        Ok(part) => read_value(alloc, ty, &part),
        Err(error) => if error.is_memory() {
            Err(ValueFault::OutOfMemory)
        } else {
            Err(ValueFault::NotJson)
        },
    }
}
