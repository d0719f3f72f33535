ghost use Rattle.std.specs.Prelude.{◌≡◌, [], ◌∷◌, ◌++◌, true, pos, negsuc, int_le, OnOk, IfOk, string_bytes};
ghost use Rattle.std.specs.Int.{w32, w64, to_be_bytes};
ghost use Rattle.std.specs.Str.{is_utf8};
ghost use Rattle.xt_shapes.specs.Lists.{all};
ghost use Rattle.json.specs.Token.{string, key, number};
ghost use Rattle.std.specs.Fmt.{decimal};
ghost use Rattle.std.specs.Prelude.{ℕ};
ghost use Rattle.json.specs.Tree.{json_tokens, items_tokens, members_tokens};
ghost use Rattle.hex.specs.Hex.{encode_lower};
ghost use Rattle.serde_json.specs.Written.{outline, items_outline, members_outline};
ghost use Rattle.serde_json.specs.Data as data_tree;
ghost use Rattle.std.specs.Prelude.{Some, ◌<◌, length};
ghost use Rattle.std.specs.Prelude.{◌≤◌, map};
ghost use Rattle.xt_shapes.specs.Select.{select};
ghost use Rattle.type_trees.specs.Bridge.{cases_shape};
ghost use Rattle.type_rules.specs.Places.{depth};
ghost use Rattle.json_values.specs.Read.{json_of};
ghost use Rattle.xt_shapes.specs.Vals.{struct_of};
ghost use Rattle.type_trees.specs.View.{tree, val, vals, pair_val, pairs_val, body_val, slots_val, union_val, members_tree, cases_tree, struct_tree, union_tree};
ghost use Rattle.json_values.specs.Names.{digits_of, name_text, literal_names, has_text_names, members_have_text_names, cases_have_text_names};
ghost use Rattle.json_values.specs.Order.{entries_data, put_at, at_data, slot_data};
ghost use Rattle.json_values.specs.Written as spec;

use crate::indices::FEW;
use crate::names::{digits_of_names, hashed_text, name_in, text_of};
use crate::write_lists::{write_literals, write_numbers};
use json::Writer;
use std::alloc::{AllocError, Global};
use std::collections::BTreeMap;
use type_trees::{
    Case, Literal, MapType, Member, Name, Pair, Slot, StructType, UnionType, UnionValue, Value,
    XType, select,
};
use type_values::is_of_prim;
use xt_lists::{OutOfMemory, Text};
use xt_shapes::Prim;

fn digits32(bits: u32) -> [u8; 8]
    ensures { result ≡ encode_lower (to_be_bytes w32 bits) }
{
    let mut digits = [0u8; 8];
    match hex::encode_to_slice(bits.to_be_bytes(), &mut digits) {
        Ok(()) => {}
        Err(_) => {}
    }
    digits
}

#[inline(always)]
fn write_bits32(bits: u32, out: &mut Writer) -> Result<(), AllocError>
    ensures ok { OnOk result (out.new.tokens ≡ out.old.tokens ++ string (encode_lower (to_be_bytes w32 bits)) ∷ []) }
    ensures before { out.new.before ≡ out.old.before }
{
    let digits = digits32(bits);
    out.string(text_of(digits.as_slice()))
}

fn digits64(bits: u64) -> [u8; 16]
    ensures { result ≡ encode_lower (to_be_bytes w64 bits) }
{
    let mut digits = [0u8; 16];
    match hex::encode_to_slice(bits.to_be_bytes(), &mut digits) {
        Ok(()) => {}
        Err(_) => {}
    }
    digits
}

#[inline(always)]
fn write_bits64(bits: u64, out: &mut Writer) -> Result<(), AllocError>
    ensures ok { OnOk result (out.new.tokens ≡ out.old.tokens ++ string (encode_lower (to_be_bytes w64 bits)) ∷ []) }
    ensures before { out.new.before ≡ out.old.before }
{
    let digits = digits64(bits);
    out.string(text_of(digits.as_slice()))
}

#[inline(always)]
fn write_digits(digits: &[u8], out: &mut Writer) -> Result<(), AllocError>
    requires { (n : ℕ) × (n < 256) × (digits.now ≡ decimal n) }
    ensures ok { OnOk result (out.new.tokens ≡ out.old.tokens ++ number digits.now ∷ []) }
    ensures before { out.new.before ≡ out.old.before }
{
    out.number(text_of(digits))
}

/// A number of one octet. Its digits need no buffer.
#[inline(always)]
fn write_octet(octet: u8, out: &mut Writer) -> Result<(), AllocError>
    ensures ok { OnOk result (out.new.tokens ≡ out.old.tokens ++ number (decimal octet) ∷ []) }
    ensures before { out.new.before ≡ out.old.before }
{
    let last = 48 + octet % 10;
    if octet < 10 {
        return write_digits(&[last], out);
    }
    let middle = 48 + octet / 10 % 10;
    if octet < 100 {
        return write_digits(&[middle, last], out);
    }
    write_digits(&[48 + octet / 100, middle, last], out)
}

#[inline(always)]
fn write_whole(number: i128, out: &mut Writer) -> Result<(), AllocError>
    requires low { int_le (negsuc 9223372036854775807) number ≡ true }
    requires high { int_le number (pos 18446744073709551615) ≡ true }
    ensures ok { OnOk result (out.new.tokens ≡ out.old.tokens ++ json_tokens (outline (spec.whole number))) }
    ensures before { out.new.before ≡ out.old.before }
{
    if number >= 0 && number < 256 {
        write_octet(number as u8, out)
    } else if number < 0 {
        out.i64(number as i64)
    } else {
        out.u64(number as u64)
    }
}

#[inline(always)]
pub(crate) fn write_prim(prim: Prim, number: i128, out: &mut Writer) -> Result<(), AllocError>
    ensures ok { OnOk result (out.new.tokens ≡ out.old.tokens ++ json_tokens (outline (spec.prim_data prim number))) }
    ensures before { out.new.before ≡ out.old.before }
{
    if !is_of_prim(prim, number) {
        return out.null();
    }
    match prim {
        Prim::Boolean => out.boolean(number == 1),
        Prim::Float32 => write_bits32(number as u32, out),
        Prim::Float64 => write_bits64(number as u64, out),
        Prim::Byte
        | Prim::Int8
        | Prim::Uint8
        | Prim::Int16
        | Prim::Uint16
        | Prim::Int32
        | Prim::Uint32
        | Prim::Int64
        | Prim::Uint64
        | Prim::Char8 => write_whole(number, out),
    }
}

fn write_mask(number: i128, out: &mut Writer) -> Result<(), AllocError>
    ensures ok { OnOk result (out.new.tokens ≡ out.old.tokens ++ json_tokens (outline (spec.mask_data number))) }
    ensures before { out.new.before ≡ out.old.before }
{
    if !is_of_prim(Prim::Uint64, number) {
        return out.null();
    }
    write_whole(number, out)
}

fn write_octets(octets: &[u8], out: &mut Writer) -> Result<(), AllocError>
    requires { is_utf8 octets.now ≡ true }
    ensures ok { OnOk result (out.new.tokens ≡ out.old.tokens ++ string octets.now ∷ []) }
    ensures before { out.new.before ≡ out.old.before }
{
    out.string(text_of(octets))
}

fn write_name(name: &Name, out: &mut Writer) -> Result<(), AllocError>
    requires { is_utf8 (name_text name.now) ≡ true }
    ensures ok { OnOk result (out.new.tokens ≡ out.old.tokens ++ string (name_text name.now) ∷ []) }
    ensures before { out.new.before ≡ out.old.before }
{
    match name {
        Name::Full(full) => write_octets(full.octets(), out),
        Name::Hashed(hash) => write_octets(hashed_text(*hash).as_slice(), out),
    }
}

fn write_literal(literals: &[Literal], number: i128, out: &mut Writer) -> Result<(), AllocError>
    requires { all is_utf8 (literal_names literals.now) ≡ true }
    ensures ok { OnOk result (out.new.tokens ≡ out.old.tokens ++ json_tokens (outline (spec.literal_data literals.now number))) }
    ensures before { out.new.before ≡ out.old.before }
{
    for literal in literals {
        if i128::from(literal.value) == number {
            return write_name(&literal.name, out);
        }
    }
    out.null()
}

fn write_hex(alloc: Global, octets: &[u8], out: &mut Writer) -> Result<(), AllocError>
    ensures ok { OnOk result (out.new.tokens ≡ out.old.tokens ++ json_tokens (outline (data_tree.object (data_tree.member spec.hex_key (data_tree.string (encode_lower octets.now)) data_tree.no_members)))) }
    ensures before { out.new.before ≡ out.old.before }
{
    let digits = hex::encode(alloc, octets)?;
    out.begin_object()?;
    out.key("hex")?;
    out.string(digits.as_str())?;
    out.end_object()
}

#[tactic(auto, using(crate::proofs::Utf8::text_is, crate::proofs::Utf8::hex_is))]
fn write_text(alloc: Global, octets: &[u8], out: &mut Writer) -> Result<(), AllocError>
    ensures ok { OnOk result (out.new.tokens ≡ out.old.tokens ++ json_tokens (outline (spec.text_data octets.now))) }
    ensures before { out.new.before ≡ out.old.before }
{
    match simdutf8::basic::from_utf8(octets) {
        Ok(text) => out.string(text),
        Err(_) => write_hex(alloc, octets, out),
    }
}

/// Lists a present slot under its member's name.
#[inline(always)]
fn put_name<'v>(
    members: &'v [Member],
    slots: &[Slot],
    digits: &'v [[u8; 9]],
    at: usize,
    order: &mut BTreeMap<&'v str, usize>,
) -> Result<(), AllocError>
    requires digits { digits.now ≡ map (λ m. digits_of m.name) members.now }
    requires within { at < length members.now }
    requires named { members_have_text_names (members_tree members.now) ≡ true }
    ensures { OnOk result (entries_data members.now slots.now order.new.entries ≡ put_at members.now slots.now at (entries_data members.now slots.now order.old.entries)) }
{
    if at >= slots.len() {
        return Ok(());
    }
    match &slots[at] {
        Slot::Absent => Ok(()),
        Slot::Present(_) => {
            let name = name_in(&members[at].name, &digits[at]);
            drop(order.insert(name, at)?);
            Ok(())
        }
    }
}

/// The present slots by their members' names.
fn order_of<'v>(
    alloc: Global,
    members: &'v [Member],
    slots: &[Slot],
    digits: &'v [[u8; 9]],
) -> Result<BTreeMap<&'v str, usize>, AllocError>
    requires digits { digits.now ≡ map (λ m. digits_of m.name) members.now }
    requires named { members_have_text_names (members_tree members.now) ≡ true }
    ensures { IfOk result (λ m. entries_data members.now slots.now m.entries ≡ spec.slots_data (members_tree members.now) (slots_val slots.now) data_tree.no_members) }
{
    let mut order = BTreeMap::new(alloc);
    for at in 0..members.len() {
        put_name(members, slots, digits, at, &mut order)?;
    }
    Ok(order)
}

#[cycle(write_value)]
#[tactic(auto, using(type_trees::proofs::Views::val_rules))]
#[inline(always)]
fn write_slot(
    alloc: Global,
    member: &Member,
    slot: &Slot,
    out: &mut Writer,
) -> Result<(), AllocError>
    requires { has_text_names (tree member.now.ty) ≡ true }
    ensures ok { OnOk result (out.new.tokens ≡ out.old.tokens ++ json_tokens (outline (slot_data (tree member.now.ty) (body_val slot.now)))) }
    ensures before { out.new.before ≡ out.old.before }
{
    match slot {
        Slot::Absent => out.null(),
        Slot::Present(value) => write_value(alloc, &member.ty, value, out),
    }
}

#[cycle(write_value)]
#[inline(always)]
fn write_at(
    alloc: Global,
    members: &[Member],
    slots: &[Slot],
    at: usize,
    out: &mut Writer,
) -> Result<(), AllocError>
    requires { members_have_text_names (members_tree members.now) ≡ true }
    ensures ok { OnOk result (out.new.tokens ≡ out.old.tokens ++ json_tokens (outline (at_data members.now slots.now at))) }
    ensures before { out.new.before ≡ out.old.before }
{
    if at < members.len() && at < slots.len() {
        write_slot(alloc, &members[at], &slots[at], out)
    } else {
        out.null()
    }
}

#[cycle(write_value)]
fn write_members(
    alloc: Global,
    members: &[Member],
    slots: &[Slot],
    order: &BTreeMap<&str, usize>,
    out: &mut Writer,
) -> Result<(), AllocError>
    requires { members_have_text_names (members_tree members.now) ≡ true }
    ensures ok { OnOk result (out.new.tokens ≡ out.old.tokens ++ members_tokens (members_outline (entries_data members.now slots.now order.now.entries))) }
    ensures before { out.new.before ≡ out.old.before }
{
    for (key, at) in order.iter() {
        out.key(key)?;
        write_at(alloc, members, slots, *at, out)?;
    }
    out.end_object()
}

#[cycle(write_value)]
fn write_each(
    alloc: Global,
    ty: &XType,
    values: &[Value],
    out: &mut Writer,
) -> Result<(), AllocError>
    requires { has_text_names (tree ty.now) ≡ true }
    ensures ok { OnOk result (out.new.tokens ≡ out.old.tokens ++ items_tokens (items_outline (spec.vals_data (spec.data_of (tree ty.now)) (vals values.now)))) }
    ensures before { out.new.before ≡ out.old.before }
{
    for value in values {
        write_value(alloc, ty, value, out)?;
    }
    out.end_array()
}

/// The rest of a list, with its end. Numbers are written without a look at the type for each, and many literals by an index.
#[cycle(write_value)]
#[tactic(auto, using(type_trees::proofs::Views::tree_rules))]
fn write_items(
    alloc: Global,
    ty: &XType,
    values: &[Value],
    out: &mut Writer,
) -> Result<(), AllocError>
    requires { has_text_names (tree ty.now) ≡ true }
    ensures ok { OnOk result (out.new.tokens ≡ out.old.tokens ++ items_tokens (items_outline (spec.vals_data (spec.data_of (tree ty.now)) (vals values.now)))) }
    ensures before { out.new.before ≡ out.old.before }
{
    match ty {
        XType::Prim(prim) => write_numbers(*prim, values, out),
        XType::Enum(kind) if kind.literals.len() > FEW && values.len() > FEW => {
            write_literals(alloc, kind.literals.as_slice(), values, out)
        }
        _ => write_each(alloc, ty, values, out),
    }
}

#[cycle(write_value)]
#[tactic(auto, using(type_trees::proofs::Views::val_rules))]
#[inline(always)]
fn write_pair(
    alloc: Global,
    kind: &MapType,
    pair: &Pair,
    out: &mut Writer,
) -> Result<(), AllocError>
    requires key { has_text_names (tree kind.now.key.ty) ≡ true }
    requires value { has_text_names (tree kind.now.value.ty) ≡ true }
    ensures ok { OnOk result (out.new.tokens ≡ out.old.tokens ++ json_tokens (outline (spec.pair_data (spec.data_of (tree kind.now.key.ty) (pair_val pair.now).0) (spec.data_of (tree kind.now.value.ty) (pair_val pair.now).1)))) }
    ensures before { out.new.before ≡ out.old.before }
{
    out.begin_array()?;
    write_value(alloc, &kind.key.ty, &pair.key, out)?;
    write_value(alloc, &kind.value.ty, &pair.value, out)?;
    out.end_array()
}

#[cycle(write_value)]
fn write_pairs(
    alloc: Global,
    kind: &MapType,
    pairs: &[Pair],
    out: &mut Writer,
) -> Result<(), AllocError>
    requires key { has_text_names (tree kind.now.key.ty) ≡ true }
    requires value { has_text_names (tree kind.now.value.ty) ≡ true }
    ensures ok { OnOk result (out.new.tokens ≡ out.old.tokens ++ items_tokens (items_outline (spec.pairs_data (spec.data_of (tree kind.now.key.ty)) (spec.data_of (tree kind.now.value.ty)) (pairs_val pairs.now)))) }
    ensures before { out.new.before ≡ out.old.before }
{
    for pair in pairs {
        write_pair(alloc, kind, pair, out)?;
    }
    out.end_array()
}

/// A value of the case with that id.
#[cycle(write_value)]
#[tactic(auto, using(type_trees::proofs::Views::tree_rules))]
fn write_case(
    alloc: Global,
    cases: &[Case],
    id: u32,
    value: &Value,
    out: &mut Writer,
) -> Result<(), AllocError>
    requires { cases_have_text_names (cases_tree cases.now) ≡ true }
    ensures ok { OnOk result (out.new.tokens ≡ out.old.tokens ++ json_tokens (outline (spec.case_data (cases_tree cases.now) id (val value.now)))) }
    ensures before { out.new.before ≡ out.old.before }
{
    for case in cases {
        if case.id == id {
            return write_value(alloc, &case.ty, value, out);
        }
    }
    out.null()
}

/// The rest of a union's object, behind its discriminator.
#[cycle(write_value)]
#[tactic(auto, using(type_trees::proofs::Views::val_rules))]
fn write_body(
    alloc: Global,
    cases: &[Case],
    disc: i128,
    body: &Slot,
    out: &mut Writer,
) -> Result<(), AllocError>
    requires { cases_have_text_names (cases_tree cases.now) ≡ true }
    ensures ok { OnOk result (out.new.tokens ≡ out.old.tokens ++ members_tokens (members_outline (spec.body_data (select (cases_shape cases.now) disc) (spec.case_data (cases_tree cases.now)) (body_val body.now)))) }
    ensures before { out.new.before ≡ out.old.before }
{
    match (select(cases, disc), body) {
        (Some(id), Slot::Present(value)) => {
            out.key("v")?;
            write_case(alloc, cases, id, value, out)?;
            out.end_object()
        }
        (None, _) | (Some(_), Slot::Absent) => out.end_object(),
    }
}

#[cycle(write_value)]
#[tactic(auto, using(type_trees::proofs::Views::val_rules, type_trees::proofs::Views::tree_rules))]
fn write_union(
    alloc: Global,
    kind: &UnionType,
    union: &UnionValue,
    out: &mut Writer,
) -> Result<(), AllocError>
    requires { has_text_names (union_tree kind.now) ≡ true }
    ensures ok { OnOk result (out.new.tokens ≡ out.old.tokens ++ json_tokens (outline (spec.data_of (union_tree kind.now) (union_val union.now)))) }
    ensures before { out.new.before ≡ out.old.before }
{
    out.begin_object()?;
    out.key("d")?;
    write_value(alloc, &kind.disc, &Value::Int(union.disc), out)?;
    write_body(alloc, kind.cases.as_slice(), union.disc, &union.body, out)
}

#[cycle(write_value)]
#[tactic(auto, using(type_trees::proofs::Views::val_rules, type_trees::proofs::Views::tree_rules))]
fn write_struct(
    alloc: Global,
    kind: &StructType,
    slots: &[Slot],
    out: &mut Writer,
) -> Result<(), AllocError>
    requires { has_text_names (struct_tree kind.now) ≡ true }
    ensures ok { OnOk result (out.new.tokens ≡ out.old.tokens ++ json_tokens (outline (spec.data_of (struct_tree kind.now) (struct_of (slots_val slots.now))))) }
    ensures before { out.new.before ≡ out.old.before }
{
    let digits = digits_of_names(alloc, kind.members.as_slice())?;
    let order = order_of(alloc, kind.members.as_slice(), slots, digits.as_slice())?;
    out.begin_object()?;
    write_members(alloc, kind.members.as_slice(), slots, &order, out)
}

/// Appends the JSON of a value.
#[cycle(write_value)]
#[tactic(auto, using(type_trees::proofs::Views::val_rules, type_trees::proofs::Views::tree_rules))]
pub(crate) fn write_value(
    alloc: Global,
    ty: &XType,
    value: &Value,
    out: &mut Writer,
) -> Result<(), AllocError>
    requires { has_text_names (tree ty.now) ≡ true }
    ensures ok { OnOk result (out.new.tokens ≡ out.old.tokens ++ json_tokens (outline (spec.data_of (tree ty.now) (val value.now)))) }
    ensures before { out.new.before ≡ out.old.before }
{
    match (ty, value) {
        (XType::Prim(prim), Value::Int(number)) => write_prim(*prim, *number, out),
        (XType::Str(_), Value::Str(text)) => write_text(alloc, text.octets(), out),
        (XType::Enum(kind), Value::Int(number)) => write_literal(
            kind.literals.as_slice(),
            *number,
            out,
        ),
        (XType::Mask(_), Value::Int(number)) => write_mask(*number, out),
        (XType::Seq(kind), Value::List(values)) => {
            out.begin_array()?;
            write_items(alloc, &kind.elem.ty, values.as_slice(), out)
        }
        (XType::Array(kind), Value::List(values)) => {
            out.begin_array()?;
            write_items(alloc, &kind.elem.ty, values.as_slice(), out)
        }
        (XType::Map(kind), Value::Map(pairs)) => {
            out.begin_array()?;
            write_pairs(alloc, kind, pairs.as_slice(), out)
        }
        (XType::Struct(kind), Value::Struct(slots)) => write_struct(
            alloc,
            kind,
            slots.as_slice(),
            out,
        ),
        (XType::Union(kind), Value::Union(union)) => write_union(alloc, kind, union, out),
        (XType::Alias(kind), value) => write_value(alloc, &kind.ty, value, out),
        _ => out.null(),
    }
}

/// The JSON text of a value. What isn't a value of its type stands as `null`.
pub fn write_json(alloc: Global, ty: &XType, value: &Value) -> Result<Text, OutOfMemory>
    requires { has_text_names (tree ty.now) ≡ true }
    ensures text { IfOk result (λ text. text ≡ spec.json_text (tree ty.now) (val value.now)) }
    ensures reads_back { IfOk result (λ text. depth (tree ty.now) ≤ 16 → json_of text ≡ Some (spec.data_of (tree ty.now) (val value.now))) }
{
    let mut out = Writer::new(Vec::new(alloc));
    match write_value(alloc, ty, value, &mut out) {
        Ok(()) => Ok(Text::from_vec(out.into_inner())),
        Err(_) => Err(OutOfMemory),
    }
}
