ghost use Rattle.std.specs.Prelude.{◌≡◌, ◌∷◌, [], true, option_map, IfOk};
ghost use Rattle.std.specs.Str.{is_utf8};
ghost use Rattle.serde_json.specs.View.{view, members_view};
ghost use Rattle.serde_json.specs.Find.{get_member};
ghost use Rattle.type_trees.specs.View.{members_tree};
ghost use Rattle.json_values.specs.Names.{name_text, is_among, member_names, members_have_text_names};
ghost use Rattle.json_values.specs.Read.{has_other, has_missing};
ghost use Rattle.json_values.specs.Written.{hex_key, disc_key, value_key};

use crate::indices::{FEW, names_of};
use crate::names::{hashed_text, is_named};
use serde_json::{Map, Value as Data};
use std::alloc::Global;
use type_trees::{Member, Name};
use xt_lists::OutOfMemory;

#[tactic(auto, using(type_trees::proofs::Views::tree_rules))]
fn is_member(members: &[Member], key: &[u8]) -> bool
    ensures { result ≡ is_among key.now (member_names (members_tree members.now)) }
{
    for member in members {
        if is_named(&member.name, key) {
            return true;
        }
    }
    false
}

fn has_other_of_few(members: &[Member], found: &Map<String, Data>) -> bool
    ensures { result ≡ has_other (member_names (members_tree members.now)) (members_view found.now.entries) }
{
    for (key, _data) in found.iter() {
        if !is_member(members, key.as_bytes()) {
            return true;
        }
    }
    false
}

/// Whether some key is no member, by a set of the members' names.
fn has_other_of_many(
    alloc: Global,
    members: &[Member],
    found: &Map<String, Data>,
) -> Result<bool, OutOfMemory>
    requires { members_have_text_names (members_tree members.now) ≡ true }
    ensures { IfOk result (λ other. other ≡ has_other (member_names (members_tree members.now)) (members_view found.now.entries)) }
{
    let names = names_of(alloc, members)?;
    for (key, _data) in found.iter() {
        if !names.contains(key.as_str()) {
            return Ok(true);
        }
    }
    Ok(false)
}

/// Whether some key is no member.
pub(crate) fn has_other_member(
    alloc: Global,
    members: &[Member],
    found: &Map<String, Data>,
) -> Result<bool, OutOfMemory>
    requires { members_have_text_names (members_tree members.now) ≡ true }
    ensures { IfOk result (λ other. other ≡ has_other (member_names (members_tree members.now)) (members_view found.now.entries)) }
{
    if members.len() <= FEW {
        return Ok(has_other_of_few(members, found));
    }
    has_other_of_many(alloc, members, found)
}

/// Whether some key isn't `hex`.
pub(crate) fn has_other_than_hex(found: &Map<String, Data>) -> bool
    ensures { result ≡ has_other (hex_key ∷ []) (members_view found.now.entries) }
{
    for (key, _data) in found.iter() {
        if key.as_bytes() != b"hex".as_slice() {
            return true;
        }
    }
    false
}

/// Whether some key is neither `d` nor `v`.
pub(crate) fn has_other_than_union(found: &Map<String, Data>) -> bool
    ensures { result ≡ has_other (disc_key ∷ value_key ∷ []) (members_view found.now.entries) }
{
    for (key, _data) in found.iter() {
        if key.as_bytes() != b"d".as_slice() && key.as_bytes() != b"v".as_slice() {
            return true;
        }
    }
    false
}

/// What stands at a key.
#[inline(always)]
pub(crate) fn part_at<'v>(found: &'v Map<String, Data>, key: &str) -> Option<&'v Data>
    ensures { option_map (λ d. view d.now) result ≡ get_member key.now (members_view found.now.entries) }
{
    found.get(key)
}

#[inline(always)]
fn part_at_octets<'v>(found: &'v Map<String, Data>, key: &[u8]) -> Option<&'v Data>
    requires { is_utf8 key.now ≡ true }
    ensures { option_map (λ d. view d.now) result ≡ get_member key.now (members_view found.now.entries) }
{
    match std::str::from_utf8(key) {
        Ok(key) => part_at(found, key),
        Err(_) => None,
    }
}

/// What stands at a member's name.
#[inline(always)]
pub(crate) fn part_of<'v>(found: &'v Map<String, Data>, name: &Name) -> Option<&'v Data>
    requires { is_utf8 (name_text name.now) ≡ true }
    ensures { option_map (λ d. view d.now) result ≡ get_member (name_text name.now) (members_view found.now.entries) }
{
    match name {
        Name::Full(full) => part_at_octets(found, full.octets()),
        Name::Hashed(hash) => part_at_octets(found, hashed_text(*hash).as_slice()),
    }
}

/// Whether a member that isn't optional isn't there.
#[tactic(auto, using(type_trees::proofs::Views::tree_rules))]
pub(crate) fn has_missing_member(members: &[Member], found: &Map<String, Data>) -> bool
    requires { members_have_text_names (members_tree members.now) ≡ true }
    ensures { result ≡ has_missing (members_tree members.now) (members_view found.now.entries) }
{
    for member in members {
        if !member.optional && part_of(found, &member.name).is_none() {
            return true;
        }
    }
    false
}
