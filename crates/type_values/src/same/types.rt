ghost use Rattle.std.specs.Prelude.{◌≡◌, ◌≢◌, true, false};
ghost use Rattle.std.specs.Bool.{MatchBool};
ghost use Rattle.type_trees.specs.View.{tree, elem_tree, member_tree, case_tree, struct_tree, union_tree, members_tree, cases_tree};

use crate::same::leaves::{
    are_same_bases, are_same_dims, are_same_flags, are_same_labels, are_same_literals, is_same_ext,
    is_same_name, is_same_primitive, is_same_title, is_same_try,
};
use type_trees::{Case, Elem, EnumType, MaskType, Member, StructType, UnionType, XType};

fn is_same_enum(left: &EnumType, right: &EnumType) -> bool
    ensures { MatchBool result (left.now ≡ right.now) (left.now ≢ right.now) }
{
    left.bits == right.bits
        && is_same_ext(left.ext, right.ext)
        && is_same_title(&left.name, &right.name)
        && are_same_literals(left.literals.as_slice(), right.literals.as_slice())
}

fn is_same_mask(left: &MaskType, right: &MaskType) -> bool
    ensures { MatchBool result (left.now ≡ right.now) (left.now ≢ right.now) }
{
    left.bits == right.bits
        && is_same_title(&left.name, &right.name)
        && are_same_flags(left.flags.as_slice(), right.flags.as_slice())
}

#[cycle(same_type)]
#[tactic(auto, using(type_trees::proofs::Views::tree_rules))]
fn is_same_elem(left: &Elem, right: &Elem) -> bool
    ensures { MatchBool result (elem_tree left.now ≡ elem_tree right.now) (elem_tree left.now ≢ elem_tree right.now) }
{
    is_same_try(left.tc, right.tc) && same_type(&left.ty, &right.ty)
}

#[cycle(same_type)]
#[tactic(auto, using(type_trees::proofs::Views::tree_rules))]
fn is_same_member(left: &Member, right: &Member) -> bool
    ensures { MatchBool result (member_tree left.now ≡ member_tree right.now) (member_tree left.now ≢ member_tree right.now) }
{
    left.id == right.id
        && left.optional == right.optional
        && left.must_understand == right.must_understand
        && left.key == right.key
        && is_same_try(left.tc, right.tc)
        && is_same_name(&left.name, &right.name)
        && same_type(&left.ty, &right.ty)
}

#[cycle(same_type)]
fn are_same_members(left: &[Member], right: &[Member]) -> bool
    ensures { MatchBool result (members_tree left.now ≡ members_tree right.now) (members_tree left.now ≢ members_tree right.now) }
{
    if left.len() != right.len() {
        return false;
    }
    for at in 0..left.len() {
        if !is_same_member(&left[at], &right[at]) {
            return false;
        }
    }
    true
}

#[cycle(same_type)]
#[tactic(auto, using(type_trees::proofs::Views::tree_rules))]
fn is_same_case(left: &Case, right: &Case) -> bool
    ensures { MatchBool result (case_tree left.now ≡ case_tree right.now) (case_tree left.now ≢ case_tree right.now) }
{
    left.id == right.id
        && left.is_default == right.is_default
        && is_same_try(left.tc, right.tc)
        && are_same_labels(left.labels.as_slice(), right.labels.as_slice())
        && is_same_name(&left.name, &right.name)
        && same_type(&left.ty, &right.ty)
}

#[cycle(same_type)]
fn are_same_cases(left: &[Case], right: &[Case]) -> bool
    ensures { MatchBool result (cases_tree left.now ≡ cases_tree right.now) (cases_tree left.now ≢ cases_tree right.now) }
{
    if left.len() != right.len() {
        return false;
    }
    for at in 0..left.len() {
        if !is_same_case(&left[at], &right[at]) {
            return false;
        }
    }
    true
}

#[cycle(same_type)]
#[tactic(auto, using(type_trees::proofs::Views::tree_rules))]
fn is_same_struct(left: &StructType, right: &StructType) -> bool
    ensures { MatchBool result (struct_tree left.now ≡ struct_tree right.now) (struct_tree left.now ≢ struct_tree right.now) }
{
    left.nested == right.nested
        && left.hashed_ids == right.hashed_ids
        && is_same_ext(left.ext, right.ext)
        && is_same_title(&left.name, &right.name)
        && are_same_bases(left.bases.as_slice(), right.bases.as_slice())
        && are_same_members(left.members.as_slice(), right.members.as_slice())
}

#[cycle(same_type)]
#[tactic(auto, using(type_trees::proofs::Views::tree_rules))]
fn is_same_union(left: &UnionType, right: &UnionType) -> bool
    ensures { MatchBool result (union_tree left.now ≡ union_tree right.now) (union_tree left.now ≢ union_tree right.now) }
{
    left.nested == right.nested
        && left.hashed_ids == right.hashed_ids
        && left.disc_key == right.disc_key
        && is_same_ext(left.ext, right.ext)
        && is_same_title(&left.name, &right.name)
        && same_type(&left.disc, &right.disc)
        && are_same_cases(left.cases.as_slice(), right.cases.as_slice())
}

/// Whether two types are the same in all that they say: names in full, kinds, flags, bases and what stands inside. It takes no memory.
#[cycle(same_type)]
#[tactic(auto, using(type_trees::proofs::Views::tree_rules))]
pub fn same_type(left: &XType, right: &XType) -> bool
    ensures same { result ≡ true → tree left.now ≡ tree right.now }
    ensures other { result ≡ false → tree left.now ≢ tree right.now }
{
    match (left, right) {
        (XType::Prim(left), XType::Prim(right)) => is_same_primitive(*left, *right),
        (XType::Str(left), XType::Str(right)) => left == right,
        (XType::Enum(left), XType::Enum(right)) => is_same_enum(left, right),
        (XType::Mask(left), XType::Mask(right)) => is_same_mask(left, right),
        (XType::Seq(left), XType::Seq(right)) => {
            left.bound == right.bound && is_same_elem(&left.elem, &right.elem)
        }
        (XType::Array(left), XType::Array(right)) => {
            are_same_dims(left.dims.as_slice(), right.dims.as_slice())
                && is_same_elem(&left.elem, &right.elem)
        }
        (XType::Map(left), XType::Map(right)) => {
            left.bound == right.bound
                && is_same_elem(&left.key, &right.key)
                && is_same_elem(&left.value, &right.value)
        }
        (XType::Struct(left), XType::Struct(right)) => is_same_struct(left, right),
        (XType::Union(left), XType::Union(right)) => is_same_union(left, right),
        (XType::Alias(left), XType::Alias(right)) => {
            is_same_title(&left.name, &right.name) && same_type(&left.ty, &right.ty)
        }
        _ => false,
    }
}
