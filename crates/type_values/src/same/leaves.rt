ghost use Rattle.std.specs.Prelude.{◌≡◌, ◌≢◌};
ghost use Rattle.std.specs.Bool.{MatchBool};

use type_trees::{Base, Flag, Literal, Name};
use xt_lists::Text;
use xt_shapes::{Ext, Primitive, Try};

pub(crate) fn is_same_primitive(left: Primitive, right: Primitive) -> bool
    ensures { MatchBool result (left ≡ right) (left ≢ right) }
{
    left == right
}

pub(crate) fn is_same_ext(left: Ext, right: Ext) -> bool
    ensures { MatchBool result (left ≡ right) (left ≢ right) }
{
    left == right
}

pub(crate) fn is_same_try(left: Try, right: Try) -> bool
    ensures { MatchBool result (left ≡ right) (left ≢ right) }
{
    left == right
}

pub(crate) fn are_same_dims(left: &[u32], right: &[u32]) -> bool
    ensures { MatchBool result (left.now ≡ right.now) (left.now ≢ right.now) }
{
    left == right
}

pub(crate) fn are_same_labels(left: &[i32], right: &[i32]) -> bool
    ensures { MatchBool result (left.now ≡ right.now) (left.now ≢ right.now) }
{
    left == right
}

fn is_same_text(left: &Text, right: &Text) -> bool
    ensures { MatchBool result (left.now ≡ right.now) (left.now ≢ right.now) }
{
    left == right
}

/// Whether both have no text, or the same.
pub(crate) fn is_same_title(left: &Option<Text>, right: &Option<Text>) -> bool
    ensures { MatchBool result (left.now ≡ right.now) (left.now ≢ right.now) }
{
    match (left, right) {
        (None, None) => true,
        (Some(left), Some(right)) => is_same_text(left, right),
        _ => false,
    }
}

/// Whether both are in full, with the same text, or both the same hash.
pub(crate) fn is_same_name(left: &Name, right: &Name) -> bool
    ensures { MatchBool result (left.now ≡ right.now) (left.now ≢ right.now) }
{
    match (left, right) {
        (Name::Full(left), Name::Full(right)) => is_same_text(left, right),
        (Name::Hashed(left), Name::Hashed(right)) => left == right,
        _ => false,
    }
}

fn is_same_literal(left: &Literal, right: &Literal) -> bool
    ensures { MatchBool result (left.now ≡ right.now) (left.now ≢ right.now) }
{
    left.value == right.value
        && left.is_default == right.is_default
        && is_same_name(&left.name, &right.name)
}

pub(crate) fn are_same_literals(left: &[Literal], right: &[Literal]) -> bool
    ensures { MatchBool result (left.now ≡ right.now) (left.now ≢ right.now) }
{
    if left.len() != right.len() {
        return false;
    }
    for at in 0..left.len() {
        if !is_same_literal(&left[at], &right[at]) {
            return false;
        }
    }
    true
}

fn is_same_flag(left: &Flag, right: &Flag) -> bool
    ensures { MatchBool result (left.now ≡ right.now) (left.now ≢ right.now) }
{
    left.position == right.position && is_same_name(&left.name, &right.name)
}

pub(crate) fn are_same_flags(left: &[Flag], right: &[Flag]) -> bool
    ensures { MatchBool result (left.now ≡ right.now) (left.now ≢ right.now) }
{
    if left.len() != right.len() {
        return false;
    }
    for at in 0..left.len() {
        if !is_same_flag(&left[at], &right[at]) {
            return false;
        }
    }
    true
}

fn is_same_base(left: &Base, right: &Base) -> bool
    ensures { MatchBool result (left.now ≡ right.now) (left.now ≢ right.now) }
{
    left.count == right.count
        && left.nested == right.nested
        && left.hashed_ids == right.hashed_ids
        && is_same_title(&left.name, &right.name)
}

pub(crate) fn are_same_bases(left: &[Base], right: &[Base]) -> bool
    ensures { MatchBool result (left.now ≡ right.now) (left.now ≢ right.now) }
{
    if left.len() != right.len() {
        return false;
    }
    for at in 0..left.len() {
        if !is_same_base(&left[at], &right[at]) {
            return false;
        }
    }
    true
}
