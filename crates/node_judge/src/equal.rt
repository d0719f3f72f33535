ghost use Rattle.std.specs.Prelude.{◌≡◌, ◌&&◌, map};
ghost use Rattle.std.specs.Bool.{beq};
ghost use Rattle.std.specs.Ordering.{int_eq};
ghost use Rattle.xcdr_model.specs.Equivalence as spec;
ghost use Rattle.xt_shapes.specs.Kinds as kinds;

use crate::views::{CaseView, FlagView, LiteralView, MemberView};
use xt_shapes::Ext;

/// Whether the extensibility is the same.
pub fn same_ext(left: Ext, right: Ext) -> bool
    ensures { result ≡ kinds.same_ext left right }
{
    left == right
}

/// Whether the dimensions of arrays are equal.
pub fn same_dims(left: &[u32], right: &[u32]) -> bool
    ensures { result ≡ spec.same_dims left.now right.now }
{
    left == right
}

fn same_labels(left: &[i32], right: &[i32]) -> bool
    ensures { result ≡ spec.each_pair int_eq left.now right.now }
{
    left == right
}

/// Whether unions have the same extensibility, and both discriminators are key or neither.
pub fn same_kind_of_union(left: Ext, key: bool, right: Ext, other: bool) -> bool
    ensures { result ≡ (kinds.same_ext left right && beq key other) }
{
    left == right && key == other
}

fn same_literal<T: LiteralView>(left: &T, right: &T) -> bool
    ensures { result ≡ spec.same_literal (T.literal_of left.now) (T.literal_of right.now) }
{
    left.value() == right.value()
        && left.is_default() == right.is_default()
        && left.has_name_of(right)
}

/// Whether literals are equal one by one.
pub fn same_literals<T: LiteralView>(left: &[T], right: &[T]) -> bool
    ensures { result ≡ spec.each_pair spec.same_literal (map T.literal_of left.now) (map T.literal_of right.now) }
{
    if left.len() != right.len() {
        return false;
    }
    for at in 0..left.len() {
        if !same_literal(&left[at], &right[at]) {
            return false;
        }
    }
    true
}

fn same_flag<T: FlagView>(left: &T, right: &T) -> bool
    ensures { result ≡ spec.same_flag (T.flag_of left.now) (T.flag_of right.now) }
{
    left.position() == right.position() && left.has_name_of(right)
}

/// Whether flags are equal one by one.
pub fn same_flags<T: FlagView>(left: &[T], right: &[T]) -> bool
    ensures { result ≡ spec.each_pair spec.same_flag (map T.flag_of left.now) (map T.flag_of right.now) }
{
    if left.len() != right.len() {
        return false;
    }
    for at in 0..left.len() {
        if !same_flag(&left[at], &right[at]) {
            return false;
        }
    }
    true
}

/// Whether members are equal in all but their types.
pub fn same_head<T: MemberView>(left: &T, right: &T) -> bool
    ensures { result ≡ spec.same_head (T.head_of left.now) (T.head_of right.now) }
{
    left.id() == right.id()
        && left.tc() == right.tc()
        && left.is_optional() == right.is_optional()
        && left.must_understand() == right.must_understand()
        && left.is_key() == right.is_key()
        && left.has_name_of(right)
}

/// Whether cases are equal in all but their types.
pub fn same_case_head<T: CaseView>(left: &T, right: &T) -> bool
    ensures { result ≡ spec.same_case_head (T.head_of left.now) (T.head_of right.now) }
{
    left.id() == right.id()
        && left.tc() == right.tc()
        && left.is_default() == right.is_default()
        && same_labels(left.labels(), right.labels())
        && left.has_name_of(right)
}
