ghost use Rattle.std.specs.Prelude.{◌≡◌, map};
ghost use Rattle.xcdr_model.specs.Rules as spec;

use crate::marks::same_marks;
use crate::views::LiteralView;
use xt_shapes::Ext;

/// Whether literals have the same name exactly where they have the same value.
pub(crate) fn same_literal_names<T: LiteralView>(left: &[T], right: &[T]) -> bool
    ensures { result ≡ spec.same_literal_names (map T.literal_of left.now) (map T.literal_of right.now) }
{
    same_marks(left, right)
}

fn has_value<T: LiteralView>(literals: &[T], value: i32) -> bool
    ensures { result ≡ spec.has_value (map T.literal_of literals.now) value }
{
    for literal in literals {
        if value == literal.value() {
            return true;
        }
    }
    false
}

/// Whether each value on the left is one on the right.
pub fn values_within<T: LiteralView>(left: &[T], right: &[T]) -> bool
    ensures { result ≡ spec.values_within (map T.literal_of left.now) (map T.literal_of right.now) }
{
    for literal in left {
        if !has_value(right, literal.value()) {
            return false;
        }
    }
    true
}

fn common_value<T: LiteralView>(left: &[T], right: &[T]) -> bool
    ensures { result ≡ spec.common_value (map T.literal_of left.now) (map T.literal_of right.now) }
{
    for literal in left {
        if has_value(right, literal.value()) {
            return true;
        }
    }
    false
}

/// Final enumerations have the same values, appendable ones a common value.
pub(crate) fn literal_sets<T: LiteralView>(ext: Ext, left: &[T], right: &[T]) -> bool
    ensures { result ≡ spec.literal_sets ext (map T.literal_of left.now) (map T.literal_of right.now) }
{
    match ext {
        Ext::Final => values_within(left, right) && values_within(right, left),
        Ext::Appendable => common_value(left, right),
        Ext::Mutable => false,
    }
}
