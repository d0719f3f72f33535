ghost use Rattle.std.specs.Prelude.{◌≡◌, map};
ghost use Rattle.node_judge.specs.Bare.{bare};
ghost use Rattle.xcdr_model.specs.Keys as keys;
ghost use Rattle.xcdr_model.specs.Rules as spec;
ghost use Rattle.xt_shapes.specs.Keyable as keyable;
ghost use Rattle.xt_shapes.specs.Select as select;

use crate::marks::same_marks;
use crate::views::MemberView;

/// Whether a member has that id.
pub fn has_member<T: MemberView>(members: &[T], id: u32) -> bool
    ensures { result ≡ select.has_member (bare (map T.head_of members.now)) id }
{
    for member in members {
        if member.id() == id {
            return true;
        }
    }
    false
}

/// Whether members have the same name exactly where they have the same id.
pub fn same_names<T: MemberView>(left: &[T], right: &[T]) -> bool
    ensures { result ≡ spec.same_names (map T.head_of left.now) (map T.head_of right.now) }
{
    same_marks(left, right)
}

/// Whether each id on the left is one on the right.
pub fn ids_within<T: MemberView>(left: &[T], right: &[T]) -> bool
    ensures { result ≡ spec.ids_within (bare (map T.head_of left.now)) (bare (map T.head_of right.now)) }
{
    for member in left {
        if !has_member(right, member.id()) {
            return false;
        }
    }
    true
}

fn needs<T: MemberView>(member: &T, others: &[T]) -> bool
    ensures { result ≡ spec.need_met (T.head_of member.now) (bare (map T.head_of others.now)) }
{
    if member.is_optional() || !(member.must_understand() || member.is_key()) {
        return true;
    }
    has_member(others, member.id())
}

/// Whether each member on the left that must be understood is on the right, or optional.
pub fn needs_within<T: MemberView>(left: &[T], right: &[T]) -> bool
    ensures { result ≡ spec.needs_within (bare (map T.head_of left.now)) (bare (map T.head_of right.now)) }
{
    for member in left {
        if !needs(member, right) {
            return false;
        }
    }
    true
}

/// Whether an id is on both sides.
pub fn common_member<T: MemberView>(left: &[T], right: &[T]) -> bool
    ensures { result ≡ spec.common_member (bare (map T.head_of left.now)) (bare (map T.head_of right.now)) }
{
    for member in left {
        if has_member(right, member.id()) {
            return true;
        }
    }
    false
}

/// Whether a member is a key.
pub fn any_key<T: MemberView>(members: &[T]) -> bool
    ensures { result ≡ keyable.any_key (bare (map T.head_of members.now)) }
{
    for member in members {
        if member.is_key() {
            return true;
        }
    }
    false
}

fn counts_id<T: MemberView>(keyed: bool, members: &[T], id: u32) -> bool
    ensures { result ≡ keys.counts_id keyed (bare (map T.head_of members.now)) id }
{
    for member in members {
        if (member.is_key() || !keyed) && member.id() == id {
            return true;
        }
    }
    false
}

fn counted_within<T: MemberView>(keyed: bool, members: &[T], other: bool, others: &[T]) -> bool
    ensures { result ≡ keys.counted_within keyed (bare (map T.head_of members.now)) other (bare (map T.head_of others.now)) }
{
    for member in members {
        if (member.is_key() || !keyed) && !counts_id(other, others, member.id()) {
            return false;
        }
    }
    true
}

/// Whether the same ids are counted: on a side that is `keyed` those of key members, else all.
pub fn same_counted<T: MemberView>(keyed: bool, left: &[T], other: bool, right: &[T]) -> bool
    ensures { result ≡ keys.same_counted keyed (bare (map T.head_of left.now)) other (bare (map T.head_of right.now)) }
{
    counted_within(keyed, left, other, right) && counted_within(other, right, keyed, left)
}

fn same_place<T: MemberView>(left: &T, right: &T) -> bool
    ensures { result ≡ spec.same_place (T.head_of left.now) (T.head_of right.now) }
{
    left.id() == right.id() && left.is_optional() == right.is_optional()
}

/// Whether members have the same id and optional setting at each index that both have.
pub fn same_places<T: MemberView>(left: &[T], right: &[T]) -> bool
    ensures { result ≡ spec.same_places (bare (map T.head_of left.now)) (bare (map T.head_of right.now)) }
{
    for at in 0..left.len() {
        if at >= right.len() {
            return true;
        }
        if !same_place(&left[at], &right[at]) {
            return false;
        }
    }
    true
}
