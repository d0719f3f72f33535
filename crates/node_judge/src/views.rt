ghost use Rattle.std.specs.Prelude.{◌≡◌, ◌==◌};
ghost use Rattle.node_judge.specs.Marks as marks;

use crate::marks::Marked;
use xt_shapes::Try;

/// A member of a structure without its type.
pub trait MemberView: Marked {
    ghost use Rattle.xt_shapes.specs.Shape.{Head};

    ghost head_of: { Self → Head };

    fn id(&self) -> u32
        ensures { result ≡ (head_of self.now).id };

    /// Whether the names have the same hash.
    fn has_name_of(&self, other: &Self) -> bool
        ensures { result ≡ ((head_of self.now).hash == (head_of other.now).hash) };

    fn tc(&self) -> Try
        ensures { result ≡ (head_of self.now).tc };

    fn is_optional(&self) -> bool
        ensures { result ≡ (head_of self.now).optional };

    fn must_understand(&self) -> bool
        ensures { result ≡ (head_of self.now).must_understand };

    fn is_key(&self) -> bool
        ensures { result ≡ (head_of self.now).key };

    ghost marked: { (m : Self) → Self.mark_of m ≡ marks.member_mark (head_of m) };
}

/// A case of a union without its type.
pub trait CaseView: Marked {
    ghost use Rattle.xt_shapes.specs.Shape.{CaseHead};

    ghost head_of: { Self → CaseHead };

    fn id(&self) -> u32
        ensures { result ≡ (head_of self.now).id };

    /// Whether the names have the same hash.
    fn has_name_of(&self, other: &Self) -> bool
        ensures { result ≡ ((head_of self.now).hash == (head_of other.now).hash) };

    fn tc(&self) -> Try
        ensures { result ≡ (head_of self.now).tc };

    fn labels(&self) -> &[i32]
        ensures { result.now ≡ (head_of self.now).labels };

    fn is_default(&self) -> bool
        ensures { result ≡ (head_of self.now).is_default };

    ghost marked: { (c : Self) → Self.mark_of c ≡ marks.case_mark (head_of c) };
}

/// A literal of an enumeration.
pub trait LiteralView: Marked {
    ghost use Rattle.xt_shapes.specs.Shape.{Literal};

    ghost literal_of: { Self → Literal };

    /// Whether the names have the same hash.
    fn has_name_of(&self, other: &Self) -> bool
        ensures { result ≡ ((literal_of self.now).hash == (literal_of other.now).hash) };

    fn value(&self) -> i32
        ensures { result ≡ (literal_of self.now).value };

    fn is_default(&self) -> bool
        ensures { result ≡ (literal_of self.now).is_default };

    ghost marked: { (l : Self) → Self.mark_of l ≡ marks.literal_mark (literal_of l) };
}

/// A flag of a bitmask.
pub trait FlagView {
    ghost use Rattle.xt_shapes.specs.Shape.{Flag};

    ghost flag_of: { Self → Flag };

    /// Whether the names have the same hash.
    fn has_name_of(&self, other: &Self) -> bool
        ensures { result ≡ ((flag_of self.now).hash == (flag_of other.now).hash) };

    fn position(&self) -> u8
        ensures { result ≡ (flag_of self.now).position };
}
