ghost use Rattle.std.specs.Prelude.{Some};
ghost use Rattle.xt_shapes.specs.Words.{step_text};

use std::fmt;

/// The extensibility of a type: how it may grow (DDS-XTypes 1.3, 7.2.3).
#[derive(Debug, Clone, Copy, PartialEq, Eq)]
pub enum Ext {
    Final,
    Appendable,
    Mutable,
}

/// What becomes of a part that can't be constructed (TryConstruct, DDS-XTypes 1.3, 7.2.2.7).
#[derive(Debug, Clone, Copy, PartialEq, Eq)]
pub enum Try {
    /// The whole that the part stands in can't be constructed either.
    Discard,
    /// The part has its type's default.
    UseDefault,
    /// A part that is past its bound is cut; one that failed is as for `Discard`.
    Trim,
}

/// A representation of samples (DDS-XTypes 1.3, 7.4).
#[derive(Debug, Clone, Copy, PartialEq, Eq)]
pub enum Rep {
    Xcdr1,
    Xcdr2,
}

/// The order of a number's octets.
#[derive(Debug, Clone, Copy, PartialEq, Eq)]
pub enum Order {
    Big,
    Little,
}

/// The primitive types (DDS-XTypes 1.3, 7.2.2.2) that the profile has.
#[derive(Debug, Clone, Copy, PartialEq, Eq)]
pub enum Primitive {
    Boolean,
    Byte,
    Int8,
    Uint8,
    Int16,
    Uint16,
    Int32,
    Uint32,
    Int64,
    Uint64,
    Float32,
    Float64,
    Char8,
}

/// A step from a type or value to a part of it.
#[derive(Debug, Clone, Copy, PartialEq, Eq, Default)]
pub enum Step {
    /// To the member or case with this id.
    Member(u32),
    /// To the element of a sequence or array.
    #[default]
    Element,
    /// To the key of a map.
    Key,
    /// To the value of a map.
    Entry,
    /// To the discriminator of a union.
    Disc,
}

/// A step as it is printed in a path: a member's id in decimal, or `[]`, `key`, `entry`, `disc`.
impl fmt::Display for Step {
    ghost output = { λ step. Some (step_text step) };

    fn fmt<W: fmt::Write>(&self, f: &mut fmt::Formatter<W>) -> fmt::Result {
        match self {
            Step::Member(id) => write!(f, "{id}"),
            Step::Element => f.write_str("[]"),
            Step::Key => f.write_str("key"),
            Step::Entry => f.write_str("entry"),
            Step::Disc => f.write_str("disc"),
        }
    }
}
