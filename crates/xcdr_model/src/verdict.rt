ghost use Rattle.std.specs.Prelude.{◌≡◌, Some};
ghost use Rattle.xcdr_model.specs.Policies.{standard};
ghost use Rattle.xcdr_model.specs.Words.{rule_text};

use std::fmt;

/// A rule of assignability (DDS-XTypes 1.3, 7.2.4.4; the names are this profile's own).
#[derive(Debug, Clone, Copy, PartialEq, Eq)]
pub enum Rule {
    /// Both types are of one kind; primitives are the same primitive.
    Kind,
    /// Structures, unions and enumerations have equal extensibility.
    Extensibility,
    /// Enumerations and bitmasks have equal bits.
    BitBound,
    /// Literals have the same name exactly where they have the same value.
    LiteralNames,
    /// Final enumerations have the same values, appendable ones a common value.
    LiteralSet,
    /// Arrays have equal dimensions.
    Dimensions,
    /// Members or cases have the same name exactly where they have the same id, or the policy ignores names.
    Names,
    /// Structures have a common member.
    CommonMember,
    /// A member that must be understood and isn't optional is on both sides.
    MustUnderstand,
    /// Top structures have the same ids of key members.
    KeySet,
    /// A key member's type keeps the writer's keys apart.
    KeyFit,
    /// Final structures have the same ids.
    MemberSet,
    /// Final and appendable structures have the same id and optional setting at each index that both have.
    MemberIndex,
    /// The discriminators of top unions are both key or neither.
    Discriminator,
    /// Final unions have the same labels, appendable ones a common label.
    Labels,
    /// A part that isn't equivalent is delimited.
    NotDelimited,
    /// The policy lets types differ, or they are equivalent.
    Coercion,
    /// The policy ignores bounds, or the reader's bound holds the writer's.
    Bound,
}

impl Rule {
    /// The word that is printed for it.
    pub fn word(self) -> &'static str
        ensures { result.now ≡ rule_text self }
    {
        match self {
            Rule::Kind => "KIND",
            Rule::Extensibility => "EXTENSIBILITY",
            Rule::BitBound => "BIT_BOUND",
            Rule::LiteralNames => "LITERAL_NAMES",
            Rule::LiteralSet => "LITERAL_SET",
            Rule::Dimensions => "DIMENSIONS",
            Rule::Names => "NAMES",
            Rule::CommonMember => "COMMON_MEMBER",
            Rule::MustUnderstand => "MUST_UNDERSTAND",
            Rule::KeySet => "KEY_SET",
            Rule::KeyFit => "KEY_FIT",
            Rule::MemberSet => "MEMBER_SET",
            Rule::MemberIndex => "MEMBER_INDEX",
            Rule::Discriminator => "DISCRIMINATOR",
            Rule::Labels => "LABELS",
            Rule::NotDelimited => "NOT_DELIMITED",
            Rule::Coercion => "COERCION",
            Rule::Bound => "BOUND",
        }
    }
}

impl fmt::Display for Rule {
    ghost output = { λ x. Some (rule_text x) };

    fn fmt<W: fmt::Write>(&self, f: &mut fmt::Formatter<W>) -> fmt::Result {
        f.write_str(self.word())
    }
}

/// What a reader lets pass where its type and the writer's differ (DDS-XTypes 1.3, 7.6.3.7).
#[derive(Debug, Clone, Copy, PartialEq, Eq)]
pub struct Policy {
    /// Types that aren't equivalent may be assignable.
    pub coercion: bool,
    /// A string's bound may be below the writer's.
    pub ignore_string_bounds: bool,
    /// A sequence's or map's bound may be below the writer's.
    pub ignore_sequence_bounds: bool,
    /// Members' names may differ.
    pub ignore_member_names: bool,
}

impl Policy {
    /// The standard's own: types and bounds may differ, names may not.
    pub fn standard() -> Policy
        ensures { result ≡ standard }
    {
        Policy {
            coercion: true,
            ignore_string_bounds: true,
            ignore_sequence_bounds: true,
            ignore_member_names: false,
        }
    }
}
