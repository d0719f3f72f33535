ghost use Rattle.std.specs.Prelude.{◌≡◌, Some};
ghost use Rattle.xcdr_model.specs.Words.{why_text};

use std::fmt;

/// Why a sample is malformed (DDS-XTypes 1.3, 7.4; the list is this profile's own). The first fault in reading order counts.
#[derive(Debug, Clone, Copy, PartialEq, Eq)]
pub enum Why {
    /// Fewer than 4 octets, an identifier that isn't the reader's type's, or more counted padding than body.
    Encapsulation,
    /// A number, header or text doesn't fit in its region.
    Short,
    /// A boolean or presence octet is neither 0 nor 1.
    Boolean,
    /// A text with count 0, without NUL at its end, or with a NUL before. Printed as STRING.
    Str,
    /// A bit at or above a bitmask's bit bound.
    Mask,
    /// A DHEADER counts past the enclosing region.
    Dheader,
    /// A member's length passes the region.
    MemberSize,
    /// Octets of a region inside the body are left that no rule passes over.
    LengthRest,
    /// An id of the reader's type comes again in one structure.
    Twice,
    /// An id that no member can have.
    MemberId,
    /// An extended header whose length isn't 8, or an optional member's header with another id.
    Parameter,
    /// Octets are left after the top value.
    Trailing,
}

/// The first fault of a malformed sample: its place, an octet's offset, and why.
#[derive(Debug, Clone, Copy, PartialEq, Eq)]
pub struct Fault {
    pub at: u64,
    pub why: Why,
}

impl Why {
    /// The word that is printed for it.
    pub fn word(self) -> &'static str
        ensures { result.now ≡ why_text self }
    {
        match self {
            Why::Encapsulation => "ENCAPSULATION",
            Why::Short => "SHORT",
            Why::Boolean => "BOOLEAN",
            Why::Str => "STRING",
            Why::Mask => "MASK",
            Why::Dheader => "DHEADER",
            Why::MemberSize => "MEMBER_SIZE",
            Why::LengthRest => "LENGTH_REST",
            Why::Twice => "TWICE",
            Why::MemberId => "MEMBER_ID",
            Why::Parameter => "PARAMETER",
            Why::Trailing => "TRAILING",
        }
    }
}

impl fmt::Display for Why {
    ghost output = { λ x. Some (why_text x) };

    fn fmt<W: fmt::Write>(&self, f: &mut fmt::Formatter<W>) -> fmt::Result {
        f.write_str(self.word())
    }
}
