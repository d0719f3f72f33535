ghost use Rattle.std.specs.Prelude.{Some};
ghost use Rattle.object_formats.specs.Words.{object_rule_text};

use std::fmt;
use thiserror::Error;

/// The rules of an object's text, each with the place that a fault names. The first fault in reading order counts.
#[derive(Debug, Clone, Copy, PartialEq, Eq)]
pub enum ObjectRule {
    /// A text has at most 131,072 octets. This is tried first, at 131,072.
    Long,
    /// A field is whole before its region or the text ends: at the field, behind its padding, or at the end if that comes first.
    Short,
    /// Behind its first count a text has 0xF1 or 0xF2, and then the kind of an alias, enumeration, bitmask, structure or union: at the
    /// first of the two octets that isn't so.
    Kind,
    /// Padding is 0: at the first octet that isn't.
    Padding,
    /// What a count of octets counts is there, and is used up: at the count.
    Delimiter,
    /// The flags may stand there, and unused ones are 0: at the flags.
    Flags,
    /// A text has 1 to 256 octets with the NUL that ends it, and no other NUL: at its count.
    Text,
    /// No annotation is there: at the octet that isn't 0.
    Annotation,
    /// An identifier is of a form that the profile has, small where that holds it, and nests at most 16 deep: at its first octet,
    /// or at the octet that says of which kind the identifiers in it are.
    Identifier,
    /// A base is none, or a hash of the object's own kind: at its first octet.
    Base,
    /// Nothing follows the object: at the first octet behind it.
    Trailing,
}

/// A rule in one lower-case word, that of its name.
impl fmt::Display for ObjectRule {
    ghost output = { λ rule. Some (object_rule_text rule) };

    fn fmt<W: fmt::Write>(&self, f: &mut fmt::Formatter<W>) -> fmt::Result {
        f.write_str(match self {
            ObjectRule::Long => "long",
            ObjectRule::Short => "short",
            ObjectRule::Kind => "kind",
            ObjectRule::Padding => "padding",
            ObjectRule::Delimiter => "delimiter",
            ObjectRule::Flags => "flags",
            ObjectRule::Text => "text",
            ObjectRule::Annotation => "annotation",
            ObjectRule::Identifier => "identifier",
            ObjectRule::Base => "base",
            ObjectRule::Trailing => "trailing",
        })
    }
}

/// The first fault of a text: the rule that it breaks, and the place, counted from the text's first octet.
#[derive(Debug, Clone, Copy, PartialEq, Eq, Error)]
#[error("no object's text, by the rule of {rule} at octet {at}")]
pub struct Fault {
    pub at: u32,
    pub rule: ObjectRule,
}

/// Why octets gave no object.
#[derive(Debug, Clone, Copy, PartialEq, Eq, Error)]
pub enum ObjectFault {
    /// They are no object's text; this is their first fault.
    #[error("no object's text, by the rule of {rule} at octet {at}")]
    Not { at: u32, rule: ObjectRule },
    #[error("memory was wanting")]
    OutOfMemory,
}
