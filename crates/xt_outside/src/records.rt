//! The records of a bundle, and what can be wrong with one.
ghost use Rattle.std.specs.Prelude.{◌≡◌, ◌≤◌};
ghost use Rattle.xt_outside.specs.declared.records.RecordFault.TheVariants.{ReadFault, OutOfMemory};

use crate::octets::Failed;
use thiserror::Error;
use xt_lists::{OutOfMemory, Text};

/// What a record carries.
#[derive(Clone, Copy, Debug, PartialEq, Eq)]
pub enum Kind {
    /// The octets of a TypeObject.
    Object,
    /// A sample: its encapsulation header and what follows.
    Sample,
    /// A text of IDL.
    Idl,
    /// A value as JSON.
    Json,
    /// A line on what became of another record.
    Note,
}

impl Kind {
    ghost use Rattle.std.specs.Prelude.{Some};
    ghost use Rattle.xt_outside.specs.Bundles.{kind_of, octet_of, limit_of};

    /// The octet that begins a record of this kind: 1 to 5, in the order above.
    pub fn octet(self) -> u8
        ensures { result ≡ octet_of self }
    {
        match self {
            Kind::Object => 1,
            Kind::Sample => 2,
            Kind::Idl => 3,
            Kind::Json => 4,
            Kind::Note => 5,
        }
    }

    /// The kind that this octet stands for.
    pub fn from_octet(octet: u8) -> Option<Kind>
        ensures { result ≡ kind_of octet }
    {
        match octet {
            1 => Some(Kind::Object),
            2 => Some(Kind::Sample),
            3 => Some(Kind::Idl),
            4 => Some(Kind::Json),
            5 => Some(Kind::Note),
            _ => None,
        }
    }

    /// The greatest length of a payload of this kind, in octets.
    pub fn limit(self) -> u32
        ensures limit { result ≡ limit_of self }
        ensures most { result ≤ 8388608 }
    {
        match self {
            Kind::Object => 131_072,
            Kind::Sample | Kind::Idl => 1_048_576,
            Kind::Json => 8_388_608,
            Kind::Note => 65_536,
        }
    }
}

/// A record: its kind, the offset in the input of its first octet, and its payload.
#[derive(Debug, Drop)]
pub struct Item {
    pub kind: Kind,
    pub at: u64,
    pub payload: Text,
}

/// The head of a record: its kind, the offset in the input of its first octet, and the length of its payload in octets.
///
/// It is five octets: that of the kind, and the length as a big-endian number of 32 bits.
#[derive(Clone, Copy, Debug, PartialEq, Eq)]
pub struct Head {
    pub kind: Kind,
    pub at: u64,
    pub length: u32,
}

/// Why no further record was read. `at` is the offset in the input of the record's first octet.
#[derive(Clone, Copy, Debug, PartialEq, Eq, Error)]
pub enum RecordFault {
    /// The source failed.
    #[error("the input could not be read")]
    ReadFault,
    /// The input ends inside the record.
    #[error("the input ends inside the record at {at}")]
    Truncated { at: u64, kind: Kind },
    /// The record's first octet stands for no kind.
    #[error("the record at {at} is of no known kind: {octet}")]
    UnknownKind { at: u64, octet: u8 },
    /// The record's length passes the limit of its kind.
    #[error("the payload of the record at {at} is too long: {length} octets")]
    TooLong { at: u64, kind: Kind, length: u32 },
    /// The bundle has 1,048,576 records before this one.
    #[error("the record at {at} is one too many")]
    TooMany { at: u64 },
    /// Memory was wanting.
    #[error("memory was wanting")]
    OutOfMemory,
}

impl From<Failed> for RecordFault {
    ghost from_gives = { λ _ e. e ≡ ReadFault };

    fn from(_: Failed) -> RecordFault {
        RecordFault::ReadFault
    }
}

impl From<OutOfMemory> for RecordFault {
    ghost from_gives = { λ _ e. e ≡ OutOfMemory };

    fn from(_: OutOfMemory) -> RecordFault {
        RecordFault::OutOfMemory
    }
}
