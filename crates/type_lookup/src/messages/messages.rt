//! The messages, and why a payload is none.
use thiserror::Error;
use type_trees::HashId;
use xt_lists::{OutOfMemory, Row, Text};

/// A TypeObject and the identifier that it was asked under.
#[derive(Debug, Drop)]
pub struct Fetched {
    pub id: HashId,
    /// The serialized TypeObject.
    pub octets: Text,
}

/// A type that is depended on.
#[derive(Clone, Copy, Debug, PartialEq, Eq)]
pub struct Needed {
    pub id: HashId,
    /// The octets of its serialized TypeObject.
    pub size: u32,
}

/// A request, or the reply to one. A reply repeats the request's tag.
#[derive(Debug, Drop)]
pub enum Message {
    /// Asks for the TypeObjects of identifiers.
    GetTypes {
        tag: u32,
        ids: Row<HashId>,
    },
    /// Asks which types those of the identifiers depend on, from the continuation point of an earlier reply on.
    GetTypeDependencies {
        tag: u32,
        ids: Row<HashId>,
        point: Text,
    },
    /// Hands over TypeObjects. This operation is the profile's own.
    PutTypes {
        tag: u32,
        objects: Row<Text>,
    },
    /// The reply to GetTypes.
    Types {
        tag: u32,
        objects: Row<Fetched>,
    },
    /// The reply to GetTypeDependencies: a page of them, and the continuation point of the next page.
    Dependencies {
        tag: u32,
        needed: Row<Needed>,
        point: Text,
    },
    /// The reply to PutTypes: an octet for each object, 0 added, 1 known, 2 not an object, 3 clash, 4 full.
    Put {
        tag: u32,
        outcomes: Text,
    },
}

/// The operation of a message.
#[derive(Clone, Copy, Debug, PartialEq, Eq)]
pub enum Operation {
    GetTypes,
    GetTypeDependencies,
    PutTypes,
}

/// Why no message was read from a payload.
#[derive(Clone, Copy, Debug, PartialEq, Eq, Error)]
pub enum PayloadFault {
    /// A field is cut, unknown or out of its limit, or octets follow the message: the first such place is the one with so many
    /// octets of the payload left.
    #[error("a bad field, with {left} octets of the payload left")]
    BadField { left: usize },
    /// Memory was wanting.
    #[error("memory was wanting")]
    OutOfMemory,
}

impl From<OutOfMemory> for PayloadFault {
    ghost use Rattle.std.specs.Prelude.{◌≡◌};
    ghost use Rattle.type_lookup.specs.declared.messages.messages.PayloadFault.TheVariants.{OutOfMemory as memory};

    ghost from_gives = { λ _ e. e ≡ memory };

    fn from(_: OutOfMemory) -> PayloadFault {
        PayloadFault::OutOfMemory
    }
}
