//! What became of the objects of a push, and why not all of them were pushed.
use thiserror::Error;
use type_lookup::FrameFault;
use type_trees::HashId;
use xt_lists::{OutOfMemory, Text};

/// What became of an object that was pushed.
#[derive(Debug, Drop)]
pub enum What {
    /// The peer took it.
    Added,
    /// The peer had it.
    Known,
    /// The peer has these other octets under the identifier.
    Clash(Text),
    /// The peer has no room for it.
    Full,
}

/// An object's identifier, and what became of the object.
#[derive(Debug, Drop)]
pub struct Told {
    pub id: HashId,
    pub what: What,
}

/// Why not all of the objects were pushed.
#[derive(Clone, Copy, Debug, PartialEq, Eq, Error)]
pub enum PushFault {
    /// The link failed.
    #[error("the link failed")]
    LinkFault,
    /// What came is no reply to the request: no frame, or one of another operation or tag; another number of outcomes than objects, or one
    /// that says that an object is none; no other object's text under the identifier that clashed.
    #[error("what came is no reply to the request")]
    BadReply,
    /// Memory was wanting.
    #[error("memory was wanting")]
    OutOfMemory,
}

impl From<OutOfMemory> for PushFault {
    ghost use Rattle.std.specs.Prelude.{◌≡◌};
    ghost use Rattle.type_mirror.specs.declared.told.told.PushFault.TheVariants.{OutOfMemory as memory};

    ghost from_gives = { λ _ e. e ≡ memory };

    fn from(_: OutOfMemory) -> PushFault {
        PushFault::OutOfMemory
    }
}

/// What is no frame is no reply.
impl From<FrameFault> for PushFault {
    ghost use Rattle.std.specs.Prelude.{◌≡◌};
    ghost use Rattle.type_mirror.specs.told.FrameFaults.{fault_by};

    ghost from_gives = { λ fault e. e ≡ fault_by fault };

    fn from(fault: FrameFault) -> PushFault {
        match fault {
            FrameFault::LinkFault => PushFault::LinkFault,
            FrameFault::Truncated | FrameFault::TooLong { .. } | FrameFault::BadMessage { .. } => {
                PushFault::BadReply
            }
            FrameFault::OutOfMemory => PushFault::OutOfMemory,
        }
    }
}
