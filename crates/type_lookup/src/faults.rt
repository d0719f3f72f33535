//! What is wrong with a frame.
use thiserror::Error;
use xt_io::Failed;
use xt_lists::OutOfMemory;

/// Why no message was read or written.
#[derive(Clone, Copy, Debug, PartialEq, Eq, Error)]
pub enum FrameFault {
    /// The link failed.
    #[error("the link failed")]
    LinkFault,
    /// The octets end inside the frame.
    #[error("the octets end inside a frame")]
    Truncated,
    /// The payload's length is above 262,144.
    #[error("a payload of {length} octets is too long")]
    TooLong { length: u32 },
    /// The payload is no message: the first field that is cut, unknown or out of its limit, or the first octet after the message,
    /// begins at this octet of the payload. An empty payload is bad at 0.
    #[error("the payload is no message, at octet {at}")]
    BadMessage { at: u32 },
    /// Memory was wanting.
    #[error("memory was wanting")]
    OutOfMemory,
}

impl From<Failed> for FrameFault {
    ghost use Rattle.std.specs.Prelude.{◌≡◌};
    ghost use Rattle.type_lookup.specs.declared.faults.FrameFault.TheVariants.{LinkFault as failed};

    ghost from_gives = { λ _ e. e ≡ failed };

    fn from(_: Failed) -> FrameFault {
        FrameFault::LinkFault
    }
}

impl From<OutOfMemory> for FrameFault {
    ghost use Rattle.std.specs.Prelude.{◌≡◌};
    ghost use Rattle.type_lookup.specs.declared.faults.FrameFault.TheVariants.{OutOfMemory as memory};

    ghost from_gives = { λ _ e. e ≡ memory };

    fn from(_: OutOfMemory) -> FrameFault {
        FrameFault::OutOfMemory
    }
}
