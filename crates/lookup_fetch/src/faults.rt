//! Why objects were not fetched.
use thiserror::Error;
use type_lookup::FrameFault;
use type_trees::HashId;
use xt_lists::OutOfMemory;

/// Why objects were not fetched.
#[derive(Clone, Copy, Debug, PartialEq, Eq, Error)]
pub enum FetchFault {
    /// The link failed.
    #[error("the link failed")]
    LinkFault,
    /// What came is no reply to the request, or carries an object that was not asked for in this round, that comes again in the reply, or
    /// that is no object's text.
    #[error("what came is no reply to the request")]
    BadReply,
    /// An object came under another identifier than its own.
    #[error("the object of {got} came under {id}")]
    WrongHash { id: HashId, got: HashId },
    /// A round brought nothing; this is the first identifier that it asked for.
    #[error("the object of {0} is not served")]
    NotServed(HashId),
    /// More than 4,096 identifiers were met.
    #[error("there are more than 4,096 objects")]
    TooMany,
    /// Memory was wanting.
    #[error("memory was wanting")]
    OutOfMemory,
}

impl From<OutOfMemory> for FetchFault {
    ghost use Rattle.std.specs.Prelude.{◌≡◌};
    ghost use Rattle.lookup_fetch.specs.declared.faults.FetchFault.TheVariants.{OutOfMemory as memory};

    ghost from_gives = { λ _ e. e ≡ memory };

    fn from(_: OutOfMemory) -> FetchFault {
        FetchFault::OutOfMemory
    }
}

/// What is no frame is no reply.
impl From<FrameFault> for FetchFault {
    ghost use Rattle.std.specs.Prelude.{◌≡◌};
    ghost use Rattle.lookup_fetch.specs.FrameFaults.{fault_by};

    ghost from_gives = { λ fault e. e ≡ fault_by fault };

    fn from(fault: FrameFault) -> FetchFault {
        match fault {
            FrameFault::LinkFault => FetchFault::LinkFault,
            FrameFault::Truncated | FrameFault::TooLong { .. } | FrameFault::BadMessage { .. } => {
                FetchFault::BadReply
            }
            FrameFault::OutOfMemory => FetchFault::OutOfMemory,
        }
    }
}
