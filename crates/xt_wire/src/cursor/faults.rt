ghost use Rattle.std.specs.Prelude.{◌≡◌};
ghost use Rattle.xt_wire.specs.cursor.Cuts.{cut_fault};
ghost use Rattle.xt_wire.specs.declared.cursor.faults.DecodeFault.TheVariants.{OutOfMemory};

use crate::cursor::cursor::CutFault;
use std::alloc::AllocError;
use thiserror::Error;
use xcdr_model::Why;
use xt_lists::OutOfMemory;

/// Why nothing was decoded.
#[derive(Clone, Copy, Debug, PartialEq, Eq, Error)]
pub enum DecodeFault {
    /// The octets are malformed: the first fault in reading order, and its place, counted from the first octet of all.
    #[error("the octets are malformed at octet {at}: {why}")]
    Malformed { at: u64, why: Why },
    /// The cursor's device failed, or its input ended too early.
    #[error("reading failed, or the input ended too early")]
    ReadFault,
    /// Memory was wanting.
    #[error("memory is wanting")]
    OutOfMemory,
}

/// What a decoder answers where its cursor does not go on.
pub fn cut(fault: CutFault) -> DecodeFault
    ensures { result ≡ cut_fault fault }
{
    match fault {
        CutFault::Short { at } => DecodeFault::Malformed {
            at,
            why: Why::Short,
        },
        CutFault::Fault => DecodeFault::ReadFault,
    }
}

impl From<OutOfMemory> for DecodeFault {
    ghost from_gives = { λ _ d. d ≡ OutOfMemory };

    fn from(_: OutOfMemory) -> DecodeFault {
        DecodeFault::OutOfMemory
    }
}

impl From<AllocError> for DecodeFault {
    ghost from_gives = { λ _ d. d ≡ OutOfMemory };

    fn from(_: AllocError) -> DecodeFault {
        DecodeFault::OutOfMemory
    }
}
