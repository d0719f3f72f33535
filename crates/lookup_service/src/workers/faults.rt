//! Why workers did not serve all.
ghost use Rattle.std.specs.Prelude.{◌≡◌};
ghost use Rattle.lookup_service.specs.workers.Outcomes.{answer_of, both_of};

use thiserror::Error;
use xt_io::NetFault;

/// Why workers did not serve all that they were to. A fault of a door goes before want of memory.
#[derive(Clone, Copy, Debug, PartialEq, Eq, Error)]
pub enum ServeFault {
    /// A door failed.
    #[error("a door failed")]
    DoorFault,
    /// Memory was wanting, in a session or where a link was to come in.
    #[error("memory was wanting")]
    OutOfMemory,
}

/// What a worker answers: that a link was refused, or whether memory sufficed in all of its sessions.
pub(crate) fn answer_told(worked: Result<bool, NetFault>) -> Result<(), ServeFault>
    ensures { result ≡ answer_of worked }
{
    match worked {
        Ok(true) => Ok(()),
        Ok(false) | Err(NetFault::OutOfMemory) => Err(ServeFault::OutOfMemory),
        Err(NetFault::Failed) => Err(ServeFault::DoorFault),
    }
}

/// What two parts of the seats answer together.
pub(crate) fn both(
    first: Result<(), ServeFault>,
    second: Result<(), ServeFault>,
) -> Result<(), ServeFault>
    ensures { result ≡ both_of first second }
{
    match (first, second) {
        (Err(ServeFault::DoorFault), _) => Err(ServeFault::DoorFault),
        (_, Err(fault)) => Err(fault),
        (first, Ok(())) => first,
    }
}
