// Why a run could not go on.
ghost use Rattle.std.specs.Prelude.{◌≡◌};
ghost use Rattle.tool_runs.specs.declared.output.halt.Halt.TheVariants.{WriteFault, OutOfMemory};

use xt_io::Failed;
use xt_lists::OutOfMemory;

/// The source or the sink failed, or memory was wanting.
#[derive(Clone, Copy, Debug, PartialEq, Eq)]
pub enum Halt {
    ReadFault,
    WriteFault,
    OutOfMemory,
}

/// Only sinks answer it to a command: the reader turns a source's failure into a fault of its own.
impl From<Failed> for Halt {
    ghost from_gives = { λ _ e. e ≡ WriteFault };

    fn from(_: Failed) -> Halt {
        Halt::WriteFault
    }
}

impl From<OutOfMemory> for Halt {
    ghost from_gives = { λ _ e. e ≡ OutOfMemory };

    fn from(_: OutOfMemory) -> Halt {
        Halt::OutOfMemory
    }
}
