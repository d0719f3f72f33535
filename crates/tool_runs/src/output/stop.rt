// Why a command goes no further.
ghost use Rattle.std.specs.Prelude.{◌≡◌};
ghost use Rattle.tool_runs.specs.declared.output.halt.Halt.TheVariants.{OutOfMemory as NoMemory};
ghost use Rattle.tool_runs.specs.declared.output.stop.Stop.TheVariants.{Halted};

use crate::output::ending::Cause;
use crate::output::halt::Halt;
use xt_lists::{OutOfMemory, Text};

/// A command is refused: the words of its last line, which is still to be written, and why.
#[derive(Debug, Drop)]
pub struct Refused {
    pub text: Text,
    pub cause: Cause,
}

/// A refusal, or a halt.
#[derive(Debug, Drop)]
pub enum Stop {
    Refused(Refused),
    Halted(Halt),
}

impl From<OutOfMemory> for Stop {
    ghost from_gives = { λ _ e. e ≡ Halted NoMemory };

    fn from(_: OutOfMemory) -> Stop {
        Stop::Halted(Halt::OutOfMemory)
    }
}

impl From<Halt> for Stop {
    ghost from_gives = { λ halt e. e ≡ Halted halt };

    fn from(halt: Halt) -> Stop {
        Stop::Halted(halt)
    }
}
