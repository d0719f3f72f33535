ghost use Rattle.std.specs.Prelude.{◌≡◌, [], ◌∷◌, OnOk, false};

use crate::versions::changes::{Change, breaks, finding_line};
use std::alloc::Global;
use xt_lists::{OutOfMemory, Text};

/// The lines of findings, and whether one of them breaks something.
#[derive(Debug, Drop)]
pub struct Report {
    pub text: Text,
    pub breaks: bool,
}

impl Report {
    ghost use Rattle.tool_verdicts.specs.Reports.{Reports, change_view};

    /// A report of nothing. It takes no memory.
    pub fn new(alloc: Global) -> Report
        ensures text { result.text ≡ [] }
        ensures breaks { result.breaks ≡ false }
    {
        Report {
            text: Text::new(alloc),
            breaks: false,
        }
    }

    /// One finding more: in the version of this number, of the type of this name.
    pub(crate) fn push(
        &mut self,
        alloc: Global,
        number: u32,
        name: &[u8],
        change: &Change,
    ) -> Result<(), OutOfMemory>
        ensures { OnOk result (Reports self.old self.new (record { number = number; name = name.now; change = change_view change.now } ∷ [])) }
    {
        let line = finding_line(alloc, number, name, change)?;
        self.text.append(line.octets())?;
        self.breaks = self.breaks || breaks(change);
        Ok(())
    }
}
