//! How far a comparison of versions has come, and how it ends.
ghost use Rattle.std.specs.Prelude.{◌≡◌, Some};
ghost use Rattle.tool_verdicts.specs.Versions as spec;

use crate::versions::comparing::Version;
use tool_runs::output::{Cause, Ending};

/// The last version so far, and whether something breaks so far.
#[derive(Drop)]
pub struct Progress<'a> {
    pub older: Option<Version<'a>>,
    pub broke: bool,
}

impl<'a> Progress<'a> {
    /// Behind a version: the next is compared with this one.
    pub fn followed(self, newer: Version<'a>, broke: bool) -> Progress<'a>
        ensures older { result.older ≡ Some newer.entry }
        ensures broke { result.broke ≡ broke }
    {
        Progress {
            older: Some(newer),
            broke,
        }
    }
}

/// How a comparison ends: with a No where something breaks.
pub fn ending_of(broke: bool) -> Ending
    ensures { result ≡ spec.ending_of broke }
{
    if broke {
        Ending::Refused(Cause::No)
    } else {
        Ending::Done
    }
}
