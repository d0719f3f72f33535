//! A body in which nothing has a place but Notes.
ghost use Rattle.std.specs.Prelude.{◌≡◌, IfErr, OnOk};
ghost use Rattle.std.specs.Option.{option_map};
ghost use Rattle.std.specs.Io.KnownBytes.{IsAtEnd};
ghost use Rattle.tool_runs.specs.output.Runs.{ComesTold, MayGo, StopsBundle, StopsReading, coming};
ghost use Rattle.tool_runs.specs.front.Fronts.{closed};

use crate::output::{Next, Stop, next_of, pass_other, refuse_fault};
use std::alloc::Global;
use xt_io::{BundleReader, Source};

/// Reads the rest of a bundle, in which Notes alone have a place, to its end. It gives the reader back.
pub fn close_body<S: Source>(
    alloc: Global,
    begun: Next,
    reader: BundleReader<S>,
) -> (BundleReader<S>, Result<(), Stop>)
    requires { MayGo begun reader }
    ensures closed { ComesTold (option_map closed (coming begun reader)) (λ u. u) result.1 }
    ensures ended { OnOk result.1 (IsAtEnd result.0.left) }
    ensures cause { IfErr result.1 StopsBundle }
    ensures stops { StopsReading reader.faults result.0.faults result.1 }
    ensures same { result.0.name ≡ reader.name }
{
    let mut reader = reader;
    let mut next = begun;
    'records: loop {
        let head = match next {
            Next::Record(head) => head,
            Next::End => return (reader, Ok(())),
            Next::Broken(fault) => return (reader, Err(refuse_fault(alloc, fault))),
        };
        let (back, passed) = pass_other(alloc, head, reader);
        reader = back;
        if let Err(stop) = passed {
            return (reader, Err(stop));
        }
        next = match next_of(&mut reader) {
            Ok(next) => next,
            Err(halt) => return (reader, Err(Stop::Halted(halt))),
        };
    }
}
