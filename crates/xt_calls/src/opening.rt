ghost use Rattle.std.specs.Prelude.{◌≡◌, ◌≤◌, IfOk, length};
ghost use Rattle.tool_runs.specs.front.Reading.{AreWithin};
ghost use Rattle.tool_runs.specs.output.Runs.{Comes};
ghost use Rattle.xt_calls.specs.Calls as spec;
ghost use Rattle.xt_calls.specs.Answering.{Unhalted};
ghost use Rattle.xt_calls.specs.Opened.{front};

use crate::types::Types;
use std::alloc::Global;
use tool_runs::close_body;
use tool_runs::front::{Front, read_front};
use tool_runs::output::{Halt, Stop};
use tool_types::declare;
use xt_io::{BundleReader, Item, SureSource};
use xt_lists::Row;

// Octets in memory don't fail, so any halt is want of memory.
fn unhalted(stop: Stop) -> Stop
    ensures { Unhalted stop result }
{
    match stop {
        Stop::Refused(refused) => Stop::Refused(refused),
        Stop::Halted(_) => Stop::Halted(Halt::OutOfMemory),
    }
}

// The records of the front, where nothing but Notes comes behind them.
fn records_of(alloc: Global, octets: &[u8]) -> Result<Row<Item>, Stop>
    ensures comes { Comes (spec.records_of octets.now) (λ records. records) result }
    ensures within { IfOk result AreWithin }
    ensures few { IfOk result (λ records. length records ≤ 1048576) }
{
    let mut reader = BundleReader::new(SureSource::new(octets));
    match read_front(alloc, &mut reader) {
        Err(stop) => Err(unhalted(stop)),
        Ok(Front { records, next }) => {
            let (_reader, closed) = close_body(alloc, next, reader);
            match closed {
                Err(stop) => Err(unhalted(stop)),
                Ok(()) => Ok(records),
            }
        }
    }
}

impl Types {
    /// The types of a bundle, of which nothing but Notes comes behind the front.
    pub fn open(alloc: Global, octets: &[u8]) -> Result<Types, Stop>
        ensures { Comes (spec.types_of octets.now) front result }
    {
        let records = records_of(alloc, octets)?;
        let (declared, pool) = declare(alloc, records.as_slice())?;
        Ok(Types { declared, pool })
    }
}
