//! A bundle without a body, and the objects of its types.
ghost use Rattle.std.specs.Prelude.{◌≡◌, ◌≤◌, None, IfErr, OnOk};
ghost use Rattle.std.specs.Option.{option_map};
ghost use Rattle.std.specs.Io.KnownBytes.{IsAtEnd};
ghost use Rattle.xt_io.specs.Bundles.{bundle};
ghost use Rattle.tool_runs.specs.output.Runs.{ComesTold, StopsReading};
ghost use Rattle.tool_nets.specs.Opened.{StopsFront, opened};

use std::alloc::Global;
use tool_runs::close_body;
use tool_runs::front::read_front;
use tool_runs::output::Stop;
use tool_types::declare;
use type_object::Pool;
use xt_io::{BundleReader, Source};

/// Reads a bundle without a body to its end, and gives the objects of its front, each once, in order. It is refused as a bundle is whose
/// front is cut, too long or no record, or that holds more than Notes behind its front, and for the first fault of a type.
pub fn open_pool<S: Source>(alloc: Global, input: &mut S) -> Result<Pool, Stop>
    ensures opened { ComesTold (option_map (λ octets. opened (bundle octets)) (S.left input.old)) (λ pool. pool) result }
    ensures cause { IfErr result StopsFront }
    ensures ended { OnOk result (IsAtEnd (S.left input.new)) }
    ensures stops { StopsReading (S.faults input.old) (S.faults input.new) result }
{
    let reader = BundleReader::new(input);
    let (back, pool) = objects_of(alloc, reader);
    let _input = back.end();
    pool
}

// The objects of what a reader gives from its beginning on. It gives the reader back.
fn objects_of<S: Source>(
    alloc: Global,
    reader: BundleReader<S>,
) -> (BundleReader<S>, Result<Pool, Stop>)
    requires good { reader.fault ≡ None }
    requires few { reader.may_follow ≤ 1048576 }
    ensures opened { ComesTold (option_map opened reader.ahead) (λ pool. pool) result.1 }
    ensures cause { IfErr result.1 StopsFront }
    ensures ended { OnOk result.1 (IsAtEnd result.0.left) }
    ensures stops { StopsReading reader.faults result.0.faults result.1 }
    ensures same { result.0.name ≡ reader.name }
{
    let mut reader = reader;
    let front = match read_front(alloc, &mut reader) {
        Ok(front) => front,
        Err(stop) => return (reader, Err(stop)),
    };
    let (back, closed) = close_body(alloc, front.next, reader);
    if let Err(stop) = closed {
        return (back, Err(stop));
    }
    match declare(alloc, front.records.as_slice()) {
        Ok((_, pool)) => (back, Ok(pool)),
        Err(stop) => (back, Err(stop)),
    }
}
