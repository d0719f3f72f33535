//! The last line where the net failed.
ghost use Rattle.std.specs.Prelude.{◌≡◌, Ok};
ghost use Rattle.tool_runs.specs.output.Outputs.{refused};
ghost use Rattle.tool_runs.specs.output.Runs.{Ends, HaltsWriting};
ghost use Rattle.tool_nets.specs.Nets.{net_fault};

use std::alloc::Global;
use tool_runs::output::{Cause, Ending, Halt, Refused, Style, last};
use xt_io::Sink;
use xt_lists::Text;

/// Ends a command whose net failed, with its last line.
pub fn end_failed<K: Sink>(alloc: Global, style: Style, sink: &mut K) -> Result<Ending, Halt>
    ensures ends { Ends (refused style net_fault) result (K.taken sink.old) (K.taken sink.new) }
    ensures not_done { result ≡ Ok Ending.Done → ⊥ }
    ensures halts { HaltsWriting (K.faults sink.old) (K.faults sink.new) result }
    ensures same { K.name sink.new ≡ K.name sink.old }
{
    let Ok(text) = Text::from_octets(alloc, b"net-fault") else {
        return Err(Halt::OutOfMemory);
    };
    let cause = Cause::NetFault;
    last(alloc, style, Refused { text, cause }, sink)
}
