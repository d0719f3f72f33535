ghost use Rattle.std.specs.Prelude.{◌≡◌, ◌++◌, IfOk, codes};
ghost use Rattle.type_trees.specs.Ids.{id_text};
ghost use Rattle.tool_runs.specs.output.Runs.{Refuses};
ghost use Rattle.tool_types.specs.Types.{types_refusal};
ghost use Rattle.tool_commands.specs.recordings.Replaying as spec;
ghost use Rattle.tool_commands.specs.recordings.Stopping.{ReplayStops};

use std::alloc::Global;
use tool_runs::output::{Halt, Stop, refuse_bundle};
use tool_types::names::{refuse_top, refuse_walk};
use tool_types::refuse_pool;
use type_trees::HashId;
use xt_io::Item;
use xt_lists::{OutOfMemory, Text};
use xt_recorder::ReplayFault;

fn id_word(alloc: Global, id: &HashId) -> Result<Text, OutOfMemory>
    ensures { IfOk result (λ text. text ≡ codes "#" ++ id_text id.now) }
{
    let word = format!(in alloc; "#{id}")?;
    Text::from_octets(alloc, word.as_bytes())
}

// The refusal of a stream whose type is no structure and no union.
fn refuse_stream(alloc: Global, id: &HashId) -> Stop
    ensures { Refuses (types_refusal (spec.top_text id.now)) result }
{
    match id_word(alloc, id) {
        Ok(word) => refuse_top(alloc, word.octets()),
        Err(_) => Stop::Halted(Halt::OutOfMemory),
    }
}

/// The refusal of the record of this number.
pub fn refuse_replay(alloc: Global, number: u32, item: &Item, fault: ReplayFault) -> Stop
    ensures { ReplayStops number item.now fault result }
{
    match fault {
        ReplayFault::Misplaced => refuse_bundle(alloc, item.at, b"misplaced"),
        ReplayFault::Pool(fault) => refuse_pool(alloc, number, fault),
        ReplayFault::Resolve(fault) => refuse_walk(alloc, fault),
        ReplayFault::Top(id) => refuse_stream(alloc, &id),
        ReplayFault::OutOfMemory => Stop::Halted(Halt::OutOfMemory),
    }
}
