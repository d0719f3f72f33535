ghost use Rattle.std.specs.Prelude.{◌≡◌, ◌≤◌, Some, OnOk, OnErr, length};
ghost use Rattle.xt_io.specs.Outside.{AppendsAll, AppendsPrefix};
ghost use Rattle.xt_io.specs.Records.{record_octets};
ghost use Rattle.tool_runs.specs.output.Outputs.{Output, after_pieces};
ghost use Rattle.tool_runs.specs.output.Runs.{HaltsWriting, Steps, StopsWriting};
ghost use Rattle.tool_types.specs.names.Identified.{Resolves};
ghost use Rattle.tool_commands.specs.recordings.Recording as spec;

use std::alloc::Global;
use tool_runs::output::{Halt, Payloads, Stop, Style, is_sample};
use type_object::Pool;
use type_trees::HashId;
use xt_io::{Head, Kind, Sink, write_record};
use xt_recorder::{StreamFault, write_stream};
use xt_shapes::Rep;

/// A stream that is recorded: the identifier of its type, with a pool in which it has one, and its representation.
#[derive(Drop)]
pub struct Recorded {
    pool: Pool,
    id: HashId,
    rep: Rep,
    ghost resolves: { Resolves pool id },
}

impl Recorded {
    pub fn new(pool: Pool, id: HashId, rep: Rep) -> Recorded
        requires { Resolves pool id }
        ensures pool { result.pool ≡ pool }
        ensures id { result.id ≡ id }
        ensures rep { result.rep ≡ rep }
    {
        Recorded { pool, id, rep }
    }

    /// Writes the objects of the type and of all that it refers to, and the Note of the stream.
    pub fn begin<K: Sink>(&self, alloc: Global, sink: &mut K) -> Result<(), Stop>
        ensures steps { (rest : Output) → Steps Style.Records (Some (after_pieces (spec.opening_pieces self.now.pool self.now.id self.now.rep) rest)) (Some rest) result (K.taken sink.old) (K.taken sink.new) }
        ensures stops { StopsWriting (K.faults sink.old) (K.faults sink.new) result }
        ensures same { K.name sink.new ≡ K.name sink.old }
    {
        match write_stream(alloc, &self.pool, &self.id, self.rep, sink) {
            Ok(()) => Ok(()),
            Err(StreamFault::WriteFault) => Err(Stop::Halted(Halt::WriteFault)),
            Err(StreamFault::OutOfMemory) => Err(Stop::Halted(Halt::OutOfMemory)),
        }
    }
}

// Writes the record of a sample as it is.
fn write_sample<K: Sink>(payload: &[u8], sink: &mut K) -> Result<(), Halt>
    requires { length payload.now ≤ 1048576 }
    ensures whole { OnOk result (AppendsAll (K.taken sink.old) (K.taken sink.new) (record_octets Kind.Sample payload.now)) }
    ensures prefix { OnErr result (AppendsPrefix (K.taken sink.old) (K.taken sink.new) (record_octets Kind.Sample payload.now)) }
    ensures halts { HaltsWriting (K.faults sink.old) (K.faults sink.new) result }
    ensures same { K.name sink.new ≡ K.name sink.old }
{
    Ok(write_record(sink, Kind::Sample, payload)?)
}

impl Payloads for Recorded {
    ghost use Rattle.xt_io.specs.declared.Kind.TheVariants.{Sample};
    ghost use Rattle.tool_runs.specs.declared.output.ending.Style.TheVariants.{Records};
    ghost use Rattle.tool_runs.specs.output.Outputs.{taking, finished, same_kind};
    ghost use Rattle.tool_runs.proofs.OfOutput.Turning.{run_at_fault, run_at_other};
    ghost use Rattle.tool_commands.specs.recordings.Recording.{record_turn, samples_recorded};

    ghost style = { Records };

    ghost kinds = { λ kind. same_kind kind Sample };

    ghost to_write = { λ s k bundle. samples_recorded k bundle };

    fn takes(kind: Kind) -> bool {
        is_sample(kind)
    }

    fn take<K: Sink>(
        &mut self,
        _alloc: Global,
        _number: u32,
        _head: Head,
        payload: &[u8],
        sink: &mut K,
    ) -> Result<(), Stop> {
        match write_sample(payload, sink) {
            Ok(()) => Ok(()),
            Err(halt) => Err(Stop::Halted(halt)),
        }
    }

    ghost at_fault = { λ s k fault. run_at_fault Records (taking Sample record_turn) (λ u. finished) tt k fault };

    ghost at_other = { λ s k item more other. run_at_other Records Sample record_turn (λ u. finished) tt k item more other };
}
