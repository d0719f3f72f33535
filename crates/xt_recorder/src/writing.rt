// The beginning of a recording, written.
ghost use Rattle.std.specs.Prelude.{◌≡◌, ◌≤◌, ◌++◌, length, Ok, OnOk, OnErr, IsErrOf};
ghost use Rattle.type_trees.specs.Trees.{Tree};
ghost use Rattle.type_object.specs.Pools.{found};
ghost use Rattle.xt_io.specs.declared.Kind.TheVariants.{Note};
ghost use Rattle.xt_io.specs.Records.{record_octets};
ghost use Rattle.xt_outside.specs.Bundles.{limit_of};
ghost use Rattle.object_walks.specs.Resolving.{resolved};
ghost use Rattle.xt_outside.specs.Outside.{AppendsAll, AppendsPrefix, HasCause, Rose};
ghost use Rattle.xt_recorder.specs.Recordings as spec;
ghost use Rattle.xt_recorder.specs.declared.writing.StreamFault.TheVariants as faults;

use crate::closing::closed;
use crate::streams::{has_hash, stream_text};
use std::alloc::Global;
use type_object::Pool;
use type_trees::HashId;
use xt_io::{Failed, Kind, Sink, write_record};
use xt_shapes::Rep;

/// Why a stream's records were not written.
#[derive(Debug, Clone, Copy, PartialEq, Eq)]
pub enum StreamFault {
    WriteFault,
    OutOfMemory,
}

// Writes an Object record for the identifier, where the pool has its text.
fn write_object<K: Sink>(pool: &Pool, id: &HashId, sink: &mut K) -> Result<(), Failed>
    ensures whole { OnOk result (AppendsAll (K.taken sink.old) (K.taken sink.new) (spec.object_record (found id.now pool.now))) }
    ensures prefix { OnErr result (AppendsPrefix (K.taken sink.old) (K.taken sink.new) (spec.object_record (found id.now pool.now))) }
    ensures same { K.name sink.new ≡ K.name sink.old }
    ensures cause { HasCause (K.faults sink.old) (K.faults sink.new) result }
{
    match pool.octets(id) {
        None => Ok(()),
        Some(text) => write_record(sink, Kind::Object, text),
    }
}

fn write_objects<K: Sink>(pool: &Pool, ids: &[HashId], sink: &mut K) -> Result<(), Failed>
    ensures whole { OnOk result (AppendsAll (K.taken sink.old) (K.taken sink.new) (spec.object_records pool.now ids.now)) }
    ensures prefix { OnErr result (AppendsPrefix (K.taken sink.old) (K.taken sink.new) (spec.object_records pool.now ids.now)) }
    ensures same { K.name sink.new ≡ K.name sink.old }
    ensures cause { HasCause (K.faults sink.old) (K.faults sink.new) result }
{
    for id in ids {
        write_object(pool, id, sink)?;
    }
    Ok(())
}

fn write_opening<K: Sink>(
    pool: &Pool,
    ids: &[HashId],
    note: &[u8],
    sink: &mut K,
) -> Result<(), Failed>
    requires { length note.now ≤ limit_of Note }
    ensures whole { OnOk result (AppendsAll (K.taken sink.old) (K.taken sink.new) (spec.object_records pool.now ids.now ++ record_octets Note note.now)) }
    ensures prefix { OnErr result (AppendsPrefix (K.taken sink.old) (K.taken sink.new) (spec.object_records pool.now ids.now ++ record_octets Note note.now)) }
    ensures same { K.name sink.new ≡ K.name sink.old }
    ensures cause { HasCause (K.faults sink.old) (K.faults sink.new) result }
{
    write_objects(pool, ids, sink)?;
    write_record(sink, Kind::Note, note)
}

/// Writes an Object record for each identifier of `closed`, and the Note of a stream of samples of that type in that representation. A refused
/// call wrote a beginning of them, and is WriteFault only where the sink's count of faults rose.
pub fn write_stream<K: Sink>(
    alloc: Global,
    pool: &Pool,
    id: &HashId,
    rep: Rep,
    sink: &mut K,
) -> Result<(), StreamFault>
    requires { (t : Tree) × (resolved pool.now id.now ≡ Ok t) }
    ensures all { OnOk result (AppendsAll (K.taken sink.old) (K.taken sink.new) (spec.opening pool.now id.now rep)) }
    ensures some { OnErr result (AppendsPrefix (K.taken sink.old) (K.taken sink.new) (spec.opening pool.now id.now rep)) }
    ensures later { K.faults sink.old ≤ K.faults sink.new }
    ensures cause { IsErrOf result faults.WriteFault → Rose (K.faults sink.old) (K.faults sink.new) }
    ensures same { K.name sink.new ≡ K.name sink.old }
{
    has_hash(id);
    let Ok(ids) = closed(alloc, pool, id) else {
        return Err(StreamFault::OutOfMemory);
    };
    let Ok(note) = stream_text(alloc, id, rep) else {
        return Err(StreamFault::OutOfMemory);
    };
    match write_opening(pool, ids.as_slice(), note.octets(), sink) {
        Ok(()) => Ok(()),
        Err(_) => Err(StreamFault::WriteFault),
    }
}
