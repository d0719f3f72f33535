ghost use Rattle.std.specs.Prelude.{◌≡◌, ◌≤◌, ◌+◌, Some, length};

use crate::output::block::Block;
use crate::output::stop::Stop;
use crate::output::turns::{Turns, payload_into};
use std::alloc::Global;
use xt_io::{BundleReader, Head, Kind, Sink, Source};
use xt_lists::Text;

/// What a command makes of the records of a body, where it takes the payload of each whole.
pub trait Payloads {
    ghost use Rattle.std.specs.Prelude.{◌≡◌, ◌≤◌, ℕ, ◌+◌, Bool, true, false, Some, length};
    ghost use Rattle.xt_io.specs.Bundles.{Bundle, only_fault, before_bundle, item_of, limit_of};
    ghost use Rattle.xt_io.specs.declared.Item.{Item};
    ghost use Rattle.xt_io.specs.declared.Kind.{Kind};
    ghost use Rattle.xt_io.specs.declared.RecordFault.{RecordFault};
    ghost use Rattle.tool_runs.specs.declared.output.ending.Style.{Style};
    ghost use Rattle.tool_runs.specs.output.Outputs.{Output, broken, refused, other_output};
    ghost use Rattle.tool_runs.specs.output.Runs.{Steps, StopsWriting};

    /// Whether lines or records are written.
    ghost style: { Style };

    /// The kinds of records that are taken.
    ghost kinds: { Kind → Bool };

    /// What is still to be written where the records from this number on are these.
    ghost to_write: { Self → ℕ → Bundle → Output };

    /// Whether records of this kind are taken.
    fn takes(kind: Kind) -> bool
        ensures { result ≡ kinds kind };

    /// Takes the payload of the record of this number that has this head. A refusal is not written yet.
    fn take<K: Sink>(
        &mut self,
        alloc: Global,
        number: u32,
        head: Head,
        payload: &[u8],
        sink: &mut K,
    ) -> Result<(), Stop>
        requires taken { kinds head.kind ≡ true }
        requires size { length payload.now ≤ limit_of head.kind }
        ensures steps { (more : Bundle) → Steps style (Some (to_write self.old number (before_bundle (item_of head payload.now) more))) (Some (to_write self.new (number + 1) more)) result (K.taken sink.old) (K.taken sink.new) }
        ensures stops { StopsWriting (K.faults sink.old) (K.faults sink.new) result }
        ensures same { K.name sink.new ≡ K.name sink.old };

    /// A fault in a record's place ends the command.
    ghost at_fault: { (s : Self) (k : ℕ) (fault : RecordFault) → to_write s k (only_fault fault) ≡ refused style (broken fault) };

    /// Of the other records Notes are passed over, and nothing else has a place.
    ghost at_other: { (s : Self) (k : ℕ) (item : Item) (more : Bundle) → kinds item.kind ≡ false → to_write s k (before_bundle item more) ≡ other_output style item (to_write s (k + 1) more) };
}

impl<T: Payloads> Turns for T {
    ghost style = { T.style };

    ghost kinds = { T.kinds };

    ghost to_write = { λ s k bundle. T.to_write s k bundle };

    fn takes(kind: Kind) -> bool {
        <T as Payloads>::takes(kind)
    }

    fn turn<S: Source>(
        &mut self,
        alloc: Global,
        number: u32,
        head: Head,
        reader: BundleReader<S>,
        gathered: &mut Text,
        block: &mut Block,
    ) -> (BundleReader<S>, Result<(), Stop>) {
        let mut reader = reader;
        match payload_into(alloc, head, &mut reader, gathered) {
            Err(stop) => (reader, Err(stop)),
            Ok(()) => {
                let taken = self.take(alloc, number, head, gathered.octets(), block);
                (reader, taken)
            }
        }
    }

    ghost at_fault = { λ s k fault. T.at_fault s k fault };

    ghost at_other = { λ s k item more other. T.at_other s k item more other };
}
