ghost use Rattle.std.specs.Prelude.{◌≡◌, [], ◌∷◌, Some, None, true, IfSome, IfOk};
ghost use Rattle.type_trees.specs.View.{tree};
ghost use Rattle.type_trees.specs.Bridge.{type_shape};
ghost use Rattle.xt_recorder.specs.Replaying.{reader_of, state_of};
ghost use Rattle.xt_recorder.specs.Replays.{read_in};
ghost use Rattle.xt_io.specs.Bundles.{item_of};
ghost use Rattle.xt_io.specs.declared.Kind.TheVariants.{Sample};
ghost use Rattle.tool_runs.specs.output.Outputs.{Output, after_pieces};
ghost use Rattle.tool_runs.specs.output.Runs.{Steps, StopsWriting};
ghost use Rattle.type_trees.specs.samples.Tops.{is_top};
ghost use Rattle.tool_types.specs.names.Meanings.{IsFound};
ghost use Rattle.std.proofs.Props.{props};
ghost use Rattle.try_construct.proofs.GuideProps.{guide_prop};
ghost use Rattle.tool_samples.specs.Sampling.{IsPrepared};
ghost use Rattle.tool_samples.specs.lines.Lines.{sample_line};
ghost use Rattle.tool_commands.specs.recordings.Replaying.{ReplaysRecord, replay_turn};

use crate::recordings::lines::say_replayed;
use crate::recordings::refusals::refuse_replay;
use std::alloc::Global;
use tool_runs::output::{Halt, Payloads, Stop, Style};
use tool_runs::say_pieces;
use tool_samples::{Prepared, payload_line};
use tool_types::names::NamedType;
use type_object::Pool;
use xt_io::{Head, Item, Kind, Sink};
use xt_lists::{OutOfMemory, Text};
use xt_recorder::Replayer;
use xt_shapes::Rep;

/// What a reader's type makes of recordings: a line for each stream, and one for each sample of those that it is assignable from.
#[derive(Drop)]
pub struct Replays {
    replayer: Replayer,
    prepared: Prepared,
    ghost guided: { IsPrepared (reader_of replayer) prepared } by { Prim.hlevel (props, guide_prop) },
}

// A record with a copy of its payload.
fn item_with(alloc: Global, head: Head, payload: &[u8]) -> Result<Item, OutOfMemory>
    ensures { IfOk result (λ item. item ≡ item_of head payload.now) }
{
    Ok(Item {
        kind: head.kind,
        at: head.at,
        payload: Text::from_octets(alloc, payload)?,
    })
}

impl Replays {
    /// A reader's type, with the objects of a pool, before any record. Plain samples are shown by a plan of the type, if it has one.
    pub fn new(alloc: Global, reader: NamedType, pool: Pool) -> Replays
        requires found { IsFound pool reader }
        requires top { is_top (type_shape reader.ty) ≡ true }
        ensures reader { reader_of result.replayer ≡ tree reader.ty }
        ensures state { state_of result.replayer ≡ record { pool = pool; stream = None } }
    {
        let NamedType { ty, id } = reader;
        let prepared = Prepared::of(alloc, Rep::Xcdr2, &ty);
        Replays {
            replayer: Replayer::by_id(ty, id, pool),
            prepared,
        }
    }

    // The representation of a record of this kind, where it is a sample to be read.
    fn sample_rep(&self, kind: Kind) -> Option<Rep>
        ensures kind { IfSome result (λ rep. kind ≡ Sample) }
        ensures rep { IfSome result (λ rep. read_in (state_of self.now.replayer).stream ≡ Some rep) }
    {
        match kind {
            Kind::Sample => self.replayer.reads_in(),
            Kind::Object | Kind::Idl | Kind::Json | Kind::Note => None,
        }
    }

    // Writes the line of a sample.
    fn say_sample<K: Sink>(
        &self,
        alloc: Global,
        rep: Rep,
        payload: &[u8],
        sink: &mut K,
    ) -> Result<(), Stop>
        ensures steps { (rest : Output) → Steps Style.Lines (Some (after_pieces (sample_line rep (reader_of self.now.replayer) payload.now ∷ []) rest)) (Some rest) result (K.taken sink.old) (K.taken sink.new) }
        ensures stops { StopsWriting (K.faults sink.old) (K.faults sink.new) result }
        ensures same { K.name sink.new ≡ K.name sink.old }
    {
        match payload_line(alloc, rep, self.replayer.reader(), &self.prepared, payload) {
            Ok(line) => say_pieces(sink, line.octets()),
            Err(_) => Err(Stop::Halted(Halt::OutOfMemory)),
        }
    }

    // Writes the lines of the record of this number. A refusal is not written yet.
    fn replay<K: Sink>(
        &mut self,
        alloc: Global,
        number: u32,
        head: Head,
        payload: &[u8],
        sink: &mut K,
    ) -> Result<(), Stop>
        ensures steps { ReplaysRecord (reader_of self.old.replayer) number (item_of head payload.now) (state_of self.old.replayer) (state_of self.new.replayer) result (K.taken sink.old) (K.taken sink.new) }
        ensures reader { reader_of self.new.replayer ≡ reader_of self.old.replayer }
        ensures stops { StopsWriting (K.faults sink.old) (K.faults sink.new) result }
        ensures same { K.name sink.new ≡ K.name sink.old }
    {
        match self.sample_rep(head.kind) {
            Some(rep) => self.say_sample(alloc, rep, payload, sink),
            None => match item_with(alloc, head, payload) {
                Ok(item) => self.take_other(alloc, number, &item, sink),
                Err(_) => Err(Stop::Halted(Halt::OutOfMemory)),
            },
        }
    }

    // The same, of a record that is no sample to be read.
    fn take_other<K: Sink>(
        &mut self,
        alloc: Global,
        number: u32,
        item: &Item,
        sink: &mut K,
    ) -> Result<(), Stop>
        ensures steps { ReplaysRecord (reader_of self.old.replayer) number item.now (state_of self.old.replayer) (state_of self.new.replayer) result (K.taken sink.old) (K.taken sink.new) }
        ensures reader { reader_of self.new.replayer ≡ reader_of self.old.replayer }
        ensures stops { StopsWriting (K.faults sink.old) (K.faults sink.new) result }
        ensures same { K.name sink.new ≡ K.name sink.old }
    {
        match self.replayer.take(alloc, item) {
            Ok(replayed) => say_replayed(alloc, self.replayer.reader(), &replayed, sink),
            Err(fault) => Err(refuse_replay(alloc, number, item, fault)),
        }
    }
}

impl Payloads for Replays {
    ghost use Rattle.tool_runs.specs.declared.output.ending.Style.TheVariants.{Lines};
    ghost use Rattle.std.specs.Prelude.{Bool, ◌+◌, if◌then◌else◌};
    ghost use Rattle.std.proofs.Common.{ap};
    ghost use Rattle.xt_io.specs.Bundles.{before_bundle};
    ghost use Rattle.tool_runs.specs.output.Outputs.{finished, other_output};
    ghost use Rattle.tool_runs.proofs.OfOutput.Turning.{run_at_fault};
    ghost use Rattle.tool_commands.specs.recordings.Replaying.{replayed};

    ghost style = { Lines };

    ghost kinds = { λ kind. true };

    ghost to_write = { λ s k bundle. replayed (reader_of s.replayer) (state_of s.replayer) k bundle };

    fn takes(_kind: Kind) -> bool {
        true
    }

    fn take<K: Sink>(
        &mut self,
        alloc: Global,
        number: u32,
        head: Head,
        payload: &[u8],
        sink: &mut K,
    ) -> Result<(), Stop> {
        self.replay(alloc, number, head, payload, sink)
    }

    ghost at_fault = { λ s k fault. run_at_fault Lines (replay_turn (reader_of s.replayer)) (λ state. finished) (state_of s.replayer) k fault };

    // No kind is left out.
    ghost at_other = { λ s k item more other. ap (λ (taken : Bool). if taken then replayed (reader_of s.replayer) (state_of s.replayer) k (before_bundle item more) else other_output Lines item (replayed (reader_of s.replayer) (state_of s.replayer) (k + 1) more)) other };
}
