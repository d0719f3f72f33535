ghost use Rattle.std.specs.Prelude.{◌≡◌, ◌≤◌, ◌+◌, ℕ, List, [], Option, None, IfErr, IfOk, OnOk, length};
ghost use Rattle.std.specs.Option.{option_map};
ghost use Rattle.std.specs.Io.KnownBytes.{IsAtEnd};
ghost use Rattle.xt_io.specs.Outside.{KeepsTold};
ghost use Rattle.tool_runs.specs.output.Runs.{coming, turns_left, IsReady, MayGo, GoesOn, Steps, Stops, Halts, HaltsReading, StopsReading, StopsBundle, StopsFor, TakesPayload, PassesOther, at_number};
ghost use Rattle.tool_runs.specs.output.Blocks as blocks;
ghost use Rattle.tool_runs.specs.output.Outputs.{same_kind};
ghost use Rattle.tool_runs.specs.declared.output.turns.Next.TheVariants.{Record};
ghost use Rattle.xt_io.specs.Bundles.{limit_of, nothing};

use crate::output::block::{Block, finish};
use crate::output::ending::Style;
use crate::output::halt::Halt;
use crate::output::saying::{refuse_bundle, refuse_fault};
use crate::output::stop::Stop;
use std::alloc::Global;
use xt_io::{BundleReader, Head, Kind, RecordFault, Sink, Source};
use xt_lists::Text;

/// What comes next in a body: the head of a record whose payload is still to be read, the end, or a fault of the octets.
#[derive(Debug, Clone, Copy, PartialEq, Eq)]
pub enum Next {
    Record(Head),
    End,
    Broken(RecordFault),
}

/// What comes next. A payload that wasn't read whole is passed over.
pub fn next_of<S: Source>(reader: &mut BundleReader<S>) -> Result<Next, Halt>
    requires { reader.old.fault ≡ None }
    ensures coming { IfOk result (λ next. KeepsTold reader.old.ahead (coming next reader.new)) }
    ensures ready { IfOk result (λ next. MayGo next reader.new) }
    ensures fewer { IfOk result (λ next. turns_left next reader.new.may_follow ≤ reader.old.may_follow) }
    ensures halts { HaltsReading reader.old.faults reader.new.faults result }
    ensures same { reader.new.name ≡ reader.old.name }
{
    match reader.next_head() {
        Ok(Some(head)) => Ok(Next::Record(head)),
        Ok(None) => Ok(Next::End),
        Err(RecordFault::ReadFault) => Err(Halt::ReadFault),
        Err(RecordFault::OutOfMemory) => Err(Halt::OutOfMemory),
        Err(fault) => Ok(Next::Broken(fault)),
    }
}

/// The stop for a fault of the reader: one of the octets is a refusal, the others halt the run.
pub fn stop_for(alloc: Global, fault: RecordFault) -> Stop
    ensures { StopsFor fault result }
{
    match fault {
        RecordFault::ReadFault => Stop::Halted(Halt::ReadFault),
        RecordFault::OutOfMemory => Stop::Halted(Halt::OutOfMemory),
        RecordFault::Truncated { .. }
        | RecordFault::UnknownKind { .. }
        | RecordFault::TooLong { .. }
        | RecordFault::TooMany { .. } => refuse_fault(alloc, fault),
    }
}

/// Reads the payload of the record whose head the reader just gave, in place of what the text held, whose memory is used again. What it holds
/// after a stop says nothing.
pub fn payload_into<S: Source>(
    alloc: Global,
    head: Head,
    reader: &mut BundleReader<S>,
    payload: &mut Text,
) -> Result<(), Stop>
    requires { IsReady head reader.old }
    ensures takes { TakesPayload head (λ u octets. octets ≡ payload.new) (coming (Record head) reader.old) reader.new.ahead result }
    ensures size { IfOk result (λ _. length payload.new ≤ limit_of head.kind) }
    ensures on { OnOk result (GoesOn reader.old reader.new) }
    ensures cause { IfErr result StopsBundle }
    ensures stops { StopsReading reader.old.faults reader.new.faults result }
    ensures same { reader.new.name ≡ reader.old.name }
{
    match reader.payload_into(payload) {
        Ok(()) => Ok(()),
        Err(fault) => Err(stop_for(alloc, fault)),
    }
}

/// The same, in a text of its own.
pub fn payload_of<S: Source>(
    alloc: Global,
    head: Head,
    reader: &mut BundleReader<S>,
) -> Result<Text, Stop>
    requires { IsReady head reader.old }
    ensures takes { TakesPayload head (λ t octets. octets ≡ t) (coming (Record head) reader.old) reader.new.ahead result }
    ensures size { IfOk result (λ t. length t ≤ limit_of head.kind) }
    ensures on { OnOk result (GoesOn reader.old reader.new) }
    ensures cause { IfErr result StopsBundle }
    ensures stops { StopsReading reader.old.faults reader.new.faults result }
    ensures same { reader.new.name ≡ reader.old.name }
{
    let mut payload = Text::new(alloc);
    match payload_into(alloc, head, reader, &mut payload) {
        Ok(()) => Ok(payload),
        Err(stop) => Err(stop),
    }
}

// Passes over the payload of the record whose head the reader just gave.
fn pass_payload_of<S: Source>(
    alloc: Global,
    head: Head,
    reader: &mut BundleReader<S>,
) -> Result<(), Stop>
    requires { IsReady head reader.old }
    ensures takes { TakesPayload head (λ u octets. Unit {0}) (coming (Record head) reader.old) reader.new.ahead result }
    ensures on { OnOk result (GoesOn reader.old reader.new) }
    ensures cause { IfErr result StopsBundle }
    ensures stops { StopsReading reader.old.faults reader.new.faults result }
    ensures same { reader.new.name ≡ reader.old.name }
{
    match reader.pass_payload() {
        Ok(()) => Ok(()),
        Err(fault) => Err(stop_for(alloc, fault)),
    }
}

/// Whether records of this kind are samples.
pub fn is_sample(kind: Kind) -> bool
    ensures { result ≡ same_kind kind Kind.Sample }
{
    match kind {
        Kind::Sample => true,
        Kind::Object | Kind::Idl | Kind::Json | Kind::Note => false,
    }
}

fn is_note(kind: Kind) -> bool
    ensures { result ≡ same_kind kind Kind.Note }
{
    match kind {
        Kind::Note => true,
        Kind::Object | Kind::Sample | Kind::Idl | Kind::Json => false,
    }
}

/// Passes over the record whose head the reader just gave: a Note is passed over whole, and another record has no place, which is refused
/// once it was passed over whole. No memory goes by the payload's length. It gives the reader back.
pub fn pass_other<S: Source>(
    alloc: Global,
    head: Head,
    reader: BundleReader<S>,
) -> (BundleReader<S>, Result<(), Stop>)
    requires { IsReady head reader }
    ensures passes { PassesOther head (coming (Record head) reader) result.0.ahead result.1 }
    ensures on { OnOk result.1 (GoesOn reader result.0) }
    ensures cause { IfErr result.1 StopsBundle }
    ensures stops { StopsReading reader.faults result.0.faults result.1 }
    ensures same { result.0.name ≡ reader.name }
{
    let mut reader = reader;
    match pass_payload_of(alloc, head, &mut reader) {
        Err(stop) => (reader, Err(stop)),
        Ok(()) => {
            if is_note(head.kind) {
                (reader, Ok(()))
            } else {
                (reader, Err(refuse_bundle(alloc, head.at, b"misplaced")))
            }
        }
    }
}

/// What a command makes of the records of a body: a turn for each.
pub trait Turns {
    ghost use Rattle.std.specs.Prelude.{◌≡◌, ℕ, ◌+◌, Bool, true, false, Some, OnOk};
    ghost use Rattle.std.specs.Option.{option_map};
    ghost use Rattle.xt_io.specs.Bundles.{Bundle, only_fault, before_bundle};
    ghost use Rattle.xt_io.specs.declared.Item.{Item};
    ghost use Rattle.xt_io.specs.declared.Kind.{Kind};
    ghost use Rattle.xt_io.specs.declared.RecordFault.{RecordFault};
    ghost use Rattle.tool_runs.specs.declared.output.ending.Style.{Style};
    ghost use Rattle.tool_runs.specs.declared.output.turns.Next.TheVariants.{Record};
    ghost use Rattle.tool_runs.specs.output.Outputs.{Output, broken, refused, other_output};
    ghost use Rattle.tool_runs.specs.output.Blocks.{held, wanting};
    ghost use Rattle.tool_runs.specs.output.Runs.{coming, IsReady, GoesOn, Steps, Stops};

    /// Whether lines or records are written.
    ghost style: { Style };

    /// The kinds of records that are taken.
    ghost kinds: { Kind → Bool };

    /// What is still to be written where the records from this number on are these.
    ghost to_write: { Self → ℕ → Bundle → Output };

    /// Whether records of this kind are taken.
    fn takes(kind: Kind) -> bool
        ensures { result ≡ kinds kind };

    /// Takes the record of this number, whose head the reader just gave, and gives the reader back. What it comes to goes into the block. A
    /// refusal is not written yet. A payload may be gathered in the text, whose memory is used again for each record; what it holds says nothing.
    fn turn<S: Source>(
        &mut self,
        alloc: Global,
        number: u32,
        head: Head,
        reader: BundleReader<S>,
        gathered: &mut Text,
        block: &mut Block,
    ) -> (BundleReader<S>, Result<(), Stop>)
        requires ready { IsReady head reader }
        requires taken { kinds head.kind ≡ true }
        ensures steps { Steps style (option_map (to_write self.old number) (coming (Record head) reader)) (option_map (to_write self.new (number + 1)) result.0.ahead) result.1 (Some (held block.old)) (Some (held block.new)) }
        ensures on { OnOk result.1 (GoesOn reader result.0) }
        ensures stops { Stops reader.faults result.0.faults (wanting block.old) (wanting block.new) result.1 }
        ensures same { result.0.name ≡ reader.name };

    /// A fault in a record's place ends the command.
    ghost at_fault: { (s : Self) (k : ℕ) (fault : RecordFault) → to_write s k (only_fault fault) ≡ refused style (broken fault) };

    /// Of the other records Notes are passed over, and nothing else has a place.
    ghost at_other: { (s : Self) (k : ℕ) (item : Item) (more : Bundle) → kinds item.kind ≡ false → to_write s k (before_bundle item more) ≡ other_output style item (to_write s (k + 1) more) };
}

// One turn.
fn one_turn<T: Turns, S: Source>(
    alloc: Global,
    turns: &mut T,
    number: u32,
    head: Head,
    reader: BundleReader<S>,
    gathered: &mut Text,
    block: &mut Block,
) -> (BundleReader<S>, Result<(), Stop>)
    requires { IsReady head reader }
    ensures steps { Steps T.style (option_map (T.to_write turns.old number) (coming (Record head) reader)) (option_map (T.to_write turns.new (number + 1)) result.0.ahead) result.1 (Some (blocks.held block.old)) (Some (blocks.held block.new)) }
    ensures on { OnOk result.1 (GoesOn reader result.0) }
    ensures stops { Stops reader.faults result.0.faults (blocks.wanting block.old) (blocks.wanting block.new) result.1 }
    ensures same { result.0.name ≡ reader.name }
{
    if T::takes(head.kind) {
        turns.turn(alloc, number, head, reader, gathered, block)
    } else {
        pass_other(alloc, head, reader)
    }
}

// The halt of a call whose sink is in memory.
fn memory_halt(halt: Halt) -> Halt
    ensures { result ≡ blocks.memory_halt halt }
{
    match halt {
        Halt::ReadFault => Halt::ReadFault,
        Halt::WriteFault | Halt::OutOfMemory => Halt::OutOfMemory,
    }
}

// One turn, whose text goes into the block. It halts where memory is wanting for that.
fn gather_turn<T: Turns, S: Source>(
    alloc: Global,
    turns: &mut T,
    number: u32,
    head: Head,
    reader: BundleReader<S>,
    gathered: &mut Text,
    block: &mut Block,
) -> (BundleReader<S>, Result<(), Stop>)
    requires { IsReady head reader }
    ensures steps { blocks.Gathers T.style (option_map (T.to_write turns.old number) (coming (Record head) reader)) (option_map (T.to_write turns.new (number + 1)) result.0.ahead) result.1 (blocks.held block.old) (blocks.held block.new) }
    ensures on { OnOk result.1 (GoesOn reader result.0) }
    ensures stops { StopsReading reader.faults result.0.faults result.1 }
    ensures same { result.0.name ≡ reader.name }
{
    let (back, turned) = one_turn(alloc, turns, number, head, reader, gathered, block);
    match turned {
        Ok(()) => (back, Ok(())),
        Err(Stop::Refused(refused)) => (back, Err(Stop::Refused(refused))),
        Err(Stop::Halted(halt)) => (back, Err(Stop::Halted(memory_halt(halt)))),
    }
}

// What comes next. What the block holds is handed on first, where it is full, and where the program would wait for the head or for the
// payload behind it: so no line waits with it.
fn next_gathered<S: Source, K: Sink>(
    reader: &mut BundleReader<S>,
    block: &mut Block,
    sink: &mut K,
) -> Result<Next, Halt>
    requires { reader.old.fault ≡ None }
    ensures coming { IfOk result (λ next. KeepsTold reader.old.ahead (coming next reader.new)) }
    ensures ready { IfOk result (λ next. MayGo next reader.new) }
    ensures fewer { IfOk result (λ next. turns_left next reader.new.may_follow ≤ reader.old.may_follow) }
    ensures hands_on { blocks.HandsOn result (K.taken sink.old) (K.taken sink.new) (blocks.held block.old) (blocks.held block.new) }
    ensures halts { Halts reader.old.faults reader.new.faults (K.faults sink.old) (K.faults sink.new) result }
    ensures same_source { reader.new.name ≡ reader.old.name }
    ensures same_sink { K.name sink.new ≡ K.name sink.old }
{
    let may_wait = reader.has_head() && !block.is_full();
    block.hand_on_unless(may_wait, sink)?;
    let next = next_of(reader)?;
    block.hand_on_unless(reader.has_payload(), sink)?;
    Ok(next)
}

/// A turn for each record of a body, from this number on, to the end of the bundle. It gives the reader back. A refusal is not
/// written yet, and nothing that is written at the end.
///
/// What the turns write goes to the sink in blocks: once 65,536 octets have come together, before input is read that isn't at hand, and at the
/// end. The memory of a block is asked for once, and grows to that of the longest text of a record; that of payloads that are gathered is asked for
/// with the first, and grows to that of the longest.
pub fn run_body<T: Turns, S: Source, K: Sink>(
    alloc: Global,
    turns: &mut T,
    number: u32,
    begun: Next,
    reader: BundleReader<S>,
    sink: &mut K,
) -> (BundleReader<S>, Result<u32, Stop>)
    requires ready { MayGo begun reader }
    requires few { number + turns_left begun reader.may_follow ≤ 1048576 }
    ensures steps { Steps T.style (option_map (T.to_write turns.old number) (coming begun reader)) (at_number (λ k. T.to_write turns.new k nothing) result.1) result.1 (K.taken sink.old) (K.taken sink.new) }
    ensures ended { OnOk result.1 (IsAtEnd result.0.left) }
    ensures stops { Stops reader.faults result.0.faults (K.faults sink.old) (K.faults sink.new) result.1 }
    ensures same_source { result.0.name ≡ reader.name }
    ensures same_sink { K.name sink.new ≡ K.name sink.old }
{
    let Ok(empty) = Block::new(alloc) else {
        return (reader, Err(Stop::Halted(Halt::OutOfMemory)));
    };
    let mut block = empty;
    let mut gathered = Text::new(alloc);
    let (back, ran) = gather_body(
        alloc,
        turns,
        number,
        begun,
        reader,
        &mut gathered,
        &mut block,
        sink,
    );
    (back, finish(block, ran, sink))
}

// The same. What the sink took and what the block holds are together what was written.
fn gather_body<T: Turns, S: Source, K: Sink>(
    alloc: Global,
    turns: &mut T,
    number: u32,
    begun: Next,
    reader: BundleReader<S>,
    gathered: &mut Text,
    block: &mut Block,
    sink: &mut K,
) -> (BundleReader<S>, Result<u32, Stop>)
    requires ready { MayGo begun reader }
    requires few { number + turns_left begun reader.may_follow ≤ 1048576 }
    requires empty { blocks.held block.old ≡ [] }
    ensures steps { Steps T.style (option_map (T.to_write turns.old number) (coming begun reader)) (at_number (λ k. T.to_write turns.new k nothing) result.1) result.1 (K.taken sink.old) (blocks.reached (K.taken sink.new) (blocks.held block.new)) }
    ensures grew { blocks.Grew (K.taken sink.old) (K.taken sink.new) }
    ensures ended { OnOk result.1 (IsAtEnd result.0.left) }
    ensures stops { Stops reader.faults result.0.faults (K.faults sink.old) (K.faults sink.new) result.1 }
    ensures same_source { result.0.name ≡ reader.name }
    ensures same_sink { K.name sink.new ≡ K.name sink.old }
{
    let mut reader = reader;
    let mut next = begun;
    let mut at = number;
    'records: loop {
        let head = match next {
            Next::Record(head) => head,
            Next::End => return (reader, Ok(at)),
            Next::Broken(fault) => return (reader, Err(refuse_fault(alloc, fault))),
        };
        let (back, turned) = gather_turn(alloc, turns, at, head, reader, gathered, block);
        reader = back;
        if let Err(stop) = turned {
            return (reader, Err(stop));
        }
        at += 1;
        next = match next_gathered(&mut reader, block, sink) {
            Ok(next) => next,
            Err(halt) => return (reader, Err(Stop::Halted(halt))),
        };
    }
}
