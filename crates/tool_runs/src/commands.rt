//! Commands that read a bundle: with a body, a turn for each of its records; without one, one answer.
ghost use Rattle.std.specs.Prelude.{◌≡◌, ◌≤◌, ◌+◌, ℕ, List, Ok, Some, None, IfSome, OnErr, OnOk, length};
ghost use Rattle.std.specs.List.{concat};
ghost use Rattle.std.specs.Option.{option_map};
ghost use Rattle.std.specs.Io.KnownBytes.{IsAtEnd};
ghost use Rattle.xt_io.specs.Bundles.{bundle, nothing};
ghost use Rattle.tool_runs.specs.output.Outputs.{Output, after_pieces, unless_refused};
ghost use Rattle.tool_runs.specs.output.Runs.{Halts, HaltsWriting, MayGo, Steps, StopsWriting, Writes, coming, turns_left};
ghost use Rattle.tool_runs.specs.front.Fronts.{closed};
ghost use Rattle.tool_runs.specs.front.Reading.{AreWithin};
ghost use Rattle.tool_runs.specs.Leaving.{Leaves, LeavesBody, LeavesNothing};
ghost use Rattle.tool_runs.specs.Commands.{body_behind, command_output, ends_behind, with_body, with_end};
ghost use Rattle.tool_runs.specs.Stopping.{Concludes, StopsSo};

use crate::closing::close_body;
use crate::front::{Front, read_front};
use crate::output::{Ending, Halt, Next, Stop, Style, Turns, last, run_body, say};
use std::alloc::Global;
use xt_io::{BundleReader, Item, Sink, Source};

/// What the records of a front come to before a body: what is written before it, a turn for each of its records, and what is written at its
/// end.
pub trait Prepares {
    ghost use Rattle.std.specs.Prelude.{◌≡◌, ◌≤◌, ℕ, List, Result, Some, length};
    ghost use Rattle.xt_io.specs.declared.Item.{Item};
    ghost use Rattle.xt_io.specs.Bundles.{Bundle, nothing};
    ghost use Rattle.tool_runs.specs.output.Outputs.{Output, Refusal, after_pieces, finished};
    ghost use Rattle.tool_runs.specs.output.Runs.{Comes, Steps, StopsWriting};
    ghost use Rattle.tool_runs.specs.front.Reading.{AreWithin};

    /// The turns.
    type Run: Turns + Drop;

    /// What is written of a body behind these records, or why the command is refused.
    ghost prepared: { Self → List Item → Result (ℕ → Bundle → Output) Refusal };

    /// The pieces before the body.
    ghost opening: { Self.Run → List (List ℕ) };

    /// Whether the turns write lines or records.
    fn style() -> Style
        ensures { result ≡ Self.Run.style };

    /// The turns for the body behind these records. It reads and writes nothing.
    fn prepare(&self, alloc: Global, records: &[Item]) -> Result<Self::Run, Stop>
        requires few { length records.now ≤ 1048576 }
        requires within { AreWithin records.now }
        ensures { Comes (prepared self.now records.now) (λ run number body. after_pieces (opening run) (Self.Run.to_write run number body)) result };

    /// Writes the pieces before the body. A refusal is not written yet.
    fn begin<K: Sink>(run: &Self::Run, alloc: Global, sink: &mut K) -> Result<(), Stop>
        ensures steps { (rest : Output) → Steps Self.Run.style (Some (after_pieces (opening run.now) rest)) (Some rest) result (K.taken sink.old) (K.taken sink.new) }
        ensures stops { StopsWriting (K.faults sink.old) (K.faults sink.new) result }
        ensures same { K.name sink.new ≡ K.name sink.old };

    /// Writes what is left at the end of the input. A refusal is not written yet.
    fn end<K: Sink>(run: &Self::Run, alloc: Global, sink: &mut K) -> Result<(), Stop>
        ensures steps { (number : ℕ) → Steps Self.Run.style (Some (Self.Run.to_write run.now number nothing)) (Some finished) result (K.taken sink.old) (K.taken sink.new) }
        ensures stops { StopsWriting (K.faults sink.old) (K.faults sink.new) result }
        ensures same { K.name sink.new ≡ K.name sink.old };
}

/// What the records of a front are answered with, where nothing follows them.
pub trait Answers {
    ghost use Rattle.std.specs.Prelude.{◌≡◌, ◌≤◌, ℕ, List, Result, Some, length};
    ghost use Rattle.xt_io.specs.declared.Item.{Item};
    ghost use Rattle.tool_runs.specs.declared.output.ending.Style.{Style};
    ghost use Rattle.tool_runs.specs.output.Outputs.{Output, Refusal, unless_refused};
    ghost use Rattle.tool_runs.specs.output.Runs.{Steps, StopsWriting, at_ending};
    ghost use Rattle.tool_runs.specs.front.Reading.{AreWithin};

    /// Whether lines or records are written.
    ghost style: { Style };

    /// What is written for these records, or why the command is refused.
    ghost answered: { Self → List Item → Result Output Refusal };

    /// Whether lines or records are written.
    fn writes() -> Style
        ensures { result ≡ style };

    /// Writes the answer, and tells how the command ends. A refusal is not written yet.
    fn answer<K: Sink>(&self, alloc: Global, records: &[Item], sink: &mut K) -> Result<Ending, Stop>
        requires few { length records.now ≤ 1048576 }
        requires within { AreWithin records.now }
        ensures steps { Steps style (Some (unless_refused style (answered self.now records.now))) (at_ending result) result (K.taken sink.old) (K.taken sink.new) }
        ensures stops { StopsWriting (K.faults sink.old) (K.faults sink.new) result }
        ensures same { K.name sink.new ≡ K.name sink.old };
}

/// Ends a command that stopped: with its last line, where it is refused.
pub fn stopped<K: Sink>(
    alloc: Global,
    style: Style,
    stop: Stop,
    sink: &mut K,
) -> Result<Ending, Halt>
    ensures concludes { Concludes style stop result (K.taken sink.old) (K.taken sink.new) }
    ensures halts { StopsSo stop (K.faults sink.old) (K.faults sink.new) result }
    ensures same { K.name sink.new ≡ K.name sink.old }
{
    match stop {
        Stop::Refused(refused) => last(alloc, style, refused, sink),
        Stop::Halted(halt) => Err(halt),
    }
}

/// Writes the text that some pieces are, before what else is to be written.
pub fn say_pieces<K: Sink>(sink: &mut K, text: &[u8]) -> Result<(), Stop>
    ensures steps { (style : Style) (pieces : List (List ℕ)) (rest : Output) → text.now ≡ concat pieces → Steps style (Some (after_pieces pieces rest)) (Some rest) result (K.taken sink.old) (K.taken sink.new) }
    ensures stops { StopsWriting (K.faults sink.old) (K.faults sink.new) result }
    ensures same { K.name sink.new ≡ K.name sink.old }
{
    match say(sink, text) {
        Ok(()) => Ok(()),
        Err(halt) => Err(Stop::Halted(halt)),
    }
}

/// A command with a body, on the bundle that the input is: its front, and a turn for each record behind it.
pub fn body_command<P: Prepares, S: Source, K: Sink>(
    alloc: Global,
    command: &P,
    input: &mut S,
    output: &mut K,
) -> Result<Ending, Halt>
    ensures output { Writes (option_map (λ octets. command_output P.Run.style (body_behind (P.prepared command.now)) (bundle octets)) (S.left input.old)) result (K.taken output.old) (K.taken output.new) }

    // A run that is done read its input to the end.
    ensures ended { result ≡ Ok Ending.Done → IsAtEnd (S.left input.new) }

    // Where the records of its front are refused, what is left begins with the payload of the body's first record.
    ensures leaves { OnOk result (Leaves (LeavesBody (P.prepared command.now)) (option_map bundle (S.left input.old)) (S.left input.new)) }
    ensures halts { Halts (S.faults input.old) (S.faults input.new) (K.faults output.old) (K.faults output.new) result }
    ensures same { K.name output.new ≡ K.name output.old }
{
    let reader = BundleReader::new(input);
    let (back, ended) = after_front(alloc, command, reader, output);
    let _input = back.end();
    ended
}

// The front, and the body behind it.
fn after_front<P: Prepares, S: Source, K: Sink>(
    alloc: Global,
    command: &P,
    reader: BundleReader<S>,
    sink: &mut K,
) -> (BundleReader<S>, Result<Ending, Halt>)
    requires good { reader.fault ≡ None }
    requires few { reader.may_follow ≤ 1048576 }
    ensures output { Writes (option_map (command_output P.Run.style (body_behind (P.prepared command.now))) reader.ahead) result.1 (K.taken sink.old) (K.taken sink.new) }
    ensures ended { result.1 ≡ Ok Ending.Done → IsAtEnd result.0.left }
    ensures leaves { OnOk result.1 (Leaves (LeavesBody (P.prepared command.now)) reader.ahead result.0.left) }
    ensures halts { Halts reader.faults result.0.faults (K.faults sink.old) (K.faults sink.new) result.1 }
    ensures same_source { result.0.name ≡ reader.name }
    ensures same_sink { K.name sink.new ≡ K.name sink.old }
{
    let mut reader = reader;
    match read_front(alloc, &mut reader) {
        Err(stop) => (reader, stopped(alloc, P::style(), stop, sink)),
        Ok(front) => take_body(alloc, command, front, reader, sink),
    }
}

// What is written behind a front. Where its records are refused, the reader stays as it is.
fn take_body<P: Prepares, S: Source, K: Sink>(
    alloc: Global,
    command: &P,
    front: Front,
    reader: BundleReader<S>,
    sink: &mut K,
) -> (BundleReader<S>, Result<Ending, Halt>)
    requires ready { MayGo front.next reader }
    requires within { AreWithin front.records }
    requires few { length front.records + turns_left front.next reader.may_follow ≤ 1048576 }
    ensures output { Writes (option_map (λ body. unless_refused P.Run.style (with_body (P.prepared command.now) front.records body)) (coming front.next reader)) result.1 (K.taken sink.old) (K.taken sink.new) }
    ensures ended { result.1 ≡ Ok Ending.Done → IsAtEnd result.0.left }
    ensures leaves { OnErr (P.prepared command.now front.records) (result.0 ≡ reader) }
    ensures halts { Halts reader.faults result.0.faults (K.faults sink.old) (K.faults sink.new) result.1 }
    ensures same_source { result.0.name ≡ reader.name }
    ensures same_sink { K.name sink.new ≡ K.name sink.old }
{
    let Front { records, next } = front;
    match command.prepare(alloc, records.as_slice()) {
        Err(stop) => {
            let ended = stopped(alloc, P::style(), stop, sink);
            (reader, ended)
        }
        Ok(run) => {
            let number = records.len() as u32;
            run_opened::<P, S, K>(alloc, run, number, next, reader, sink)
        }
    }
}

// What is written before the body, and then the body.
fn run_opened<P: Prepares, S: Source, K: Sink>(
    alloc: Global,
    run: P::Run,
    number: u32,
    next: Next,
    reader: BundleReader<S>,
    sink: &mut K,
) -> (BundleReader<S>, Result<Ending, Halt>)
    requires ready { MayGo next reader }
    requires few { number + turns_left next reader.may_follow ≤ 1048576 }
    ensures output { Writes (option_map (λ body. after_pieces (P.opening run) (P.Run.to_write run number body)) (coming next reader)) result.1 (K.taken sink.old) (K.taken sink.new) }
    ensures ended { result.1 ≡ Ok Ending.Done → IsAtEnd result.0.left }
    ensures halts { Halts reader.faults result.0.faults (K.faults sink.old) (K.faults sink.new) result.1 }
    ensures same_source { result.0.name ≡ reader.name }
    ensures same_sink { K.name sink.new ≡ K.name sink.old }
{
    match P::begin(&run, alloc, sink) {
        Err(stop) => (reader, stopped(alloc, P::style(), stop, sink)),
        Ok(()) => run_turns::<P, S, K>(alloc, run, number, next, reader, sink),
    }
}

// The turns of a body, and what is written at its end.
fn run_turns<P: Prepares, S: Source, K: Sink>(
    alloc: Global,
    run: P::Run,
    number: u32,
    next: Next,
    reader: BundleReader<S>,
    sink: &mut K,
) -> (BundleReader<S>, Result<Ending, Halt>)
    requires ready { MayGo next reader }
    requires few { number + turns_left next reader.may_follow ≤ 1048576 }
    ensures output { Writes (option_map (P.Run.to_write run number) (coming next reader)) result.1 (K.taken sink.old) (K.taken sink.new) }
    ensures ended { result.1 ≡ Ok Ending.Done → IsAtEnd result.0.left }
    ensures halts { Halts reader.faults result.0.faults (K.faults sink.old) (K.faults sink.new) result.1 }
    ensures same_source { result.0.name ≡ reader.name }
    ensures same_sink { K.name sink.new ≡ K.name sink.old }
{
    let mut turns = run;
    let (back, ran) = run_body(alloc, &mut turns, number, next, reader, sink);
    match ran {
        Err(stop) => (back, stopped(alloc, P::style(), stop, sink)),
        Ok(_) => (back, end_turns::<P, K>(alloc, &turns, sink)),
    }
}

// What is written at the end of a body.
fn end_turns<P: Prepares, K: Sink>(
    alloc: Global,
    turns: &P::Run,
    sink: &mut K,
) -> Result<Ending, Halt>
    ensures output { (number : ℕ) → Writes (Some (P.Run.to_write turns.now number nothing)) result (K.taken sink.old) (K.taken sink.new) }
    ensures halts { HaltsWriting (K.faults sink.old) (K.faults sink.new) result }
    ensures same { K.name sink.new ≡ K.name sink.old }
{
    match P::end(turns, alloc, sink) {
        Err(stop) => stopped(alloc, P::style(), stop, sink),
        Ok(()) => Ok(Ending::Done),
    }
}

/// A command without a body, on the bundle that the input is: its front, the rest of the input, and the answer.
pub fn answer_command<P: Answers, S: Source, K: Sink>(
    alloc: Global,
    command: &P,
    input: &mut S,
    output: &mut K,
) -> Result<Ending, Halt>
    ensures output { Writes (option_map (λ octets. command_output P.style (ends_behind (P.answered command.now)) (bundle octets)) (S.left input.old)) result (K.taken output.old) (K.taken output.new) }

    // A run that is done read its input to the end.
    ensures ended { result ≡ Ok Ending.Done → IsAtEnd (S.left input.new) }

    // Where nothing behind its front is refused, its answer, also a refusal, comes once all was read.
    ensures leaves { OnOk result (Leaves LeavesNothing (option_map bundle (S.left input.old)) (S.left input.new)) }
    ensures halts { Halts (S.faults input.old) (S.faults input.new) (K.faults output.old) (K.faults output.new) result }
    ensures same { K.name output.new ≡ K.name output.old }
{
    let reader = BundleReader::new(input);
    let (back, ended) = after_front_alone(alloc, command, reader, output);
    let _input = back.end();
    ended
}

// The front, and the answer behind it.
fn after_front_alone<P: Answers, S: Source, K: Sink>(
    alloc: Global,
    command: &P,
    reader: BundleReader<S>,
    sink: &mut K,
) -> (BundleReader<S>, Result<Ending, Halt>)
    requires good { reader.fault ≡ None }
    requires few { reader.may_follow ≤ 1048576 }
    ensures output { Writes (option_map (command_output P.style (ends_behind (P.answered command.now))) reader.ahead) result.1 (K.taken sink.old) (K.taken sink.new) }
    ensures ended { result.1 ≡ Ok Ending.Done → IsAtEnd result.0.left }
    ensures leaves { OnOk result.1 (Leaves LeavesNothing reader.ahead result.0.left) }
    ensures halts { Halts reader.faults result.0.faults (K.faults sink.old) (K.faults sink.new) result.1 }
    ensures same_source { result.0.name ≡ reader.name }
    ensures same_sink { K.name sink.new ≡ K.name sink.old }
{
    let mut reader = reader;
    match read_front(alloc, &mut reader) {
        Err(stop) => (reader, stopped(alloc, P::writes(), stop, sink)),
        Ok(front) => answer_behind(alloc, command, front, reader, sink),
    }
}

// The rest of the input behind a front, and the answer.
fn answer_behind<P: Answers, S: Source, K: Sink>(
    alloc: Global,
    command: &P,
    front: Front,
    reader: BundleReader<S>,
    sink: &mut K,
) -> (BundleReader<S>, Result<Ending, Halt>)
    requires ready { MayGo front.next reader }
    requires within { AreWithin front.records }
    requires few { length front.records + turns_left front.next reader.may_follow ≤ 1048576 }
    ensures output { Writes (option_map (λ body. unless_refused P.style (with_end (P.answered command.now) front.records body)) (coming front.next reader)) result.1 (K.taken sink.old) (K.taken sink.new) }
    ensures ended { result.1 ≡ Ok Ending.Done → IsAtEnd result.0.left }
    ensures leaves { OnOk result.1 (IfSome (coming front.next reader) (λ body. OnOk (closed body) (IsAtEnd result.0.left))) }
    ensures halts { Halts reader.faults result.0.faults (K.faults sink.old) (K.faults sink.new) result.1 }
    ensures same_source { result.0.name ≡ reader.name }
    ensures same_sink { K.name sink.new ≡ K.name sink.old }
{
    let Front { records, next } = front;
    let (back, closed) = close_body(alloc, next, reader);
    match closed {
        Err(stop) => (back, stopped(alloc, P::writes(), stop, sink)),
        Ok(()) => {
            let ended = answer_ended(alloc, command, records.as_slice(), sink);
            (back, ended)
        }
    }
}

// The answer where the input was read to its end.
fn answer_ended<P: Answers, K: Sink>(
    alloc: Global,
    command: &P,
    records: &[Item],
    sink: &mut K,
) -> Result<Ending, Halt>
    requires few { length records.now ≤ 1048576 }
    requires within { AreWithin records.now }
    ensures output { Writes (Some (unless_refused P.style (P.answered command.now records.now))) result (K.taken sink.old) (K.taken sink.new) }
    ensures halts { HaltsWriting (K.faults sink.old) (K.faults sink.new) result }
    ensures same { K.name sink.new ≡ K.name sink.old }
{
    match command.answer(alloc, records, sink) {
        Err(stop) => stopped(alloc, P::writes(), stop, sink),
        Ok(ending) => Ok(ending),
    }
}
