//! What the command says.
ghost use Rattle.std.specs.Prelude.{◌≡◌, [], ◌∷◌, Some, IfOk, map};
ghost use Rattle.type_object.specs.Names.{hash_of};
ghost use Rattle.type_registry.specs.Held.{IsNamed, held};
ghost use Rattle.type_registry.specs.Passed.{IsFull};
ghost use Rattle.tool_runs.specs.output.Outputs.{Output, after_pieces, refused};
ghost use Rattle.tool_runs.specs.output.Runs.{Ends, HaltsWriting, Steps, StopsWriting};
ghost use Rattle.tool_nets.specs.Nets.{EndsIn};
ghost use Rattle.tool_nets.specs.serving.Lines as spec;
ghost use Rattle.tool_nets.specs.serving.Seats.{IsSaid};

use crate::end_failed;
use std::alloc::Global;
use tool_runs::output::{Cause, Ending, Halt, Refused, Stop, Style, last, say};
use tool_runs::{say_pieces, stopped};
use type_registry::{Finding, Md5Naming, Trail};
use type_trees::HashId;
use xt_io::{NetFault, Sink};
use xt_lists::{OutOfMemory, Text};

fn clash_text(alloc: Global, id: HashId, octets: &[u8]) -> Result<Text, OutOfMemory>
    ensures { IfOk result (λ text. text ≡ spec.clash_text id octets.now) }
{
    let digits = hex::encode(alloc, octets)?;
    let head = format!(in alloc; "registry clash {id} ")?;
    let mut text = Text::from_octets(alloc, head.as_bytes())?;
    text.append(digits.as_bytes())?;
    Ok(text)
}

fn held_line(alloc: Global, id: HashId, octets: &[u8]) -> Result<Text, OutOfMemory>
    ensures { IfOk result (λ text. text ≡ spec.held_line (held id octets.now)) }
{
    let digits = hex::encode(alloc, octets)?;
    let head = format!(in alloc; "held {id} ")?;
    let mut text = Text::from_octets(alloc, head.as_bytes())?;
    text.append(digits.as_bytes())?;
    text.append(b"\n")?;
    Ok(text)
}

fn full_text(alloc: Global, id: HashId) -> Result<Text, OutOfMemory>
    ensures { IfOk result (λ text. text ≡ spec.full_text id) }
{
    let text = format!(in alloc; "registry full {id}")?;
    Text::from_octets(alloc, text.as_bytes())
}

fn sessions_line(alloc: Global, count: u64) -> Result<Text, OutOfMemory>
    ensures { IfOk result (λ text. text ≡ spec.sessions_line count) }
{
    let text = format!(in alloc; "sessions {count}\n")?;
    Text::from_octets(alloc, text.as_bytes())
}

// The last line of a command whose objects the registry refused.
fn refuse<K: Sink>(alloc: Global, text: Text, sink: &mut K) -> Result<Ending, Halt>
    ensures ends { Ends (refused Style.Lines (spec.types_refusal text)) result (K.taken sink.old) (K.taken sink.new) }
    ensures halts { HaltsWriting (K.faults sink.old) (K.faults sink.new) result }
    ensures same { K.name sink.new ≡ K.name sink.old }
{
    let cause = Cause::Types;
    last(alloc, Style::Lines, Refused { text, cause }, sink)
}

/// Ends the command with the object that stands under the identifier of another one.
pub(crate) fn say_clash<K: Sink>(
    alloc: Global,
    finding: &Finding<'_, Md5Naming>,
    sink: &mut K,
) -> Result<Ending, Halt>
    ensures named { IsNamed hash_of (held finding.now.id finding.now.octets) }
    ensures ends { Ends (spec.clash_output finding.now.id finding.now.octets) result (K.taken sink.old) (K.taken sink.new) }
    ensures halts { HaltsWriting (K.faults sink.old) (K.faults sink.new) result }
    ensures same { K.name sink.new ≡ K.name sink.old }
{
    match clash_text(alloc, finding.id(), finding.octets()) {
        Ok(text) => refuse(alloc, text, sink),
        Err(_) => Err(Halt::OutOfMemory),
    }
}

fn say_cell<K: Sink>(alloc: Global, id: HashId, octets: &[u8], sink: &mut K) -> Result<(), Stop>
    ensures steps { (rest : Output) → Steps Style.Lines (Some (after_pieces (spec.held_line (held id octets.now) ∷ []) rest)) (Some rest) result (K.taken sink.old) (K.taken sink.new) }
    ensures stops { StopsWriting (K.faults sink.old) (K.faults sink.new) result }
    ensures same { K.name sink.new ≡ K.name sink.old }
{
    match held_line(alloc, id, octets) {
        Ok(piece) => say_pieces(sink, piece.octets()),
        Err(_) => Err(Stop::Halted(Halt::OutOfMemory)),
    }
}

fn say_cells<K: Sink>(alloc: Global, trail: &Trail<'_, Md5Naming>, sink: &mut K) -> Result<(), Stop>
    ensures full { IsFull hash_of trail.now }
    ensures steps { (rest : Output) → Steps Style.Lines (Some (after_pieces (map spec.held_line trail.now.held) rest)) (Some rest) result (K.taken sink.old) (K.taken sink.new) }
    ensures stops { StopsWriting (K.faults sink.old) (K.faults sink.new) result }
    ensures same { K.name sink.new ≡ K.name sink.old }
{
    for index in 0..trail.len() {
        let seen = trail.at(index);
        match say_cell(alloc, seen.id, seen.octets, sink) {
            Ok(()) => {}
            Err(stop) => return Err(stop),
        }
    }
    Ok(())
}

/// Ends the command with what the probed cells of an identifier hold, which are all full with others.
pub(crate) fn say_full<K: Sink>(
    alloc: Global,
    id: HashId,
    trail: &Trail<'_, Md5Naming>,
    sink: &mut K,
) -> Result<Ending, Halt>
    ensures full { IsFull hash_of trail.now }
    ensures ends { Ends (spec.full_output id trail.now.held) result (K.taken sink.old) (K.taken sink.new) }
    ensures halts { HaltsWriting (K.faults sink.old) (K.faults sink.new) result }
    ensures same { K.name sink.new ≡ K.name sink.old }
{
    match say_cells(alloc, trail, sink) {
        Ok(()) => say_full_end(alloc, id, sink),
        Err(stop) => stopped(alloc, Style::Lines, stop, sink),
    }
}

fn say_full_end<K: Sink>(alloc: Global, id: HashId, sink: &mut K) -> Result<Ending, Halt>
    ensures ends { Ends (refused Style.Lines (spec.types_refusal (spec.full_text id))) result (K.taken sink.old) (K.taken sink.new) }
    ensures halts { HaltsWriting (K.faults sink.old) (K.faults sink.new) result }
    ensures same { K.name sink.new ≡ K.name sink.old }
{
    match full_text(alloc, id) {
        Ok(text) => refuse(alloc, text, sink),
        Err(_) => Err(Halt::OutOfMemory),
    }
}

fn say_sessions<K: Sink>(alloc: Global, count: u64, sink: &mut K) -> Result<Ending, Halt>
    ensures ends { Ends (spec.sessions_of count) result (K.taken sink.old) (K.taken sink.new) }
    ensures halts { HaltsWriting (K.faults sink.old) (K.faults sink.new) result }
    ensures same { K.name sink.new ≡ K.name sink.old }
{
    let Ok(line) = sessions_line(alloc, count) else {
        return Err(Halt::OutOfMemory);
    };
    match say(sink, line.octets()) {
        Ok(()) => Ok(Ending::Done),
        Err(halt) => Err(halt),
    }
}

/// Ends the command with what came of serving: how many sessions were held, or that the net failed.
pub(crate) fn say_served<K: Sink>(
    alloc: Global,
    served: Result<u64, NetFault>,
    sink: &mut K,
) -> Result<Ending, Halt>
    ensures output { EndsIn (IsSaid served) result (K.taken sink.old) (K.taken sink.new) }
    ensures halts { HaltsWriting (K.faults sink.old) (K.faults sink.new) result }
    ensures same { K.name sink.new ≡ K.name sink.old }
{
    match served {
        Ok(count) => say_sessions(alloc, count, sink),
        Err(NetFault::Failed) => end_failed(alloc, Style::Lines, sink),
        Err(NetFault::OutOfMemory) => Err(Halt::OutOfMemory),
    }
}
