ghost use Rattle.std.specs.Prelude.{◌≡◌, ◌++◌, IfOk, codes};
ghost use Rattle.tool_runs.specs.output.Runs.{Refuses};
ghost use Rattle.tool_types.specs.Types.{types_refusal};
ghost use Rattle.tool_types.specs.names.Names as spec;
ghost use Rattle.tool_types.specs.names.Meanings.{WalkStops};

use crate::refuse_types;
use object_walks::ResolveFault;
use std::alloc::Global;
use tool_runs::output::{Cause, Halt, Refused, Stop};
use type_trees::HashId;
use xt_lists::{OutOfMemory, Text};

// A word behind what is said of it.
fn word_line(alloc: Global, said: &[u8], word: &[u8]) -> Result<Text, OutOfMemory>
    ensures { IfOk result (λ text. text ≡ said.now ++ word.now) }
{
    let mut text = Text::from_octets(alloc, said)?;
    text.append(word)?;
    Ok(text)
}

/// The refusal of a word that names nothing.
pub fn refuse_name(alloc: Global, word: &[u8]) -> Stop
    ensures { Refuses (spec.name_refusal word.now) result }
{
    match word_line(alloc, b"name ", word) {
        Ok(text) => Stop::Refused(Refused {
            text,
            cause: Cause::NoName,
        }),
        Err(_) => Stop::Halted(Halt::OutOfMemory),
    }
}

/// The refusal of a word whose type is no structure and no union.
#[tactic(auto, using(crate::proofs::Declares::said_stops))]
pub fn refuse_top(alloc: Global, word: &[u8]) -> Stop
    ensures { Refuses (types_refusal (codes "top " ++ word.now)) result }
{
    refuse_types(word_line(alloc, b"top ", word))
}

fn missing_line(alloc: Global, id: &HashId) -> Result<Text, OutOfMemory>
    ensures { IfOk result (λ text. text ≡ spec.missing_text id.now) }
{
    let text = format!(in alloc; "resolve missing {id}")?;
    Text::from_octets(alloc, text.as_bytes())
}

fn recursive_line(alloc: Global, id: &HashId) -> Result<Text, OutOfMemory>
    ensures { IfOk result (λ text. text ≡ spec.recursive_text id.now) }
{
    let text = format!(in alloc; "resolve recursive {id}")?;
    Text::from_octets(alloc, text.as_bytes())
}

fn invalid_line(alloc: Global, id: &HashId, rule: u8) -> Result<Text, OutOfMemory>
    ensures { IfOk result (λ text. text ≡ spec.invalid_text id.now rule) }
{
    let text = format!(in alloc; "resolve V{rule} {id}")?;
    Text::from_octets(alloc, text.as_bytes())
}

/// The refusal of an identifier that has no type.
#[tactic(auto, using(crate::proofs::Declares::said_stops))]
pub fn refuse_walk(alloc: Global, fault: ResolveFault) -> Stop
    ensures { WalkStops fault result }
{
    match fault {
        ResolveFault::Missing(id) => refuse_types(missing_line(alloc, &id)),
        ResolveFault::Recursive(id) => refuse_types(recursive_line(alloc, &id)),
        ResolveFault::Invalid { id, fault } => refuse_types(invalid_line(alloc, &id, fault.rule)),
        ResolveFault::OutOfMemory => Stop::Halted(Halt::OutOfMemory),
    }
}
