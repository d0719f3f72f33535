ghost use Rattle.std.specs.Prelude.{◌≡◌, IfOk};
ghost use Rattle.tool_runs.specs.output.Runs.{Refuses, refusal};
ghost use Rattle.xt_calls.specs.Calls as spec;
ghost use Rattle.xt_calls.specs.Answering.{Tells};

use std::alloc::Global;
use tool_runs::output::{Cause, Halt, Refused, Stop};
use xt_lists::{OutOfMemory, Text};

pub const DONE: u32 = 0;

pub const WORDS: u32 = 2;

pub const MEMORY: u32 = 6;

pub const JSON: u32 = 10;

pub const CLOSED: u32 = 13;

pub const ROOM: u32 = 14;

pub const DISCARDED: u32 = 16;

pub const MUST_UNDERSTAND: u32 = 17;

pub const MALFORMED: u32 = 18;

pub const TOO_LARGE: u32 = 19;

/// A status, and a text or the octets of a sample.
#[derive(Debug, Drop)]
pub struct Answer {
    pub status: u32,
    pub text: Text,
}

/// An answer of these octets.
pub(crate) fn said(alloc: Global, status: u32, octets: &[u8]) -> Result<Answer, OutOfMemory>
    ensures { IfOk result (λ answer. answer ≡ spec.said status octets.now) }
{
    let text = Text::from_octets(alloc, octets)?;
    Ok(Answer { status, text })
}

fn status_of(cause: Cause) -> u32
    ensures { result ≡ spec.status_of cause }
{
    match cause {
        Cause::No => 1,
        Cause::Words => 2,
        Cause::Bundle => 3,
        Cause::Types => 7,
        Cause::NoName => 8,
        Cause::NetFault => 9,
        Cause::Json => 10,
        Cause::Fetch => 11,
        Cause::Limit => 12,
    }
}

/// The refusal of words that name nothing.
pub(crate) fn refuse_words(alloc: Global) -> Stop
    ensures { Refuses spec.words_refusal result }
{
    match Text::from_octets(alloc, b"words") {
        Ok(text) => Stop::Refused(Refused {
            text,
            cause: Cause::Words,
        }),
        Err(_) => Stop::Halted(Halt::OutOfMemory),
    }
}

/// The answer of what is refused.
pub fn answer_of(refused: Refused) -> Answer
    ensures { result ≡ spec.refused (refusal refused) }
{
    Answer {
        status: status_of(refused.cause),
        text: refused.text,
    }
}

/// Hands an answer to a caller's room. Where it doesn't fit nothing is written, and `needed` tells how much room it takes.
pub fn tell(answer: Answer, room: &mut [u8], needed: &mut usize) -> u32
    ensures { Tells answer room.old room.new needed.new result }
{
    let octets = answer.text.octets();
    *needed = octets.len();
    if octets.len() <= room.len() {
        room[..octets.len()].copy_from_slice(octets);
        return answer.status;
    }
    if answer.status == DONE {
        ROOM
    } else {
        answer.status
    }
}

/// Hands nothing over, for this reason.
pub fn nothing(why: u32, needed: &mut usize) -> u32
    ensures reason { result ≡ why }
    ensures needed { needed.new ≡ 0 }
{
    *needed = 0;
    why
}
