ghost use Rattle.std.specs.Prelude.{◌≡◌, ◌++◌, IfOk};
ghost use Rattle.assignability.specs.Views.{verdict_view};
ghost use Rattle.tool_verdicts.specs.Versions as spec;
ghost use Rattle.tool_verdicts.specs.Reports.{change_view};

use assignability::Verdict;
use std::alloc::Global;
use tool_samples::lines::no_text;
use xt_lists::{OutOfMemory, Text};

/// What becomes of a type from one version to the next.
#[derive(Debug, Drop)]
pub enum Change {
    /// Whether the newer version reads the older's samples.
    Backward(Verdict),
    /// Whether the older version reads the newer's samples.
    Forward(Verdict),
    /// The newer version has no such type.
    Gone,
    /// The older version has no type of the name.
    New,
}

fn verdict_text(alloc: Global, verdict: &Verdict) -> Result<Text, OutOfMemory>
    ensures { IfOk result (λ text. text ≡ spec.verdict_text (verdict_view verdict.now)) }
{
    match verdict {
        Verdict::Yes => Text::from_octets(alloc, b"yes"),
        Verdict::No { rule, path } => no_text(alloc, *rule, path),
    }
}

fn with_verdict(alloc: Global, front: &[u8], verdict: &Verdict) -> Result<Text, OutOfMemory>
    ensures { IfOk result (λ text. text ≡ front.now ++ spec.verdict_text (verdict_view verdict.now)) }
{
    let verdict = verdict_text(alloc, verdict)?;
    let mut text = Text::from_octets(alloc, front)?;
    text.append(verdict.octets())?;
    Ok(text)
}

fn change_text(alloc: Global, change: &Change) -> Result<Text, OutOfMemory>
    ensures { IfOk result (λ text. text ≡ spec.change_text (change_view change.now)) }
{
    match change {
        Change::Backward(verdict) => with_verdict(alloc, b"backward ", verdict),
        Change::Forward(verdict) => with_verdict(alloc, b"forward ", verdict),
        Change::Gone => Text::from_octets(alloc, b"gone"),
        Change::New => Text::from_octets(alloc, b"new"),
    }
}

/// The line of a change, in the version of this number, of the type of this name.
pub(crate) fn finding_line(
    alloc: Global,
    number: u32,
    name: &[u8],
    change: &Change,
) -> Result<Text, OutOfMemory>
    ensures { IfOk result (λ line. line ≡ spec.finding_line (record { number = number; name = name.now; change = change_view change.now })) }
{
    let change = change_text(alloc, change)?;
    let digits = number.to_string(alloc)?;
    let mut line = Text::from_octets(alloc, digits.as_bytes())?;
    line.push(b' ')?;
    line.append(name)?;
    line.push(b' ')?;
    line.append(change.octets())?;
    line.push(b'\n')?;
    Ok(line)
}

fn fails(verdict: &Verdict) -> bool
    ensures { result ≡ spec.fails (verdict_view verdict.now) }
{
    match verdict {
        Verdict::Yes => false,
        Verdict::No { .. } => true,
    }
}

/// Whether somebody stops understanding somebody.
pub(crate) fn breaks(change: &Change) -> bool
    ensures { result ≡ spec.breaks (change_view change.now) }
{
    match change {
        Change::Backward(verdict) | Change::Forward(verdict) => fails(verdict),
        Change::Gone => true,
        Change::New => false,
    }
}
