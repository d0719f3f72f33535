ghost use Rattle.std.specs.Prelude.{◌≡◌, IfOk};
ghost use Rattle.tool_runs.specs.output.Runs.{Ends, HaltsWriting};
ghost use Rattle.xt_vectors.specs.Runs.{summary};
ghost use Rattle.tool_commands.specs.Making as spec;

use std::alloc::Global;
use tool_runs::output::{Ending, Halt, say};
use xt_io::Sink;
use xt_lists::{OutOfMemory, Text};
use xt_vectors::{Summary, run};

fn verdicts_text(alloc: Global, summary: &Summary) -> Result<Text, OutOfMemory>
    ensures { IfOk result (λ text. text ≡ spec.verdicts_text summary.now) }
{
    let Summary { pairs, yes, no, .. } = *summary;
    let text = format!(in alloc; "pairs {pairs} yes {yes} no {no}")?;
    Text::from_octets(alloc, text.as_bytes())
}

fn outcomes_text(alloc: Global, summary: &Summary) -> Result<Text, OutOfMemory>
    ensures { IfOk result (λ text. text ≡ spec.outcomes_text summary.now) }
{
    let Summary {
        ok,
        discarded,
        must_understand,
        ..
    } = *summary;
    let text = format!(in alloc;
        " ok {ok} discarded {discarded} must-understand {must_understand}"
    )?;
    Text::from_octets(alloc, text.as_bytes())
}

fn summary_line(alloc: Global, summary: &Summary) -> Result<Text, OutOfMemory>
    ensures { IfOk result (λ text. text ≡ spec.summary_line summary.now) }
{
    let mut line = verdicts_text(alloc, summary)?;
    let outcomes = outcomes_text(alloc, summary)?;
    let digest = hex::encode(alloc, summary.digest)?;
    line.append(outcomes.octets())?;
    line.append(b" md5 ")?;
    line.append(digest.as_bytes())?;
    line.append(b"\n")?;
    Ok(line)
}

fn made_line(alloc: Global, seed: u64, count: u32) -> Result<Text, OutOfMemory>
    ensures { IfOk result (λ text. text ≡ spec.summary_line (summary seed count)) }
{
    let summary = run(alloc, seed, count)?;
    summary_line(alloc, &summary)
}

/// Draws so many pairs of types from a seed, and writes one line of what they came to: how many there were, how many were judged Yes and No,
/// what was read of the samples of each Yes, and the MD5 of all samples. It reads nothing.
#[tactic(auto, using(crate::proofs::Wrapped::only_is_whole, crate::proofs::Wrapped::only_is_cut, crate::proofs::Wrapped::only_is_wanted))]
pub fn make<K: Sink>(alloc: Global, seed: u64, count: u32, output: &mut K) -> Result<Ending, Halt>
    ensures ends { Ends (spec.made seed count) result (K.taken output.old) (K.taken output.new) }
    ensures halts { HaltsWriting (K.faults output.old) (K.faults output.new) result }
    ensures same { K.name output.new ≡ K.name output.old }
{
    let Ok(line) = made_line(alloc, seed, count) else {
        return Err(Halt::OutOfMemory);
    };
    match say(output, line.octets()) {
        Ok(()) => Ok(Ending::Done),
        Err(halt) => Err(halt),
    }
}
