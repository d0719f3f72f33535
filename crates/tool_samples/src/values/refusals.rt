ghost use Rattle.std.specs.Prelude.{◌≡◌, ◌++◌, IfOk, codes};
ghost use Rattle.json_values.specs.Words.{rule_text};
ghost use Rattle.type_trees.specs.Paths.{path_text};
ghost use Rattle.tool_runs.specs.output.Runs.{Refuses};
ghost use Rattle.tool_samples.specs.lines.Lines.{json_refusal};
ghost use Rattle.tool_samples.specs.values.Values.{ValueStops};

use dynamic_data::{JsonRule, ValueFault};
use std::alloc::Global;
use tool_runs::output::{Cause, Halt, Refused, Stop};
use type_trees::Path;
use xt_lists::{OutOfMemory, Text};

fn json_line(alloc: Global, number: u32, what: &[u8]) -> Result<Text, OutOfMemory>
    ensures { IfOk result (λ text. text ≡ (json_refusal number what.now).text) }
{
    let front = format!(in alloc; "json {number} ")?;
    let mut text = Text::from_octets(alloc, front.as_bytes())?;
    text.append(what)?;
    Ok(text)
}

/// The refusal of the text of the record of this number.
pub fn refuse_json(alloc: Global, number: u32, what: &[u8]) -> Stop
    ensures { Refuses (json_refusal number what.now) result }
{
    match json_line(alloc, number, what) {
        Ok(text) => Stop::Refused(Refused {
            text,
            cause: Cause::Json,
        }),
        Err(_) => Stop::Halted(Halt::OutOfMemory),
    }
}

fn rule_line(alloc: Global, path: &Path, rule: JsonRule) -> Result<Text, OutOfMemory>
    ensures { IfOk result (λ text. text ≡ rule_text rule ++ codes " " ++ path_text path.now) }
{
    let text = format!(in alloc; "{rule} {path}")?;
    Text::from_octets(alloc, text.as_bytes())
}

fn refuse_rule(alloc: Global, number: u32, path: &Path, rule: JsonRule) -> Stop
    ensures { Refuses (json_refusal number (rule_text rule ++ codes " " ++ path_text path.now)) result }
{
    match rule_line(alloc, path, rule) {
        Ok(what) => refuse_json(alloc, number, what.octets()),
        Err(_) => Stop::Halted(Halt::OutOfMemory),
    }
}

/// The refusal of a text that is no value of the type.
pub fn refuse_value(alloc: Global, number: u32, fault: ValueFault) -> Stop
    ensures { ValueStops number fault result }
{
    match fault {
        ValueFault::NotJson => refuse_json(alloc, number, b"syntax"),
        ValueFault::Wrong { path, rule } => refuse_rule(alloc, number, &path, rule),
        ValueFault::OutOfMemory => Stop::Halted(Halt::OutOfMemory),
    }
}
