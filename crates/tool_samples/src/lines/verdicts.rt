ghost use Rattle.std.specs.Prelude.{◌≡◌, IfOk};
ghost use Rattle.tool_samples.specs.lines.Lines as lines;

use std::alloc::Global;
use type_trees::Path;
use xcdr_model::Rule;
use xt_lists::{OutOfMemory, Text};

/// The rule that fails, and its path.
pub fn no_text(alloc: Global, rule: Rule, path: &Path) -> Result<Text, OutOfMemory>
    ensures { IfOk result (λ text. text ≡ lines.no_text rule path.now) }
{
    let text = format!(in alloc; "no {rule} {path}")?;
    Text::from_octets(alloc, text.as_bytes())
}
