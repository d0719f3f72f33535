ghost use Rattle.std.specs.Prelude.{◌≡◌, ◌++◌, [], false, OnOk};
ghost use Rattle.idl_printer.specs.Lines as spec;

use xt_lists::{OutOfMemory, Text};

#[tactic(auto, using(crate::proofs::Joins::joins))]
fn opening(part: &[u8], out: &mut Text) -> Result<(), OutOfMemory>
    ensures { OnOk result (out.new ≡ out.old ++ spec.opening_text part.now) }
{
    if part.is_empty() {
        return Ok(());
    }
    out.append(b"module ")?;
    out.append(part)?;
    out.append(b" { ")
}

/// Opens the modules of a full name, the outermost first.
#[tactic(auto, using(crate::proofs::Joins::joins, crate::proofs::NameSteps::opening_steps))]
pub(crate) fn openings(full: &[u8], out: &mut Text) -> Result<(), OutOfMemory>
    ensures { OnOk result (out.new ≡ out.old ++ spec.openings_from [] full.now) }
{
    let mut start = 0;
    for at in 0..full.len() {
        if full[at] == b':' {
            opening(&full[start..at], out)?;
            start = at + 1;
        }
    }
    Ok(())
}

fn ending(is_begun: bool, out: &mut Text) -> Result<(), OutOfMemory>
    ensures { OnOk result (out.new ≡ out.old ++ spec.ending_text is_begun) }
{
    if is_begun { out.append(b" };") } else { Ok(()) }
}

/// Ends the modules of a full name.
#[tactic(auto, using(crate::proofs::Joins::joins))]
pub(crate) fn endings(full: &[u8], out: &mut Text) -> Result<(), OutOfMemory>
    ensures { OnOk result (out.new ≡ out.old ++ spec.endings_from false full.now) }
{
    let mut is_begun = false;
    for octet in full {
        if *octet == b':' {
            ending(is_begun, out)?;
            is_begun = false;
        } else {
            is_begun = true;
        }
    }
    Ok(())
}

/// The last identifier of a full name.
#[tactic(auto, using(crate::proofs::NameSteps::last_steps))]
pub(crate) fn last_name(full: &[u8]) -> &[u8]
    ensures { result.now ≡ spec.last_from [] full.now }
{
    let mut start = 0;
    for at in 0..full.len() {
        if full[at] == b':' {
            start = at + 1;
        }
    }
    &full[start..]
}
