ghost use Rattle.std.specs.Prelude.{◌≡◌, ◌≤◌, ◌++◌, Some, IfOk, OnOk, length, map, slice_get};
ghost use Rattle.std.specs.List.{concat};
ghost use Rattle.idl_types.specs.Definitions.{declared};
ghost use Rattle.idl_printer.specs.Lines.{printed};
ghost use Rattle.tool_runs.specs.output.Outputs.{Output, after_pieces, finished, unless_refused};
ghost use Rattle.tool_runs.specs.output.Runs.{Steps, StopsWriting};
ghost use Rattle.tool_runs.specs.front.Reading.{AreWithin};
ghost use Rattle.tool_runs.specs.Commands.{answer_to, only};
ghost use Rattle.tool_types.specs.Declaring.{AllGood, AreIdentified, IsGood, declared_view};
ghost use Rattle.tool_commands.specs.listing.Listing as spec;

use std::alloc::Global;
use tool_runs::output::{Ending, Halt, Stop, Style};
use tool_runs::{Answers, say_pieces};
use tool_types::{Declared, declare};
use type_resolve::Identifiers;
use type_trees::HashId;
use xt_idl::{Declaration, Declarations, print_declared};
use xt_io::{Item, Sink};
use xt_lists::{OutOfMemory, Text};

/// The types that texts declare, as printed IDL and a line for each with its name and its minimal and complete identifiers; of an object a
/// line with its type's name, or `-`, and its identifier.
#[derive(Debug, Clone, Copy)]
pub struct Showing;

fn name_or_none(name: &Option<Text>) -> &[u8]
    ensures { result.now ≡ spec.name_or_none name.now }
{
    match name {
        Some(text) => text.octets(),
        None => b"-",
    }
}

fn object_text(alloc: Global, id: &HashId, name: &Option<Text>) -> Result<Text, OutOfMemory>
    ensures { IfOk result (λ text. text ≡ spec.object_line id.now name.now) }
{
    let mut text = Text::from_octets(alloc, b"// ")?;
    text.append(name_or_none(name))?;
    let end = format!(in alloc; " {id}\n")?;
    text.append(end.as_bytes())?;
    Ok(text)
}

// A type's line.
fn type_text(alloc: Global, name: &Text, ids: &Identifiers) -> Result<Text, OutOfMemory>
    ensures { IfOk result (λ text. text ≡ spec.named_line name.now ids.now) }
{
    let mut text = Text::from_octets(alloc, b"// ")?;
    text.append(name.octets())?;
    let end = format!(in alloc; " {} {}\n", ids.minimal, ids.complete)?;
    text.append(end.as_bytes())?;
    Ok(text)
}

fn ids_at(ids: &[Identifiers], at: usize) -> Option<Identifiers>
    ensures { result ≡ slice_get ids.now at }
{
    ids.get(at).copied()
}

// The lines of types, beside which their identifiers stand.
fn push_lines(
    alloc: Global,
    types: &[Declaration],
    ids: &[Identifiers],
    text: &mut Text,
) -> Result<(), OutOfMemory>
    ensures { OnOk result (text.new ≡ text.old ++ spec.named_lines (map (λ d. d.name) types.now) ids.now) }
{
    for (at, declaration) in types.iter().enumerate() {
        let Some(own) = ids_at(ids, at) else {
            return Ok(());
        };
        let line = type_text(alloc, &declaration.name, &own)?;
        text.append(line.octets())?;
    }
    Ok(())
}

#[tactic(auto, using(crate::proofs::OfListing::Lines::lines_are))]
fn types_text(alloc: Global, types: &Declarations, ids: &[Identifiers]) -> Result<Text, OutOfMemory>
    requires { AreIdentified (declared types.now) ids.now }
    ensures { IfOk result (λ text. text ≡ printed (declared types.now) ++ concat (map spec.type_line (declared types.now))) }
{
    let mut text = print_declared(alloc, types)?;
    push_lines(alloc, types.as_slice(), ids, &mut text)?;
    Ok(text)
}

fn shown(alloc: Global, declared: &Declared) -> Result<Text, OutOfMemory>
    requires { IsGood declared.now }
    ensures { IfOk result (λ text. text ≡ concat (spec.shown (declared_view declared.now))) }
{
    match declared {
        Declared::Types { types, ids } => types_text(alloc, types, ids.as_slice()),
        Declared::Object { id, name } => object_text(alloc, id, name),
    }
}

fn show_one<K: Sink>(alloc: Global, declared: &Declared, sink: &mut K) -> Result<(), Stop>
    requires { IsGood declared.now }
    ensures steps { (rest : Output) → Steps Style.Lines (Some (after_pieces (spec.shown (declared_view declared.now)) rest)) (Some rest) result (K.taken sink.old) (K.taken sink.new) }
    ensures stops { StopsWriting (K.faults sink.old) (K.faults sink.new) result }
    ensures same { K.name sink.new ≡ K.name sink.old }
{
    match shown(alloc, declared) {
        Ok(text) => say_pieces(sink, text.octets()),
        Err(_) => Err(Stop::Halted(Halt::OutOfMemory)),
    }
}

fn show_all<K: Sink>(alloc: Global, records: &[Declared], sink: &mut K) -> Result<(), Stop>
    requires { AllGood records.now }
    ensures steps { Steps Style.Lines (Some (only (spec.all_shown (map declared_view records.now)))) (Some finished) result (K.taken sink.old) (K.taken sink.new) }
    ensures stops { StopsWriting (K.faults sink.old) (K.faults sink.new) result }
    ensures same { K.name sink.new ≡ K.name sink.old }
{
    for declared in records {
        match show_one(alloc, declared, sink) {
            Ok(()) => {}
            Err(stop) => return Err(stop),
        }
    }
    Ok(())
}

impl Answers for Showing {
    ghost use Rattle.tool_runs.specs.declared.output.ending.Style.TheVariants as styles;
    ghost use Rattle.tool_commands.specs.listing.Listing.{show_lines};

    ghost style = { styles.Lines };

    ghost answered = { λ s records. answer_to show_lines records };

    fn writes() -> Style {
        Style::Lines
    }

    fn answer<K: Sink>(
        &self,
        alloc: Global,
        records: &[Item],
        sink: &mut K,
    ) -> Result<Ending, Stop> {
        let (declared, _) = declare(alloc, records)?;
        show_all(alloc, declared.as_slice(), sink)?;
        Ok(Ending::Done)
    }
}
