ghost use Rattle.std.specs.Prelude.{◌≡◌};
ghost use Rattle.idl_input.specs.Input.{Reads};
ghost use Rattle.xt_idl.specs.Leading as spec;

use idl_input::{Begins, DefinitionWord, IdlFault, Keyword, Tokens};
use std::alloc::Global;
use xt_annotations::{Placed, Site, first_refused};
use xt_lists::Row;

/// The annotation that comes next, where one that can't be read may give way to an earlier one.
fn next_note(tokens: &mut Tokens<'_>, alloc: Global, before: &[Placed]) -> Result<Placed, IdlFault>
    ensures { Reads (λ x. x) (spec.next_note before.now tokens.old) result tokens.new }
{
    match tokens.note(alloc) {
        Ok(placed) => Ok(placed),
        Err(IdlFault::OutOfMemory) => Err(IdlFault::OutOfMemory),
        Err(fault) => match first_refused(Site::AnyDefinition, before) {
            Some(earlier) => Err(IdlFault::Annotation {
                at: earlier.at,
                rule: earlier.rule,
            }),
            None => Err(fault),
        },
    }
}

#[tactic(auto, using(crate::proofs::TextLoops::leading_go, crate::proofs::TextLoops::leading_end), unfolding(crate::specs::Leading::leading))]
fn leading(tokens: &mut Tokens<'_>, alloc: Global) -> Result<Row<Placed>, IdlFault>
    ensures { Reads (λ x. x) (spec.leading tokens.old) result tokens.new }
{
    let mut before = Row::new(alloc);
    for _turn in 0..tokens.left() {
        if !tokens.sees(b"@") {
            return Ok(before);
        }
        let placed = next_note(tokens, alloc, before.as_slice())?;
        before.push(placed)?;
    }
    Ok(before)
}

#[tactic(auto, using(crate::proofs::Beginnings::site_begins))]
fn site_of(keyword: Option<Keyword>) -> Site
    ensures { result ≡ spec.site_of keyword }
{
    match Begins::of(keyword) {
        Begins::Definition(DefinitionWord::Struct) => Site::Structure,
        Begins::Definition(DefinitionWord::Union) => Site::Union,
        Begins::Definition(DefinitionWord::Enum) => Site::Enumeration,
        Begins::Definition(DefinitionWord::Bitmask) => Site::Bitmask,
        Begins::Definition(DefinitionWord::Typedef) => Site::Other,
        Begins::Module => Site::Other,
        Begins::Plain(_)
        | Begins::Collection(_)
        | Begins::Outside
        | Begins::Nothing
        | Begins::NoKeyword => Site::AnyDefinition,
    }
}

/// The annotations before a definition, judged where its keyword is known.
#[tactic(auto, unfolding(crate::specs::Leading::leading_notes))]
pub(crate) fn leading_notes(tokens: &mut Tokens<'_>, alloc: Global) -> Result<Row<Placed>, IdlFault>
    ensures { Reads (λ x. x) (spec.leading_notes tokens.old) result tokens.new }
{
    let notes = leading(tokens, alloc)?;
    match first_refused(site_of(tokens.keyword()), notes.as_slice()) {
        Some(refused) => Err(IdlFault::Annotation {
            at: refused.at,
            rule: refused.rule,
        }),
        None => Ok(notes),
    }
}
