ghost use Rattle.std.specs.Prelude.{◌≡◌, [], map};
ghost use Rattle.idl_input.specs.Input.{Reads};
ghost use Rattle.idl_types.specs.Names as spec;
ghost use Rattle.idl_types.specs.Views as view;

use idl_input::{IdlFault, Tokens};
use std::alloc::Global;
use xt_lists::Row;

/// A scoped name: modules' names, and the last identifier.
#[derive(Drop)]
pub struct Scoped<'a> {
    /// Whether it begins with `::`.
    pub rooted: bool,
    pub path: Row<&'a [u8]>,
    pub last: &'a [u8],
}

#[tactic(auto, using(crate::proofs::NameLoops::parts_go, crate::proofs::NameLoops::parts_end, std::proofs::lemmas::List::map_push))]
fn parts<'a>(
    tokens: &mut Tokens<'a>,
    alloc: Global,
    rooted: bool,
    first: &'a [u8],
) -> Result<Scoped<'a>, IdlFault>
    ensures { Reads view.scoped_name (spec.parts_from (spec.turns_of tokens.old) rooted [] first.now tokens.old) result tokens.new }
{
    let mut path = Row::new(alloc);
    let mut last = first;
    for _turn in 0..tokens.left() {
        if !tokens.eat(b"::") {
            return Ok(Scoped { rooted, path, last });
        }
        let part = tokens.name()?;
        path.push(last)?;
        last = part;
    }
    Ok(Scoped { rooted, path, last })
}

/// A scoped name.
#[tactic(auto, unfolding(crate::specs::Names::scoped))]
pub fn scoped_name<'a>(tokens: &mut Tokens<'a>, alloc: Global) -> Result<Scoped<'a>, IdlFault>
    ensures { Reads view.scoped_name (spec.scoped tokens.old) result tokens.new }
{
    let rooted = tokens.eat(b"::");
    let first = tokens.name()?;
    parts(tokens, alloc, rooted, first)
}
