ghost use Rattle.std.specs.Prelude.{◌≡◌};
ghost use Rattle.idl_input.specs.Input.{Reads};
ghost use Rattle.idl_types.specs.Views.{state};
ghost use Rattle.idl_definitions.specs.Structures as spec;
ghost use Rattle.idl_definitions.specs.Views as view;

use idl_input::{IdlFault, Tokens};
use idl_types::{Definition, Reader};
use xt_lists::Text;

/// A type with its name, which stands at a place, and its full name; and whether what it names as base is of the right form.
#[derive(Drop)]
pub struct Made<'a> {
    pub at: u32,
    pub name: &'a [u8],
    pub full: Text,
    pub definition: Definition,
    pub fits: bool,
}

/// The name of a type that the innermost module lacks.
#[derive(Drop)]
pub(crate) struct NewName<'a> {
    pub(crate) at: u32,
    pub(crate) name: &'a [u8],
    pub(crate) full: Text,
}

#[tactic(auto, unfolding(crate::specs::Structures::new_type))]
pub(crate) fn new_type<'a>(
    tokens: &mut Tokens<'a>,
    reader: &Reader<'a>,
) -> Result<NewName<'a>, IdlFault>
    ensures { Reads view.new_name (spec.new_type (state reader.now) tokens.old) result tokens.new }
{
    let at = tokens.place();
    let name = tokens.name()?;
    if reader.meaning(name).is_some() {
        return Err(IdlFault::Twice { at });
    }
    let full = reader.full_name(name)?;
    Ok(NewName { at, name, full })
}

pub(crate) fn defined<'a>(name: NewName<'a>, definition: Definition, fits: bool) -> Made<'a>
    ensures { result ≡ record { at = name.entry.at; name = name.entry.name; full = name.entry.full; definition = definition; fits = fits } }
{
    let NewName { at, name, full } = name;
    Made {
        at,
        name,
        full,
        definition,
        fits,
    }
}
