ghost use Rattle.std.specs.Prelude.{◌≡◌, OnOk, IfOk};
ghost use Rattle.idl_definitions.specs.LiteralNames as spec;
ghost use Rattle.idl_definitions.specs.Unions.{value_named};

use idl_tokens::names::{Meaning, ScopedNames};
use std::alloc::Global;
use std::marker::Model;
use type_trees::{Literal, Name};
use xt_lists::OutOfMemory;

/// The literals of an enumeration, found by their names: each name leads to the place of the first literal that has it.
#[derive(Drop)]
pub(crate) struct LiteralsByName<'d> {
    literals: &'d [Literal],
    places: ScopedNames<'d>,
}

impl<'d> Model for LiteralsByName<'d> {
    ghost use Rattle.std.specs.Prelude.{List};
    ghost use Rattle.type_trees.specs.declared.types.Literal.{Literal};
    ghost use Rattle.idl_definitions.specs.LiteralNames.{Indexes};

    ghost Value = { List Literal };

    ghost view = { λ named. named.literals.now };

    ghost invariant = { λ named. Indexes named.places named.literals.now };
}

/// Keeps a literal's place under its name, as a type's, unless an earlier literal has the name.
fn add<'d>(places: &mut ScopedNames<'d>, place: usize, name: &'d Name) -> Result<(), OutOfMemory>
    ensures { OnOk result (places.new ≡ spec.with_literal place name.now places.old) }
{
    match name {
        Name::Full(known) => places.declare(0, known.octets(), Meaning::Type(place)),
        Name::Hashed(_) => Ok(()),
    }
}

fn places_of<'d>(alloc: Global, literals: &'d [Literal]) -> Result<ScopedNames<'d>, OutOfMemory>
    ensures { IfOk result (λ places. spec.Indexes places literals.now) }
{
    let mut places = ScopedNames::new(alloc);
    for place in 0..literals.len() {
        add(&mut places, place, &literals[place].name)?;
    }
    Ok(places)
}

impl<'d> LiteralsByName<'d> {
    /// The names lead to the places of these literals. A literal whose name is only a hash isn't found.
    pub(crate) fn new(
        alloc: Global,
        literals: &'d [Literal],
    ) -> Result<LiteralsByName<'d>, OutOfMemory>
        ensures { IfOk result (λ named. named ≡ literals.now) }
    {
        let places = places_of(alloc, literals)?;
        Ok(LiteralsByName { literals, places })
    }

    /// The value of the literal of this name. It takes no memory.
    pub(crate) fn value(&self, name: &'d [u8]) -> Option<i32>
        ensures { result ≡ value_named name.now self.now }
    {
        match self.places.get(0, name) {
            Some(Meaning::Type(place)) => Some(self.literals[place].value),
            Some(Meaning::Module(_)) => None,
            None => None,
        }
    }
}
