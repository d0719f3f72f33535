ghost use Rattle.std.specs.Prelude.{◌≡◌, IfSome};
ghost use Rattle.type_trees.specs.Bridge.{name_number};
ghost use Rattle.type_trees.specs.declared.types.Name.TheVariants.{Full};

use indexmap::IndexMap;
use std::alloc::Global;
use type_trees::{Name, name_number};
use xt_lists::OutOfMemory;

/// A name that something is known of: a type's, or a member's.
#[derive(Clone, Copy, PartialEq, Eq, Hash)]
pub(crate) struct Called<'a> {
    pub(crate) name: &'a [u8],
}

/// A name in full, and its hash as a number.
#[derive(Clone, Copy)]
struct Numbered<'a> {
    name: &'a [u8],
    number: u32,
    ghost own: { number ≡ name_number (Full name.now) },
}

/// The hashes of members' names as numbers, each computed once.
#[derive(Drop)]
pub(crate) struct Numbers<'a> {
    numbers: Vec<Numbered<'a>>,
    places: IndexMap<Called<'a>, usize>,
}

/// The hash of the name, where it is this one.
fn number_in(numbered: &Numbered<'_>, name: &[u8]) -> Option<u32>
    ensures { IfSome result (λ number. number ≡ name_number (Full name.now)) }
{
    if numbered.name == name {
        Some(numbered.number)
    } else {
        None
    }
}

impl<'a> Numbers<'a> {
    /// None is known. It takes no memory.
    pub(crate) fn new(alloc: Global) -> Numbers<'a> {
        Numbers {
            numbers: Vec::new(alloc),
            places: IndexMap::new(alloc),
        }
    }

    // The hash of a name in full, where it is known.
    fn known(&self, name: &'a [u8]) -> Option<u32>
        ensures { IfSome result (λ number. number ≡ name_number (Full name.now)) }
    {
        let place = *self.places.get(&Called { name })?;
        let numbered = self.numbers.get(place)?;
        number_in(numbered, name)
    }

    // Keeps a hash in mind, where there is memory for it.
    fn keep(&mut self, name: &'a [u8], number: u32) -> Result<(), OutOfMemory>
        requires { number ≡ name_number (Full name.now) }
    {
        self.places.insert(Called { name }, self.numbers.len())?;
        self.numbers.push(Numbered { name, number })?;
        Ok(())
    }

    /// The hash of a member's name as a number.
    pub(crate) fn number_of(&mut self, name: &'a Name) -> u32
        ensures { result ≡ name_number name.now }
    {
        let Name::Full(text) = name else {
            return name_number(name);
        };
        if let Some(number) = self.known(text.octets()) {
            return number;
        }
        let number = name_number(name);
        let _ = self.keep(text.octets(), number);
        number
    }
}
