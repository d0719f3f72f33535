ghost use Rattle.std.specs.Prelude.{◌≡◌, [], ◌∷◌, ◌++◌, false, OnOk};
ghost use Rattle.idl_tokens.specs.names.Held.{spelled};
ghost use Rattle.idl_tokens.specs.names.Sets as spec;

use indexmap::IndexSet;
use std::alloc::Global;
use std::marker::Model;
use xt_lists::OutOfMemory;

#[derive(Clone, Copy, PartialEq, Eq, Hash)]
pub(crate) struct Word<'a> {
    pub(crate) octets: &'a [u8],
}

/// Names that are taken.
#[derive(Drop)]
pub struct NameSet<'a> {
    names: IndexSet<Word<'a>>,
}

impl<'a> Model for NameSet<'a> {
    ghost use Rattle.std.specs.Prelude.{List, ℕ};
    ghost use Rattle.idl_tokens.specs.names.Held.{spelled};

    ghost Value = { List (List ℕ) };

    ghost view = { λ set. spelled set.names.keys };
}

impl<'a> NameSet<'a> {
    /// No names. It takes no memory.
    pub fn new(alloc: Global) -> NameSet<'a>
        ensures { result ≡ [] }
    {
        NameSet {
            names: IndexSet::new(alloc),
        }
    }

    /// Whether a name is taken. It takes no memory.
    pub fn has(&self, name: &'a [u8]) -> bool
        ensures { result ≡ spec.has name.now self.now }
    {
        self.names.contains(&Word { octets: name })
    }

    /// Takes a name that is free.
    pub fn add(&mut self, name: &'a [u8]) -> Result<(), OutOfMemory>
        requires { spec.has name.now self.old ≡ false }
        ensures { OnOk result (self.new ≡ self.old ++ name.now ∷ []) }
    {
        store(&mut self.names, Word { octets: name })
    }
}

fn store<'a>(names: &mut IndexSet<Word<'a>>, word: Word<'a>) -> Result<(), OutOfMemory>
    requires { spec.has word.octets.now (spelled names.old.keys) ≡ false }
    ensures { OnOk result (spelled names.new.keys ≡ spelled names.old.keys ++ word.entry.octets.now ∷ []) }
{
    names.insert(word)?;
    Ok(())
}
