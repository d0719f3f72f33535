ghost use Rattle.std.specs.Prelude.{◌≡◌, [], ◌∷◌, ◌++◌, ◌<◌, ◌^◌, length, None, map, OnOk};
ghost use Rattle.idl_tokens.specs.names.Held.{held};
ghost use Rattle.idl_tokens.specs.names.Scopes as spec;

use indexmap::IndexMap;
use std::alloc::Global;
use std::marker::Model;
use xt_lists::OutOfMemory;

/// What a name means in its scope.
#[derive(Debug, Clone, Copy, PartialEq, Eq)]
pub enum Meaning {
    /// The type at this place of the list of types.
    Type(usize),
    /// The module whose scope has this number.
    Module(usize),
}

/// A scope by its number, and a name in it.
#[derive(Clone, Copy, PartialEq, Eq, Hash)]
pub(crate) struct Key<'a> {
    pub(crate) scope: usize,
    pub(crate) name: &'a [u8],
}

/// The names that are declared in the scopes of a text, each with its meaning.
#[derive(Drop)]
pub struct ScopedNames<'a> {
    entries: IndexMap<Key<'a>, Meaning>,
}

impl<'a> Model for ScopedNames<'a> {
    ghost use Rattle.std.specs.Prelude.{map};
    ghost use Rattle.idl_tokens.specs.names.Held.{held};
    ghost use Rattle.idl_tokens.specs.names.Scopes.{Names};

    ghost Value = { Names };

    ghost view = { λ names. map held names.entries.entries };
}

impl<'a> ScopedNames<'a> {
    /// No names. It takes no memory.
    pub fn new(alloc: Global) -> ScopedNames<'a>
        ensures { result ≡ [] }
    {
        ScopedNames {
            entries: IndexMap::new(alloc),
        }
    }

    /// The number of names.
    pub fn len(&self) -> usize
        ensures value { result ≡ length self.now }
        ensures small { result < 2 ^ 63 }
    {
        self.entries.len()
    }

    /// What a name means in a scope; None where it is not declared there. It takes no memory.
    pub fn get(&self, scope: usize, name: &'a [u8]) -> Option<Meaning>
        ensures { result ≡ spec.meaning scope name.now self.now }
    {
        let key = Key { scope, name };
        match self.entries.get(&key) {
            Some(meaning) => Some(*meaning),
            None => None,
        }
    }

    /// Declares a name that is not declared in the scope.
    pub fn add(&mut self, scope: usize, name: &'a [u8], meaning: Meaning) -> Result<(), OutOfMemory>
        requires { spec.meaning scope name.now self.old ≡ None }
        ensures { OnOk result (self.new ≡ self.old ++ ((scope, name.now), meaning) ∷ []) }
    {
        store(&mut self.entries, Key { scope, name }, meaning)
    }

    /// Declares a name, unless it is declared in the scope already.
    pub fn declare(
        &mut self,
        scope: usize,
        name: &'a [u8],
        meaning: Meaning,
    ) -> Result<(), OutOfMemory>
        ensures { OnOk result (self.new ≡ spec.with_name scope name.now meaning self.old) }
    {
        match self.get(scope, name) {
            Some(_) => Ok(()),
            None => self.add(scope, name, meaning),
        }
    }
}

fn store<'a>(
    entries: &mut IndexMap<Key<'a>, Meaning>,
    key: Key<'a>,
    meaning: Meaning,
) -> Result<(), OutOfMemory>
    requires { spec.meaning key.scope key.name.now (map held entries.old.entries) ≡ None }
    ensures { OnOk result (map held entries.new.entries ≡ map held entries.old.entries ++ ((key.entry.scope, key.entry.name.now), meaning) ∷ []) }
{
    entries.insert(key, meaning)?;
    Ok(())
}
