ghost use Rattle.std.specs.Prelude.{◌≡◌, ◌≤◌, ◌<◌, ◌+◌, ◌++◌, ◌∷◌, [], length, None, OnOk};
ghost use Rattle.idl_tokens.specs.names.Scopes.{meaning, with_name};
ghost use Rattle.idl_types.specs.State.{outer};
ghost use Rattle.idl_types.specs.Names.{innermost};
ghost use Rattle.idl_types.specs.Inhabited.{TypesUpTo, LeadsUp, AboveFrom};

use crate::opened::Opened;
use idl_tokens::names::{Meaning, ScopedNames};
use std::alloc::Global;
use std::mem;
use xt_lists::{OutOfMemory, Row, Text};

/// The names that are declared, and the modules that are open. Where memory was wanting, the names are forgotten.
#[derive(Drop)]
pub(crate) struct Scopes<'a> {
    pub(crate) names: ScopedNames<'a>,
    pub(crate) opened: Row<Opened>,
    /// No scope of a higher number holds a type, and from such a scope modules lead only to higher numbers.
    highest: usize,
    /// How many of the open modules, from the outermost, may hold types. The others were opened anew since the last type: they have numbers
    /// above `highest`.
    pub(crate) inhabited: usize,
    ghost types: { TypesUpTo highest names },
    ghost leads: { LeadsUp highest names },
    ghost above: { AboveFrom inhabited highest opened },
    ghost within: { inhabited ≤ length opened },
}

impl<'a> Scopes<'a> {
    /// The outermost scope alone, with no names. It takes no memory.
    pub(crate) fn new(alloc: Global) -> Scopes<'a>
        ensures names { result.names ≡ [] }
        ensures opened { result.opened ≡ [] }
    {
        Scopes {
            names: ScopedNames::new(alloc),
            opened: Row::new(alloc),
            highest: 0,
            inhabited: 0,
        }
    }

    /// The number of the innermost scope.
    pub(crate) fn innermost(&self) -> usize
        ensures { result ≡ innermost self.now.opened }
    {
        innermost(self.opened.as_slice())
    }

    /// From here on each open module may hold types.
    fn inhabit(&mut self)
        ensures names { self.new.names ≡ self.old.names }
        ensures opened { self.new.opened ≡ self.old.opened }
        ensures here { innermost self.new.opened ≤ self.new.highest }
        ensures all { self.new.inhabited ≡ length self.new.opened }
    {
        self.highest = self.highest.max(self.innermost());
        self.inhabited = self.opened.len();
    }

    /// The same, unless a module of this number has a higher number than the innermost scope. A new module always has.
    fn inhabit_below(&mut self, number: usize)
        ensures names { self.new.names ≡ self.old.names }
        ensures opened { self.new.opened ≡ self.old.opened }
        ensures leads { self.new.highest < innermost self.new.opened → innermost self.new.opened < number }
    {
        if number <= self.innermost() {
            self.inhabit();
        }
    }

    /// Declares a type in the innermost scope, unless its name is declared there.
    pub(crate) fn declare(
        &mut self,
        alloc: Global,
        name: &'a [u8],
        at: usize,
    ) -> Result<(), OutOfMemory>
        ensures names { OnOk result (self.new.names ≡ with_name (innermost self.old.opened) name.now (Meaning.Type at) self.old.names) }
        ensures opened { OnOk result (self.new.opened ≡ self.old.opened) }
    {
        self.inhabit();
        let scope = self.innermost();
        match self.names.declare(scope, name, Meaning::Type(at)) {
            Ok(()) => Ok(()),
            Err(OutOfMemory) => {
                forget(alloc, &mut self.names);
                Err(OutOfMemory)
            }
        }
    }

    /// Declares a module in the innermost scope.
    fn add_module(
        &mut self,
        alloc: Global,
        name: &'a [u8],
        number: usize,
    ) -> Result<(), OutOfMemory>
        requires { meaning (innermost self.old.opened) name.now self.old.names ≡ None }
        ensures names { OnOk result (self.new.names ≡ self.old.names ++ ((innermost self.old.opened, name.now), Meaning.Module number) ∷ []) }
        ensures opened { self.new.opened ≡ self.old.opened }
    {
        self.inhabit_below(number);
        let scope = self.innermost();
        match self.names.add(scope, name, Meaning::Module(number)) {
            Ok(()) => Ok(()),
            Err(OutOfMemory) => {
                forget(alloc, &mut self.names);
                Err(OutOfMemory)
            }
        }
    }

    /// Opens a module whose name the innermost scope lacks. It holds no types yet, as its number shows.
    pub(crate) fn open(&mut self, alloc: Global, name: &'a [u8]) -> Result<(), OutOfMemory>
        requires { meaning (innermost self.old.opened) name.now self.old.names ≡ None }
        ensures names { OnOk result (self.new.names ≡ self.old.names ++ ((innermost self.old.opened, name.now), Meaning.Module (length self.old.names + 1)) ∷ []) }
        ensures opened { OnOk result (self.new.opened ≡ self.old.opened ++ (record { number = length self.old.names + 1; name = name.now }) ∷ []) }
    {
        let number = self.names.len() + 1;
        self.add_module(alloc, name, number)?;
        let name = Text::from_octets(alloc, name)?;
        self.opened.push(Opened { number, name })?;
        if number <= self.highest {
            self.inhabited = self.opened.len();
        }
        Ok(())
    }

    /// Opens a module of the innermost scope again. It may hold types.
    pub(crate) fn open_again(
        &mut self,
        alloc: Global,
        number: usize,
        name: &[u8],
    ) -> Result<(), OutOfMemory>
        ensures names { self.new.names ≡ self.old.names }
        ensures opened { OnOk result (self.new.opened ≡ self.old.opened ++ (record { number = number; name = name.now }) ∷ []) }
    {
        let name = Text::from_octets(alloc, name)?;
        self.opened.push(Opened { number, name })?;
        self.inhabited = self.opened.len();
        Ok(())
    }

    /// Ends the innermost module.
    #[tactic(auto, using(crate::proofs::NameLoops::outer_is))]
    pub(crate) fn close(&mut self)
        ensures names { self.new.names ≡ self.old.names }
        ensures opened { self.new.opened ≡ outer self.old.opened }
    {
        self.opened.pop();
        self.inhabited = self.inhabited.min(self.opened.len());
    }
}

fn innermost(opened: &[Opened]) -> usize
    ensures { result ≡ innermost opened.now }
{
    match opened {
        [] => 0,
        [.., last] => last.number,
    }
}

/// Forgets all names, where nothing is known of them any more.
fn forget<'a>(alloc: Global, names: &mut ScopedNames<'a>)
    ensures { names.new ≡ [] }
{
    drop(mem::replace(names, ScopedNames::new(alloc)));
}
