ghost use Rattle.std.specs.Prelude.{◌≡◌, ◌≤◌, ◌<◌, length, slice_get, take, map, MatchOption, None, Some, OnOk, IfOk, true, [], ◌∷◌, ◌++◌, ◌+◌, ◌^◌};
ghost use Rattle.std.specs.Option.{option_map};
ghost use Rattle.idl_tokens.specs.names.Scopes.{meaning};
ghost use Rattle.idl_input.specs.Input.{Reads};
ghost use Rattle.idl_types.specs.Names as spec;
ghost use Rattle.idl_types.specs.State as state;
ghost use Rattle.type_rules.specs.Valid.{type_fault};
ghost use Rattle.idl_types.specs.Definitions.{declared, defined, fits};
ghost use Rattle.idl_types.specs.Kept.{all_valid};
ghost use Rattle.idl_types.specs.Uses.{tree_at, tree_or, whole};
ghost use Rattle.idl_types.specs.Views as view;

use crate::declarations::{Declaration, Definition};
use crate::kept::Declarations;
use crate::names::{Scoped, scoped_name};
use crate::opened::Opened;
use crate::places::place_of;
use crate::scopes::Scopes;
use crate::uses::Used;
use idl_input::{IdlFault, Tokens};
use idl_tokens::names::Meaning;
use std::alloc::Global;
use xt_lists::{OutOfMemory, Text};

/// What stands at a place in a text: the types and names that are declared, and the modules that are open.
#[derive(Drop)]
pub struct Reader<'a> {
    alloc: Global,
    types: Declarations,
    scopes: Scopes<'a>,
    fresh: bool,
}

impl<'a> Reader<'a> {
    /// The beginning of a text. It takes no memory.
    pub fn new(alloc: Global) -> Reader<'a>
        ensures { view.state result ≡ state.start }
    {
        Reader {
            alloc,
            types: Declarations::new(alloc),
            scopes: Scopes::new(alloc),
            fresh: false,
        }
    }

    /// The allocator that everything is made with.
    pub fn alloc(&self) -> Global {
        self.alloc
    }

    /// The types, in the order of the text.
    pub fn into_types(self) -> Declarations
        ensures { declared result ≡ (view.state self.entry).types }
    {
        let Reader {
            alloc: _,
            types,
            scopes: _,
            fresh: _,
        } = self;
        types
    }

    /// The declarations, in the order of the text.
    pub fn types(&self) -> &[Declaration]
        ensures same { declared result.now ≡ (view.state self.now).types }
        ensures valid { all_valid (view.state self.now).types ≡ true }
    {
        self.types.as_slice()
    }

    /// How many modules are open.
    pub fn depth(&self) -> usize
        ensures { result ≡ length (view.state self.now).opened }
    {
        self.scopes.opened.len()
    }

    /// Whether a module was just opened.
    pub fn is_fresh(&self) -> bool
        ensures { result ≡ (view.state self.now).fresh }
    {
        self.fresh
    }

    /// The number of the innermost scope.
    pub fn innermost(&self) -> usize
        ensures { result ≡ spec.innermost (view.state self.now).opened }
    {
        self.scopes.innermost()
    }

    /// What a name means in the innermost scope alone.
    pub fn meaning(&self, name: &'a [u8]) -> Option<Meaning>
        ensures { result ≡ meaning (spec.innermost (view.state self.now).opened) name.now (view.state self.now).names }
    {
        self.scopes.names.get(self.innermost(), name)
    }

    /// A name with those of the open modules before it.
    pub fn full_name(&self, name: &[u8]) -> Result<Text, OutOfMemory>
        ensures { IfOk result (λ full. full ≡ spec.full_name (view.state self.now).opened name.now) }
    {
        full_name(self.alloc, self.scopes.opened.as_slice(), name)
    }

    /// Declares a type in the innermost scope.
    #[tactic(auto, using(crate::proofs::NameLoops::types_push, crate::proofs::NameLoops::declared_length))]
    pub fn declare(
        &mut self,
        name: &'a [u8],
        full: Text,
        definition: Definition,
    ) -> Result<(), OutOfMemory>
        requires fits { fits (view.state self.old).types definition ≡ true }
        requires valid { type_fault (defined (view.state self.old).types full definition) ≡ None }
        ensures { OnOk result (view.state self.new ≡ state.with_type (spec.innermost (view.state self.old).opened) name.now full (defined (view.state self.old).types full definition) (view.state self.old)) }
    {
        self.scopes
            .declare(self.alloc, name, self.types.as_slice().len())?;
        self.types.push(Declaration {
            name: full,
            definition,
        })?;
        self.fresh = false;
        Ok(())
    }

    /// Opens a module of the innermost scope again.
    pub fn open_again(&mut self, number: usize, name: &[u8]) -> Result<(), OutOfMemory>
        ensures { OnOk result (view.state self.new ≡ state.with_module number name.now (view.state self.old)) }
    {
        self.scopes.open_again(self.alloc, number, name)?;
        self.fresh = true;
        Ok(())
    }

    /// Opens a module whose name the innermost scope lacks.
    pub fn open(&mut self, name: &'a [u8]) -> Result<(), OutOfMemory>
        requires { meaning (spec.innermost (view.state self.old).opened) name.now (view.state self.old).names ≡ None }
        ensures { OnOk result (view.state self.new ≡ spec.with_new_module name.now (view.state self.old)) }
    {
        self.scopes.open(self.alloc, name)?;
        self.fresh = true;
        Ok(())
    }

    /// Ends the innermost module.
    pub fn close(&mut self)
        ensures { view.state self.new ≡ state.without_module (view.state self.old) }
    {
        self.scopes.close();
        self.fresh = false;
    }

    /// The place of the type that a scoped name means.
    #[tactic(auto, unfolding(crate::specs::Names::meant))]
    pub fn meant(&self, name: &Scoped<'a>) -> Option<usize>
        ensures { option_map (tree_at (view.state self.now).types) result ≡ spec.meant (view.state self.now) (view.scoped_name name.now) }
    {
        let at = place_of(&self.scopes, name)?;
        within(self.types.as_slice(), at)
    }
}

fn full_name(alloc: Global, opened: &[Opened], name: &[u8]) -> Result<Text, OutOfMemory>
    ensures { IfOk result (λ full. full ≡ spec.full_name opened.now name.now) }
{
    let mut full = Text::new(alloc);
    for module in opened {
        full.append(module.name.octets())?;
        full.append(b"::")?;
    }
    full.append(name)?;
    Ok(full)
}

fn at_place(types: &[Declaration], at: usize) -> Option<&Declaration>
    ensures { option_map (λ d. d.now) result ≡ slice_get types.now at }
{
    types.get(at)
}

/// The declaration at a place, where there is one.
#[tactic(auto, using(crate::proofs::DeclaredAt::declared_at, crate::proofs::DeclaredAt::nothing_at, crate::proofs::DeclaredAt::below))]
pub fn declaration_at(types: &[Declaration], at: usize) -> Option<&Declaration>
    ensures { MatchOption result (tree_at (declared types.now) at ≡ tree_or None) (λ d. (at < length types.now) × (tree_at (declared types.now) at ≡ defined (declared (take at types.now)) d.now.name d.now.definition)) }
{
    match at_place(types, at) {
        Some(declaration) => Some(declaration),
        None => None,
    }
}

/// The place, where a type stands there.
#[tactic(auto, using(crate::proofs::NameLoops::declared_length))]
fn within(types: &[Declaration], at: usize) -> Option<usize>
    ensures { option_map (tree_at (declared types.now)) result ≡ spec.type_at (declared types.now) (Some at) }
{
    if at < types.len() { Some(at) } else { None }
}

/// A type by its name.
#[tactic(auto, using(crate::proofs::Wholes::whole_rules), unfolding(crate::specs::Names::type_by_name))]
pub fn type_by_name<'a>(tokens: &mut Tokens<'a>, reader: &Reader<'a>) -> Result<Used, IdlFault>
    ensures { Reads (whole (view.state reader.now).types) (spec.type_by_name (view.state reader.now) tokens.old) result tokens.new }
{
    let at = tokens.place();
    let name = scoped_name(tokens, reader.alloc())?;
    match reader.meant(&name) {
        Some(place) => Ok(Used::Declared(place)),
        None => Err(IdlFault::Unknown { at }),
    }
}
