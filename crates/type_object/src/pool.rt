ghost use Rattle.std.specs.Prelude.{[], ◌∷◌, ◌++◌, ◌≡◌, ◌<◌, ◌≤◌, ◌&&◌, nat_le, length, None, Some, IfOk, IfErr, IfSome, OnOk, OnErr, map, slice_get, true, Ok};
ghost use Rattle.std.specs.Option.{option_map};
ghost use Rattle.object_formats.specs.Tables.{object_of, text_of, is_well_formed};
ghost use Rattle.object_formats.specs.View as view;
ghost use Rattle.type_object.specs.Entries.{held};
ghost use Rattle.type_object.specs.Faults.{Decides, Refuses, PassesOn, refused_if};
ghost use Rattle.type_object.specs.Names as names;
ghost use Rattle.type_object.specs.Pools as spec;
ghost use Rattle.type_object.specs.Pools.{IsObject, IsPool};

use crate::entry::{Entry, Placed};
use crate::identifiers::named;
use indexmap::IndexMap;
use object_formats::{Fault, ObjectFault, TypeObject, is_well_formed};
use object_reader::read_object;
use std::alloc::Global;
use std::marker::Model;
use thiserror::Error;
use type_trees::HashId;
use xt_lists::{OutOfMemory, Text};

const MOST: usize = 4_096;

/// The most octets of a text.
const LONGEST: usize = 131_072;

/// Objects by their identifiers, at most 4,096, in the order in which they came. A look-up goes by the identifier's hash.
pub struct Pool {
    alloc: Global,
    entries: IndexMap<HashId, Entry>,
}

// By hand, so that it is proved here once, and not in each crate that lets one go.
impl Drop for Pool {
    fn drop(self) {
        let Pool {
            alloc: _,
            entries: _,
        } = self;
    }
}

impl Model for Pool {
    ghost use Rattle.std.specs.Prelude.{map};
    ghost use Rattle.type_object.specs.Entries.{held};
    ghost use Rattle.type_object.specs.Pools.{Texts, IsPool};

    ghost Value = { Texts };

    ghost view = { λ pool. map held pool.entries.entries };

    ghost invariant = { λ pool. IsPool (map held pool.entries.entries) };
}

/// An object that a pool holds.
#[derive(Drop)]
pub struct PoolEntry<'a> {
    pub id: HashId,
    /// The object's text.
    pub octets: &'a [u8],
    pub object: &'a TypeObject,
}

/// Why a text was not added.
#[derive(Debug, Clone, Copy, PartialEq, Eq, Error)]
pub enum PoolFault {
    /// It is no object's; this is the first fault.
    #[error("{0}")]
    Object(Fault),
    /// Another text has its identifier.
    #[error("another text has the identifier {0}")]
    Clash(HashId),
    /// There are 4,096 others.
    #[error("the pool has no room for more objects")]
    Full,
    #[error("memory was wanting")]
    OutOfMemory,
}

impl Pool {
    /// An empty pool. It takes no memory; what is added later is kept in memory of this allocator.
    pub fn new(alloc: Global) -> Pool
        ensures { result ≡ [] }
    {
        Pool {
            alloc,
            entries: IndexMap::new(alloc),
        }
    }

    /// The number of objects, which is at most 4,096. It takes no memory.
    pub fn len(&self) -> usize
        ensures count { result ≡ length self.now }
        ensures pool { IsPool self.now }
    {
        self.entries.len()
    }

    /// The object at this place in the order in which they came. It takes no memory.
    pub fn at(&self, index: usize) -> PoolEntry<'_>
        requires { index < length self.now }
        ensures entry { slice_get self.now index ≡ Some (result.id, result.octets.now) }
        ensures own { result.id ≡ names.named result.octets.now }
        ensures read { object_of result.octets.now ≡ Ok (view.object result.object.now) }
        ensures well_formed { is_well_formed (view.object result.object.now) ≡ true }
    {
        match self.entries.get_index(index) {
            Some((id, entry)) => PoolEntry {
                id: *id,
                octets: entry.octets.octets(),
                object: &entry.object,
            },
            None => unreachable!(),
        }
    }

    /// The object that has this identifier; None where the pool lacks it. It takes no memory.
    pub fn get(&self, id: &HashId) -> Option<&TypeObject>
        ensures found { option_map (λ object. view.object object.now) result ≡ spec.object_at id.now self.now }
        ensures well_formed { IfSome result (λ object. is_well_formed (view.object object.now) ≡ true) }
    {
        match self.entries.get(id) {
            Some(entry) => Some(&entry.object),
            None => None,
        }
    }

    /// The text that has this identifier; None where the pool lacks it. It takes no memory.
    pub fn octets(&self, id: &HashId) -> Option<&[u8]>
        ensures found { option_map (λ octets. octets.now) result ≡ spec.found id.now self.now }
        ensures own { IfSome result (λ octets. id.now ≡ names.named octets.now) }
        ensures read { IfSome result (λ octets. IsObject octets.now) }
    {
        match self.entries.get(id) {
            Some(entry) => Some(entry.octets.octets()),
            None => None,
        }
    }

    /// What becomes of a text under its identifier.
    fn placed(&self, id: &HashId, octets: &[u8]) -> Placed
        ensures { Decides result self.now id.now octets.now }
    {
        match self.octets(id) {
            Some(there) if there == octets => Placed::Present,
            Some(_) => Placed::Clash,
            None if MOST <= self.entries.len() => Placed::Full,
            None => Placed::Free,
        }
    }

    /// Adds the object of a text, and gives its identifier: the kind and the hash of the text. A text that is there already changes
    /// nothing, and is not read again. The faults are tried in the order of `PoolFault`; a refused call changes nothing.
    pub fn add(&mut self, octets: &[u8]) -> Result<HashId, PoolFault>
        ensures ok { IfOk result (λ id. spec.added self.old octets.now ≡ Ok (id, self.new)) }
        ensures own { IfOk result (λ id. id ≡ names.named octets.now) }
        ensures read { OnOk result (IsObject octets.now) }
        ensures err { IfErr result (λ fault. Refuses fault (spec.added self.old octets.now)) }
        ensures unchanged { OnErr result (self.new ≡ self.old) }
    {
        let id = named(octets);
        let placed = self.placed(&id, octets);
        self.add_text(id, placed, octets)
    }

    /// Adds an object that was made, with its text, as `add` adds the text. Where the text is new, there is room for it, the object is well
    /// formed, and the text has at most 131,072 octets, the object is kept as it is: the text isn't read, since it would be read as that
    /// object. The faults are those of `add`; a refused call changes nothing.
    pub fn add_made(&mut self, object: TypeObject, text: Text) -> Result<HashId, PoolFault>
        requires { text ≡ text_of (view.object object) }
        ensures ok { IfOk result (λ id. spec.added self.old text ≡ Ok (id, self.new)) }
        ensures own { IfOk result (λ id. id ≡ names.named text) }
        ensures read { OnOk result (IsObject text) }
        ensures err { IfErr result (λ fault. Refuses fault (spec.added self.old text)) }
        ensures unchanged { OnErr result (self.new ≡ self.old) }
    {
        let octets = text.octets();
        let id = named(octets);
        match self.placed(&id, octets) {
            Placed::Free if is_read_again(&object, octets) => self.insert(id, text, object),
            placed => self.add_text(id, placed, octets),
        }
    }

    /// Adds the object of a text that isn't read yet, where it was seen what becomes of the text.
    fn add_text(&mut self, id: HashId, placed: Placed, octets: &[u8]) -> Result<HashId, PoolFault>
        requires own { id ≡ names.named octets.now }
        requires placed { Decides placed self.old id octets.now }
        ensures ok { IfOk result (λ id. spec.added self.old octets.now ≡ Ok (id, self.new)) }
        ensures own { IfOk result (λ id. id ≡ names.named octets.now) }
        ensures read { OnOk result (IsObject octets.now) }
        ensures err { IfErr result (λ fault. Refuses fault (spec.added self.old octets.now)) }
        ensures unchanged { OnErr result (self.new ≡ self.old) }
    {
        match placed {
            Placed::Present => Ok(id),
            Placed::Clash => {
                expect_object(self.alloc, octets)?;
                Err(PoolFault::Clash(id))
            }
            Placed::Full => {
                expect_object(self.alloc, octets)?;
                Err(PoolFault::Full)
            }
            Placed::Free => {
                let object = object_in(self.alloc, octets)?;
                let text = copied(self.alloc, octets)?;
                self.insert(id, text, object)
            }
        }
    }

    /// Adds an object with its text, which isn't there, where there is room.
    fn insert(&mut self, id: HashId, text: Text, object: TypeObject) -> Result<HashId, PoolFault>
        requires own { id ≡ names.named text }
        requires absent { spec.found id self.old ≡ None }
        requires room { length self.old < 4096 }
        requires text { text ≡ text_of (view.object object) }
        requires well_formed { is_well_formed (view.object object) ≡ true }
        requires short { length text ≤ 131072 }
        ensures ok { IfOk result (λ i. (i ≡ id) × (self.new ≡ self.old ++ (id, text) ∷ [])) }
        ensures err { IfErr result (λ fault. fault ≡ PoolFault.OutOfMemory) }
        ensures read { IsObject text }
        ensures unchanged { OnErr result (self.new ≡ self.old) }
    {
        let entry = Entry {
            octets: text,
            object,
        };
        match store(&mut self.entries, id, entry) {
            Ok(()) => Ok(id),
            Err(_) => Err(PoolFault::OutOfMemory),
        }
    }
}

fn store(entries: &mut IndexMap<HashId, Entry>, id: HashId, entry: Entry) -> Result<(), OutOfMemory>
    requires { spec.found id (map held entries.old.entries) ≡ None }
    ensures ok { OnOk result (map held entries.new.entries ≡ map held entries.old.entries ++ (id, entry.octets) ∷ []) }
    ensures err { OnErr result (map held entries.new.entries ≡ map held entries.old.entries) }
{
    entries.insert(id, entry)?;
    Ok(())
}

/// Refuses what is no object's text.
fn expect_object(alloc: Global, octets: &[u8]) -> Result<(), PoolFault>
    ensures ok { OnOk result (IsObject octets.now) }
    ensures err { IfErr result (λ fault. Refuses fault (refused_if (object_of octets.now))) }
{
    match read_object(alloc, octets) {
        Ok(_) => Ok(()),
        Err(fault) => Err(refused(fault)),
    }
}

/// The object of a text.
fn object_in(alloc: Global, octets: &[u8]) -> Result<TypeObject, PoolFault>
    ensures text { IfOk result (λ object. octets.now ≡ text_of (view.object object)) }
    ensures well_formed { IfOk result (λ object. is_well_formed (view.object object) ≡ true) }
    ensures short { OnOk result (length octets.now ≤ 131072) }
    ensures err { IfErr result (λ fault. Refuses fault (refused_if (object_of octets.now))) }
{
    match read_object(alloc, octets) {
        Ok(object) => Ok(object),
        Err(fault) => Err(refused(fault)),
    }
}

/// A text of these octets.
fn copied(alloc: Global, octets: &[u8]) -> Result<Text, PoolFault>
    ensures ok { IfOk result (λ text. text ≡ octets.now) }
    ensures err { IfErr result (λ fault. fault ≡ PoolFault.OutOfMemory) }
{
    match Text::from_octets(alloc, octets) {
        Ok(text) => Ok(text),
        Err(_) => Err(PoolFault::OutOfMemory),
    }
}

/// Whether an object's text is read as that object.
fn is_read_again(object: &TypeObject, octets: &[u8]) -> bool
    ensures { result ≡ (nat_le (length octets.now) 131072 && is_well_formed (view.object object.now)) }
{
    octets.len() <= LONGEST && is_well_formed(object)
}

fn refused(fault: ObjectFault) -> PoolFault
    ensures { PassesOn fault result }
{
    match fault {
        ObjectFault::Not { at, rule } => PoolFault::Object(Fault { at, rule }),
        ObjectFault::OutOfMemory => PoolFault::OutOfMemory,
    }
}
