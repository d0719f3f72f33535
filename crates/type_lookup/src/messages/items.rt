//! What messages have lists of: identifiers, objects, and entries with both.
ghost use Rattle.std.specs.Prelude.{◌≡◌, ◌≤◌, ◌++◌, ℕ, List, length, OnOk};
ghost use Rattle.type_lookup.specs.messages.Fields.{Field, Reads, id_at, object_at, fetched_at, needed_at};
ghost use Rattle.type_lookup.specs.messages.Spelling.{object_octets, fetched_octets, needed_octets, IsKnownId, HasObjectLength, IsFetched, IsNeeded, HasHash, IsFetchedInRange, IsNeededInRange};
ghost use Rattle.type_trees.specs.Ids.{id_octets};

use crate::messages::fields::Fields;
use crate::messages::messages::{Fetched, Needed, PayloadFault};
use crate::messages::spelling::{put_number, put_object};
use std::alloc::Global;
use type_trees::HashId;
use xt_lists::{OutOfMemory, Text};

/// An item of a list in a message.
pub(crate) trait Item: Drop {
    /// The item at the front of the octets of a payload.
    ghost read_at: { List ℕ → Field Self };

    /// The octets that it is spelled in.
    ghost octets: { Self → List ℕ };

    /// The rules on its fields.
    ghost keeps: { Self → Type 0 };

    /// What holds of each value of its type.
    ghost in_range: { Self → Type 0 };

    fn read(fields: &mut Fields<'_>, alloc: Global) -> Result<Self, PayloadFault>
        ensures { Reads (read_at fields.old.rest.now) result fields.new.rest.now };

    fn put(&self, text: &mut Text) -> Result<(), OutOfMemory>
        requires { keeps self.now }
        ensures spelled { OnOk result (text.new ≡ text.old ++ octets self.now) }
        ensures range { OnOk result (in_range self.now) };

    /// How many octets it is spelled in.
    fn size(&self) -> u64
        requires { keeps self.now }
        ensures exact { result ≡ length (octets self.now) }
        ensures most { result ≤ 131091 };
}

impl Item for HashId {
    ghost read_at = { λ octets. id_at octets };

    ghost octets = { λ id. id_octets id };

    ghost keeps = { λ id. IsKnownId id };

    ghost in_range = { λ id. HasHash id };

    fn read(fields: &mut Fields<'_>, _alloc: Global) -> Result<HashId, PayloadFault> {
        fields.id()
    }

    fn put(&self, text: &mut Text) -> Result<(), OutOfMemory> {
        text.push(self.kind)?;
        text.append(&self.hash)
    }

    fn size(&self) -> u64 {
        id_size(self)
    }
}

/// The octets of an identifier.
fn id_size(id: &HashId) -> u64
    ensures exact { result ≡ length (id_octets id.now) }
    ensures most { result ≤ 15 }
{
    let hash: &[u8] = &id.hash;
    1 + hash.len() as u64
}

impl Item for Text {
    ghost use Rattle.std.specs.Prelude.{⊤};

    ghost read_at = { λ octets. object_at octets };

    ghost octets = { λ object. object_octets object };

    ghost keeps = { λ object. HasObjectLength object };

    ghost in_range = { λ _. ⊤ };

    fn read(fields: &mut Fields<'_>, alloc: Global) -> Result<Text, PayloadFault> {
        fields.object(alloc)
    }

    fn put(&self, text: &mut Text) -> Result<(), OutOfMemory> {
        put_object(text, self)
    }

    fn size(&self) -> u64 {
        object_size(self)
    }
}

/// The octets of a length and an object.
fn object_size(object: &Text) -> u64
    requires { HasObjectLength object.now }
    ensures exact { result ≡ length (object_octets object.now) }
    ensures most { result ≤ 131076 }
{
    4 + object.len() as u64
}

impl Item for Fetched {
    ghost read_at = { λ octets. fetched_at octets };

    ghost octets = { λ fetched. fetched_octets fetched };

    ghost keeps = { λ fetched. IsFetched fetched };

    ghost in_range = { λ fetched. IsFetchedInRange fetched };

    fn read(fields: &mut Fields<'_>, alloc: Global) -> Result<Fetched, PayloadFault> {
        let id = fields.id()?;
        let octets = fields.object(alloc)?;
        Ok(Fetched { id, octets })
    }

    fn put(&self, text: &mut Text) -> Result<(), OutOfMemory> {
        self.id.put(text)?;
        put_object(text, &self.octets)
    }

    fn size(&self) -> u64 {
        id_size(&self.id) + object_size(&self.octets)
    }
}

impl Item for Needed {
    ghost read_at = { λ octets. needed_at octets };

    ghost octets = { λ needed. needed_octets needed };

    ghost keeps = { λ needed. IsNeeded needed };

    ghost in_range = { λ needed. IsNeededInRange needed };

    fn read(fields: &mut Fields<'_>, _alloc: Global) -> Result<Needed, PayloadFault> {
        let id = fields.id()?;
        let size = fields.number()?;
        Ok(Needed { id, size })
    }

    fn put(&self, text: &mut Text) -> Result<(), OutOfMemory> {
        self.id.put(text)?;
        put_number(text, self.size)
    }

    fn size(&self) -> u64 {
        id_size(&self.id) + 4
    }
}
