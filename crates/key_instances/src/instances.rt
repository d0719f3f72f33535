ghost use Rattle.std.specs.Prelude.{◌≡◌, ◌≤◌, ◌<◌, [], ◌∷◌, ◌++◌, length, map, false, Some, IfSome, IfOk, IfErr, OnOk, OnErr, IsErrOf, IsTrue};
ghost use Rattle.key_instances.specs.kept.Kept as spec;
ghost use Rattle.key_instances.specs.kept.Kept.{has_key};
ghost use Rattle.key_instances.specs.Caches.{key_of, count_of, value_of, again_at, AreWithin};
ghost use Rattle.key_instances.specs.Held.{held};

use crate::entry::Entry;
use indexmap::IndexMap;
use std::alloc::Global;
use std::marker::Model;
use type_trees::Value;
use xt_lists::{OutOfMemory, Text};

/// The last values of each key, in the order in which the keys came first. A look-up goes by the key's hash.
#[derive(Drop)]
pub struct LastValues<T> {
    alloc: Global,
    entries: IndexMap<Text, Entry<T>>,
    depth: u32,
    most: u32,
}

impl<T> Model for LastValues<T> {
    ghost use Rattle.std.specs.Prelude.{map};
    ghost use Rattle.key_instances.specs.Held.{held};
    ghost use Rattle.key_instances.specs.Caches.{CacheOf, IsCache};

    ghost Value = { CacheOf T };

    ghost view = { λ c. record { depth = c.depth; most = c.most; entries = map held c.entries.entries } };

    ghost invariant = { λ c. IsCache (record { depth = c.depth; most = c.most; entries = map held c.entries.entries }) };
}

/// The last values of each key, as trees.
pub type Instances = LastValues<Value>;

/// Why a value was not put.
#[derive(Debug, Clone, Copy, PartialEq, Eq)]
pub enum PutFault {
    /// Its key isn't there, and there are as many keys as may be.
    Full,
    OutOfMemory,
}

impl<T: Drop> LastValues<T> {
    /// No keys. Of each key the last `depth` values are kept, and there are at most `most` keys. It takes no memory; what is put later
    /// is kept in memory of this allocator.
    pub fn new(alloc: Global, depth: u32, most: u32) -> Result<LastValues<T>, OutOfMemory>
        requires depth { (1 ≤ depth) × (depth ≤ 1024) }
        requires most { (1 ≤ most) × (most ≤ 65536) }
        ensures { IfOk result (λ cache. cache ≡ record { depth = depth; most = most; entries = [] }) }
    {
        Ok(LastValues {
            alloc,
            entries: IndexMap::new(alloc),
            depth,
            most,
        })
    }

    /// Puts a value under its key. It is `Full` exactly where the key isn't there and as many keys are as may be. A refused call changes
    /// nothing, and drops both.
    pub fn put(&mut self, key: Text, value: T) -> Result<(), PutFault>
        ensures put { OnOk result (self.new.entries ≡ spec.put self.old.depth self.old.entries key value) }
        ensures depth { self.new.depth ≡ self.old.depth }
        ensures most { self.new.most ≡ self.old.most }
        ensures room { OnOk result (IsTrue (spec.is_full self.old.most self.old.entries key) → ⊥) }
        ensures full { IsErrOf result PutFault.Full → IsTrue (spec.is_full self.old.most self.old.entries key) }
        ensures memory { IsErrOf result PutFault.OutOfMemory → IsTrue (spec.is_full self.old.most self.old.entries key) → ⊥ }
        ensures unchanged { OnErr result (self.new ≡ self.old) }
    {
        match self.entries.get_index_of(&key) {
            Some(at) => put_again(&mut self.entries, at, self.depth, value),
            None if self.most as usize <= self.entries.len() => Err(PutFault::Full),
            None => put_first(self.alloc, &mut self.entries, key, value),
        }
    }

    /// The number of keys. It takes no memory.
    pub fn len(&self) -> u32
        ensures { result ≡ length self.now.entries }
    {
        self.entries.len() as u32
    }

    /// The key at this place. It takes no memory.
    pub fn key_at(&self, i: u32) -> &Text
        requires { i < length self.now.entries }
        ensures { Some result.now ≡ key_of self.now.entries i }
    {
        match self.entries.get_index(i as usize) {
            Some((key, _)) => key,
            None => unreachable!(),
        }
    }

    /// How many values are kept of the key at this place. It takes no memory.
    pub fn count_at(&self, i: u32) -> u32
        requires { i < length self.now.entries }
        ensures { Some result ≡ count_of self.now.entries i }
    {
        match self.entries.get_index(i as usize) {
            Some((_, entry)) => entry.values.len() as u32,
            None => unreachable!(),
        }
    }

    /// The value at place j of those of the key at place i; the oldest is at 0. It takes no memory.
    pub fn value_at(&self, i: u32, j: u32) -> &T
        requires i { i < length self.now.entries }
        requires j { IfSome (count_of self.now.entries i) (λ n. j < n) }
        ensures { Some result.now ≡ value_of self.now.entries i j }
    {
        match self.entries.get_index(i as usize) {
            Some((_, entry)) => &entry.values[j as usize],
            None => unreachable!(),
        }
    }
}

/// One more value of the key at this place.
fn put_again<T: Drop>(
    entries: &mut IndexMap<Text, Entry<T>>,
    at: usize,
    depth: u32,
    value: T,
) -> Result<(), PutFault>
    requires at { at < length entries.old.entries }
    requires some { 1 ≤ depth }
    requires few { AreWithin depth (map held entries.old.entries) }
    ensures ok { OnOk result (map held entries.new.entries ≡ again_at depth (map held entries.old.entries) at value) }
    ensures few { AreWithin depth (map held entries.new.entries) }
    ensures count { length entries.new.entries ≡ length entries.old.entries }
    ensures err { OnErr result (map held entries.new.entries ≡ map held entries.old.entries) }
    ensures fault { IfErr result (λ fault. fault ≡ PutFault.OutOfMemory) }
{
    let (_, entry) = entries.pair_mut(at);
    match entry.add(depth as usize, value) {
        Ok(()) => Ok(()),
        Err(_) => Err(PutFault::OutOfMemory),
    }
}

/// The first value of a key that isn't there.
fn put_first<T: Drop>(
    alloc: Global,
    entries: &mut IndexMap<Text, Entry<T>>,
    key: Text,
    value: T,
) -> Result<(), PutFault>
    requires { has_key key (map held entries.old.entries) ≡ false }
    ensures ok { OnOk result (map held entries.new.entries ≡ map held entries.old.entries ++ (key, value ∷ []) ∷ []) }
    ensures err { OnErr result (map held entries.new.entries ≡ map held entries.old.entries) }
    ensures fault { IfErr result (λ fault. fault ≡ PutFault.OutOfMemory) }
{
    let Ok(entry) = Entry::of(alloc, value) else {
        return Err(PutFault::OutOfMemory);
    };
    match entries.insert(key, entry) {
        Ok(_) => Ok(()),
        Err(_) => Err(PutFault::OutOfMemory),
    }
}
