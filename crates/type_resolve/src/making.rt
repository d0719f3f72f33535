ghost use Rattle.std.specs.Prelude.{◌≡◌, [], IfSome};
ghost use Rattle.std.specs.Option.{option_map};
ghost use Rattle.type_trees.specs.Bridge.{name_number};
ghost use Rattle.type_trees.specs.View.{tree};
ghost use Rattle.type_resolve.specs.Adding.{Adds};
ghost use Rattle.type_resolve.specs.Held.{AreHeld};
ghost use Rattle.type_resolve.specs.Known.{IsKnown, known_name};
ghost use Rattle.type_resolve.specs.Objects.{texts};
ghost use Rattle.type_resolve.specs.Views.{Stores, itself, forms, form_texts, form_ids, sides, hashes_seen};

use crate::adding::add_pair;
use crate::numbers::{Called, Numbers};
use crate::objects::Pair;
use crate::sides::Identifiers;
use indexmap::IndexMap;
use std::alloc::Global;
use std::marker::Model;
use std::mem;
use type_object::{Pool, PoolFault};
use type_trees::{Name, XType};
use type_values::same::same_type;
use xt_lists::{OutOfMemory, Text};

/// A type whose objects were all added, with its identifiers.
#[derive(Clone, Copy)]
pub(crate) struct Known<'a> {
    pub(crate) ty: &'a XType,
    pub(crate) ids: Identifiers,
}

/// A pool that the objects of types are added to, and what is known of types that have a name: those of which all objects were added are
/// found by it, so that none is made twice. Members' names are hashed once, too.
#[derive(Drop)]
pub(crate) struct Making<'a> {
    pool: Pool,
    known: Vec<Known<'a>>,
    places: IndexMap<Called<'a>, usize>,
    numbers: Numbers<'a>,
}

impl<'a> Model for Making<'a> {
    ghost use Rattle.type_object.specs.Pools.{Texts};
    ghost use Rattle.type_resolve.specs.Known.{AreKnown};

    ghost Value = { Texts };

    ghost view = { λ m. m.pool };

    ghost invariant = { λ m. AreKnown m.pool m.known.items };
}

fn octets_of(name: &Option<Text>) -> Option<&[u8]>
    ensures { option_map (λ octets. octets.now) result ≡ name.now }
{
    match name {
        Some(text) => Some(text.octets()),
        None => None,
    }
}

/// The name of a type that has one.
#[tactic(auto, using(type_trees::proofs::Views::tree_rules))]
fn name_of(ty: &XType) -> Option<&[u8]>
    ensures { option_map (λ name. name.now) result ≡ known_name (tree ty.now) }
{
    match ty {
        XType::Enum(kind) => octets_of(&kind.name),
        XType::Mask(kind) => octets_of(&kind.name),
        XType::Struct(kind) => octets_of(&kind.name),
        XType::Union(kind) => octets_of(&kind.name),
        XType::Alias(kind) => octets_of(&kind.name),
        XType::Prim(_) | XType::Str(_) => None,
        XType::Seq(_) | XType::Array(_) | XType::Map(_) => None,
    }
}

/// The identifiers of the type, where it is this one.
fn ids_of(known: &Known<'_>, ty: &XType) -> Option<Identifiers>
    ensures { IfSome result (λ ids. (ids ≡ known.now.ids) × (tree known.now.ty.now ≡ tree ty.now)) }
{
    if same_type(known.ty, ty) {
        Some(known.ids)
    } else {
        None
    }
}

impl<'a> Making<'a> {
    /// Objects are added to this pool. It takes no memory.
    pub(crate) fn new(alloc: Global, pool: Pool) -> Making<'a>
        ensures { result ≡ pool }
    {
        Making {
            pool,
            known: Vec::new(alloc),
            places: IndexMap::new(alloc),
            numbers: Numbers::new(alloc),
        }
    }

    /// Takes out the pool with what was added, and leaves an empty one.
    pub(crate) fn take(&mut self, alloc: Global) -> Pool
        ensures taken { result ≡ self.old }
        ensures left { self.new ≡ [] }
    {
        self.known.clear();
        mem::replace(&mut self.pool, Pool::new(alloc))
    }

    /// Adds the minimal object, and then the complete one.
    pub(crate) fn add_pair(&mut self, alloc: Global, pair: Pair) -> Result<Identifiers, PoolFault>
        ensures { Stores itself result self.old (form_texts (forms pair)) self.new (form_ids (forms pair)) }
    {
        add_pair(alloc, pair, &mut self.pool)
    }

    /// The identifiers of a type, where it is known that all its objects were added.
    pub(crate) fn known(&self, ty: &'a XType) -> Option<Identifiers>
        ensures { IfSome result (λ ids. Adds self.now (texts (tree ty.now)) self.now × (hashes_seen ids ≡ sides (tree ty.now))) }
    {
        let name = name_of(ty)?;
        let place = *self.places.get(&Called { name })?;
        let known = self.known.get(place)?;
        ids_of(known, ty)
    }

    /// Keeps in mind that all objects of a type were added.
    pub(crate) fn keep(&mut self, ty: &'a XType, ids: Identifiers) -> Result<(), OutOfMemory>
        requires held { AreHeld self.old (texts (tree ty.now)) }
        requires named { sides (tree ty.now) ≡ hashes_seen ids }
        ensures { self.new ≡ self.old }
    {
        if let Some(name) = name_of(ty) {
            self.places.insert(Called { name }, self.known.len())?;
            self.known.push(Known { ty, ids })?;
        }
        Ok(())
    }

    /// The hash of a member's name as a number.
    pub(crate) fn number_of(&mut self, name: &'a Name) -> u32
        ensures number { result ≡ name_number name.now }
        ensures same { self.new ≡ self.old }
    {
        self.numbers.number_of(name)
    }
}
