ghost use Rattle.std.specs.Prelude.{◌≡◌, true, false, OnOk, IfOk, IfErr};
ghost use Rattle.object_formats.specs.Objects as o;
ghost use Rattle.type_trees.specs.View.{tree};
ghost use Rattle.type_resolve.specs.Adding.{Adds, Halts};
ghost use Rattle.type_resolve.specs.Objects as spec;
ghost use Rattle.type_resolve.specs.Views.{Stores, hashes_seen, sides};

use crate::making::Making;
use crate::sides::Identifiers;
use crate::walk::{alias, bitmask, enumeration, structure, union};
use std::alloc::Global;
use std::mem;
use type_object::{Pool, PoolFault};
use type_trees::{Named, XType};

/// Whether a type has objects of its own: an alias, an enumeration, a bitmask, a structure or a union (DDS-XTypes 1.3, 7.3.4.2).
#[tactic(auto, using(type_trees::proofs::Views::tree_rules))]
pub fn has_objects(ty: &XType) -> bool
    ensures { result ≡ spec.has_objects (tree ty.now) }
{
    match ty {
        XType::Enum(_) | XType::Mask(_) | XType::Struct(_) | XType::Union(_) | XType::Alias(_) =>
            true,
        XType::Prim(_) | XType::Str(_) | XType::Seq(_) | XType::Array(_) | XType::Map(_) => false,
    }
}

/// Makes the objects of a type and adds them as `objects_of` does.
#[tactic(auto, using(type_trees::proofs::Views::tree_rules))]
fn made_objects<'a>(
    alloc: Global,
    ty: &'a XType,
    pool: &mut Making<'a>,
) -> Result<Identifiers, PoolFault>
    requires { spec.has_objects (tree ty.now) ≡ true }
    ensures { Stores hashes_seen result pool.old (spec.texts (tree ty.now)) pool.new (sides (tree ty.now)) }
{
    match ty {
        XType::Enum(kind) => enumeration(alloc, kind, pool),
        XType::Mask(kind) => bitmask(alloc, kind, pool),
        XType::Struct(kind) => structure(alloc, kind, pool),
        XType::Union(kind) => union(alloc, kind, pool),
        XType::Alias(kind) => alias(alloc, kind, pool),
        XType::Prim(_) | XType::Str(_) | XType::Seq(_) | XType::Array(_) | XType::Map(_) => {
            unreachable!()
        }
    }
}

/// Adds the objects of a type as `objects_of` does, unless it is known that they were added.
fn add_objects<'a>(
    alloc: Global,
    ty: &'a XType,
    pool: &mut Making<'a>,
) -> Result<Identifiers, PoolFault>
    requires { spec.has_objects (tree ty.now) ≡ true }
    ensures { Stores hashes_seen result pool.old (spec.texts (tree ty.now)) pool.new (sides (tree ty.now)) }
{
    if let Some(ids) = pool.known(ty) {
        return Ok(ids);
    }
    let ids = made_objects(alloc, ty, pool)?;
    match pool.keep(ty, ids) {
        Ok(()) => Ok(ids),
        Err(_) => Err(PoolFault::OutOfMemory),
    }
}

impl<'a> Making<'a> {
    /// Adds the objects of a type as `objects_of` does. Those of a type that has a name are not made again where it came before, by itself
    /// or in another.
    #[tactic(auto, using(type_trees::proofs::Views::tree_rules))]
    pub(crate) fn add_type(
        &mut self,
        alloc: Global,
        named: &'a Named,
    ) -> Result<Identifiers, PoolFault>
        requires { spec.has_objects (tree named.now.ty) ≡ true }
        ensures added { OnOk result (Adds self.old (spec.texts (tree named.now.ty)) self.new) }
        ensures minimal { IfOk result (λ ids. spec.identifier false (tree named.now.ty) ≡ o.hash ids.minimal) }
        ensures complete { IfOk result (λ ids. spec.identifier true (tree named.now.ty) ≡ o.hash ids.complete) }
        ensures halted { IfErr result (λ fault. Halts fault self.old (spec.texts (tree named.now.ty)) self.new) }
    {
        add_objects(alloc, &named.ty, self)
    }
}

/// Adds the objects of a type and of all types in it that have objects, and gives the type's identifiers (DDS-XTypes 1.3, 7.3.4; the order
/// is this profile's own). What stands inside comes first, and of each type the minimal object before the complete one. A structure's base
/// comes first with what it needs, then what the structure's own members need, then the structure; a map's key comes before its value. An
/// object that is there already is not added again, and a structure or union that stands in the type a second time is not made again.
///
/// The faults are those of the first text that `Pool::add` refuses: a text past 131,072 octets is `Object` with the rule Long. The objects
/// before it stay in the pool. Where memory is wanting, a beginning of them was added. Types in it are meant to have names, and these to be
/// full, as those of a parsed text are: what has no name has no complete object.
#[tactic(auto, using(type_trees::proofs::Views::tree_rules))]
pub fn objects_of(alloc: Global, named: &Named, pool: &mut Pool) -> Result<Identifiers, PoolFault>
    requires { spec.has_objects (tree named.now.ty) ≡ true }
    ensures added { OnOk result (Adds pool.old (spec.texts (tree named.now.ty)) pool.new) }
    ensures minimal { IfOk result (λ ids. spec.identifier false (tree named.now.ty) ≡ o.hash ids.minimal) }
    ensures complete { IfOk result (λ ids. spec.identifier true (tree named.now.ty) ≡ o.hash ids.complete) }
    ensures halted { IfErr result (λ fault. Halts fault pool.old (spec.texts (tree named.now.ty)) pool.new) }
{
    let mut making = Making::new(alloc, mem::replace(pool, Pool::new(alloc)));
    let ids = making.add_type(alloc, named);
    *pool = making.take(alloc);
    ids
}
