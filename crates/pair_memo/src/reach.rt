ghost use Rattle.std.specs.Prelude.{◌≡◌, All, IfOk, IfSome};
ghost use Rattle.object_walks.specs.Laws.{IsReached};
ghost use Rattle.type_object.specs.Pools.{Texts};
ghost use Rattle.type_object.specs.References.{is_among, noted};
ghost use Rattle.type_trees.specs.declared.types.HashId.{HashId as Identifier};

use indexmap::IndexSet;
use std::alloc::Global;
use std::marker::Model;
use type_object::{Pool, references};
use type_trees::HashId;
use xt_lists::OutOfMemory;

/// As many identifiers as a pool may have objects.
const MOST: usize = 4_096;

/// Identifiers that are reached from one in a pool: itself, and those in the objects of all that are reached.
#[derive(Drop)]
pub struct Reach {
    ids: IndexSet<HashId>,
}

impl Model for Reach {
    ghost use Rattle.std.specs.Prelude.{List};
    ghost use Rattle.type_trees.specs.declared.types.HashId.{HashId};

    ghost Value = { List HashId };

    ghost view = { λ reach. reach.ids.keys };
}

impl Reach {
    /// The identifiers that are reached from one, the nearest first. They are all that there are, unless some have no object.
    pub fn gather(alloc: Global, pool: &Pool, asked: &HashId) -> Result<Reach, OutOfMemory>
        ensures { IfOk result (All (λ id. IsReached pool.now asked.now id)) }
    {
        let mut ids = IndexSet::new(alloc);
        ids.insert(*asked)?;
        for at in 0..MOST {
            match next(&ids, at) {
                None => return Ok(Reach { ids }),
                Some(id) => add_parts(alloc, pool, &mut ids, &id)?,
            }
        }
        Ok(Reach { ids })
    }

    /// Whether the identifier is among them.
    #[tactic(auto, using(crate::proofs::Reaching::among_keys))]
    pub fn has(&self, id: &HashId) -> bool
        ensures { result ≡ is_among id.now self.now }
    {
        self.ids.contains(id)
    }
}

fn next(ids: &IndexSet<HashId>, at: usize) -> Option<HashId>
    ensures { (pool : Texts) (asked : Identifier) → All (λ id. IsReached pool asked id) ids.now.keys → IfSome result (λ id. IsReached pool asked id) }
{
    match ids.get_index(at) {
        None => None,
        Some(id) => Some(*id),
    }
}

/// Adds the identifiers in the object of one.
fn add_parts(
    alloc: Global,
    pool: &Pool,
    ids: &mut IndexSet<HashId>,
    id: &HashId,
) -> Result<(), OutOfMemory>
    ensures { (asked : Identifier) → All (λ i. IsReached pool.now asked i) ids.old.keys → IsReached pool.now asked id.now → IfOk result (λ u. All (λ i. IsReached pool.now asked i) ids.new.keys) }
{
    match pool.get(id) {
        None => Ok(()),
        Some(object) => {
            let parts = references(alloc, object)?;
            add_all(ids, parts.as_slice())
        }
    }
}

fn add_all(ids: &mut IndexSet<HashId>, more: &[HashId]) -> Result<(), OutOfMemory>
    ensures { IfOk result (λ u. ids.new.keys ≡ noted ids.old.keys more.now) }
{
    for id in more {
        ids.insert(*id)?;
    }
    Ok(())
}
