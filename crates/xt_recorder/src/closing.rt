// An identifier and all that it refers to.
ghost use Rattle.std.specs.Prelude.{◌≡◌, Ok, IfOk, OnOk};
ghost use Rattle.type_trees.specs.Trees.{Tree};
ghost use Rattle.type_object.specs.Pools.{object_at};
ghost use Rattle.object_walks.specs.Resolving.{resolved};
ghost use Rattle.xt_recorder.specs.Recordings as spec;

use indexmap::IndexSet;
use std::alloc::Global;
use type_object::{Pool, references, row_of};
use type_trees::HashId;
use xt_lists::{OutOfMemory, Row};

// Lists the identifiers one after another, behind those that are listed.
#[cycle(listing)]
fn list_each(
    alloc: Global,
    pool: &Pool,
    levels: usize,
    ids: &[HashId],
    listed: &mut IndexSet<HashId>,
) -> Result<(), OutOfMemory>
    ensures { OnOk result (listed.new.keys ≡ spec.each (spec.listed_at levels pool.now) listed.old.keys ids.now) }
{
    for id in ids {
        list(alloc, pool, levels, id, listed)?;
    }
    Ok(())
}

// Lists what the identifier's object refers to.
#[cycle(listing)]
fn list_referred(
    alloc: Global,
    pool: &Pool,
    levels: usize,
    id: &HashId,
    listed: &mut IndexSet<HashId>,
) -> Result<(), OutOfMemory>
    ensures { OnOk result (listed.new.keys ≡ spec.each (spec.listed_at levels pool.now) listed.old.keys (spec.referred (object_at id.now pool.now))) }
{
    match pool.get(id) {
        None => Ok(()),
        Some(object) => {
            let ids = references(alloc, object)?;
            list_each(alloc, pool, levels, ids.as_slice(), listed)
        }
    }
}

// Lists an identifier behind those that are listed: first what it refers to, and then itself.
#[cycle(listing)]
fn list(
    alloc: Global,
    pool: &Pool,
    levels: usize,
    id: &HashId,
    listed: &mut IndexSet<HashId>,
) -> Result<(), OutOfMemory>
    ensures { OnOk result (listed.new.keys ≡ spec.listed_at levels pool.now listed.old.keys id.now) }
{
    if levels == 0 {
        return Ok(());
    }
    if listed.contains(id) {
        return Ok(());
    }
    list_referred(alloc, pool, levels - 1, id, listed)?;
    listed.insert(*id)?;
    Ok(())
}

/// The identifier and all that it refers to, each once and behind what it refers to, in the order of their texts.
pub fn closed(alloc: Global, pool: &Pool, id: &HashId) -> Result<Row<HashId>, OutOfMemory>
    requires { (t : Tree) × (resolved pool.now id.now ≡ Ok t) }
    ensures { IfOk result (λ ids. ids ≡ spec.closed pool.now id.now) }
{
    let mut listed = IndexSet::new(alloc);
    list(alloc, pool, pool.len(), id, &mut listed)?;
    row_of(alloc, listed.as_slice())
}
