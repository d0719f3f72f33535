ghost use Rattle.std.specs.Prelude.{◌≡◌, ◌∷◌, [], MatchResult, Ok, Err};
ghost use Rattle.object_formats.specs.Tables.{text_of};
ghost use Rattle.object_formats.specs.View as view;
ghost use Rattle.type_object.specs.Names.{named};
ghost use Rattle.type_resolve.specs.Views.{Stores, AddsMade, itself, forms, form_texts, form_ids};

use crate::making::Making;
use crate::objects::Pair;
use crate::sides::Identifiers;
use object_formats::TypeObject;
use std::alloc::Global;
use type_object::{Pool, PoolFault, write_object};
use type_trees::HashId;
use xt_lists::OutOfMemory;

/// What was made, or that memory was wanting, as a pool says it.
pub(crate) fn made<T>(what: Result<T, OutOfMemory>) -> Result<T, PoolFault>
    ensures { MatchResult what (λ x. result ≡ Ok x) (λ e. result ≡ Err PoolFault.OutOfMemory) }
{
    match what {
        Ok(value) => Ok(value),
        Err(_) => Err(PoolFault::OutOfMemory),
    }
}

/// Adds an object with its text, and gives its identifier.
#[tactic(auto, using(crate::proofs::Added::added_rules))]
fn add_object(alloc: Global, object: TypeObject, pool: &mut Pool) -> Result<HashId, PoolFault>
    ensures { Stores itself result pool.old (text_of (view.object object) ∷ []) pool.new (named (text_of (view.object object))) }
{
    let Ok(text) = write_object(alloc, &object) else {
        return Err(PoolFault::OutOfMemory);
    };
    pool.add_made(object, text)
}

/// Adds the minimal object, and then the complete one.
pub(crate) fn add_pair(alloc: Global, pair: Pair, pool: &mut Pool) -> Result<Identifiers, PoolFault>
    ensures { Stores itself result pool.old (form_texts (forms pair)) pool.new (form_ids (forms pair)) }
{
    let Pair { minimal, complete } = pair;
    let minimal = add_object(alloc, minimal, pool)?;
    let complete = add_object(alloc, complete, pool)?;
    Ok(Identifiers { minimal, complete })
}

/// Adds what was made.
pub(crate) fn add_made(
    alloc: Global,
    pair: Result<Pair, OutOfMemory>,
    pool: &mut Making<'_>,
) -> Result<Identifiers, PoolFault>
    ensures { AddsMade pair result pool.old pool.new }
{
    match pair {
        Ok(pair) => pool.add_pair(alloc, pair),
        Err(_) => Err(PoolFault::OutOfMemory),
    }
}
