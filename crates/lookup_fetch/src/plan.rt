//! What a fetch does next.
ghost use Rattle.std.specs.Prelude.{◌≡◌, ◌≤◌, [], None, Some, not, false, length, IfOk, IfSome, MatchOption};
ghost use Rattle.std.specs.List.{All};
ghost use Rattle.type_object.specs.References.{is_among};
ghost use Rattle.type_lookup.specs.messages.Spelling.{IsKnownId};
ghost use Rattle.type_object.specs.visits.Visits.{is_known, referred, first_of};
ghost use Rattle.lookup_fetch.specs.Plans.{IsOwn, IsGoodPlan};
ghost use Rattle.lookup_fetch.specs.Rounds.{reached as reached_from, lacking as lacking_of, objects_of, found_in, plan as plan_of};

use std::alloc::Global;
use type_lookup::messages::Fetched;
use type_object::visits::{Ids, Todo};
use type_object::{Pool, references};
use type_trees::HashId;
use xt_lists::{OutOfMemory, Row, Text};

/// The most identifiers that are met.
const MOST_MET: usize = 4096;

/// The most identifiers that are asked for in a round.
const MOST_ASKED: usize = 64;

/// What comes next.
#[derive(Drop)]
pub(crate) enum Next {
    /// More than 4,096 identifiers were met.
    Many,
    /// All objects are there: these.
    Whole(Row<Fetched>),
    /// These are asked for.
    Ask(Row<HashId>),
}

/// What comes next where these objects are held.
pub(crate) fn plan(alloc: Global, held: &Pool, ids: &[HashId]) -> Result<Next, OutOfMemory>
    requires { All IsKnownId ids.now }
    ensures plan { IfOk result (λ next. next ≡ plan_of (found_in held.now) ids.now) }
    ensures good { IfOk result (IsGoodPlan held.now) }
{
    let met = reached(alloc, held, ids)?;
    if met.len() > MOST_MET {
        return Ok(Next::Many);
    }
    match objects(alloc, held, met.as_slice())? {
        Some(objects) => Ok(Next::Whole(objects)),
        None => Ok(Next::Ask(lacking(alloc, held, met.as_slice())?)),
    }
}

/// The identifiers that are met depth first from these; 4,097 where there are more than 4,096.
fn reached(alloc: Global, held: &Pool, ids: &[HashId]) -> Result<Row<HashId>, OutOfMemory>
    requires { All IsKnownId ids.now }
    ensures met { IfOk result (λ met. met ≡ reached_from (found_in held.now) ids.now) }
    ensures kinds { IfOk result (All IsKnownId) }
{
    let mut todo = Todo::new(alloc);
    let mut tried = Ids::new(alloc);
    let mut met = Row::new(alloc);
    todo.put_before(ids)?;
    'visits: while met.len() <= MOST_MET {
        let Some(id) = first_new(&mut todo, &tried) else {
            return Ok(met);
        };
        tried.add(id)?;
        met.push(id)?;
        todo.put_before(references_of(alloc, held, &id)?.as_slice())?;
    }
    Ok(met)
}

/// Takes out the first that is not among those that were tried, and those before it.
fn first_new(todo: &mut Todo, tried: &Ids) -> Option<HashId>
    ensures { MatchOption result ((first_of (λ id. not (is_among id tried.now)) todo.old ≡ None) × (todo.new ≡ [])) (λ id. (first_of (λ id. not (is_among id tried.now)) todo.old ≡ Some (id, todo.new)) × (is_among id tried.now ≡ false)) }
{
    'tries: while let Some(id) = todo.take_first() {
        if !tried.contains(&id) {
            return Some(id);
        }
    }
    None
}

/// The identifiers that the object of an identifier refers to; none, where it isn't held.
fn references_of(alloc: Global, held: &Pool, id: &HashId) -> Result<Row<HashId>, OutOfMemory>
    ensures refers { IfOk result (λ ids. ids ≡ referred (found_in held.now) id.now) }
    ensures kinds { IfOk result (All IsKnownId) }
{
    match held.get(id) {
        Some(object) => Ok(references(alloc, object)?),
        None => Ok(Row::new(alloc)),
    }
}

/// Whether the object of an identifier is held.
fn has(held: &Pool, id: &HashId) -> bool
    ensures { result ≡ is_known (found_in held.now) id.now }
{
    held.octets(id).is_some()
}

/// The first 64 that aren't held.
fn lacking(alloc: Global, held: &Pool, met: &[HashId]) -> Result<Row<HashId>, OutOfMemory>
    ensures lacking { IfOk result (λ ids. ids ≡ lacking_of (found_in held.now) met.now) }
    ensures few { IfOk result (λ ids. length ids ≤ 64) }
{
    let mut lacking = Row::new(alloc);
    'met: for id in met {
        if lacking.len() >= MOST_ASKED {
            return Ok(lacking);
        }
        if has(held, id) {
            continue;
        }
        lacking.push(*id)?;
    }
    Ok(lacking)
}

/// The objects of these identifiers, if all are held.
fn objects(alloc: Global, held: &Pool, met: &[HashId]) -> Result<Option<Row<Fetched>>, OutOfMemory>
    ensures objects { IfOk result (λ objects. objects ≡ objects_of (found_in held.now) met.now) }
    ensures own { IfOk result (λ objects. IfSome objects (All IsOwn)) }
{
    let mut objects = Row::new(alloc);
    'met: for id in met {
        let Some(octets) = held.octets(id) else {
            return Ok(None);
        };
        let octets = Text::from_octets(alloc, octets)?;
        objects.push(Fetched { id: *id, octets })?;
    }
    Ok(Some(objects))
}
