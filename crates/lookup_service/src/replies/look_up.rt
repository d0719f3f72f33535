ghost use Rattle.std.specs.Prelude.{◌≡◌, ◌≢◌, ◌≤◌, ℕ, List, None, Some, IfOk, MatchOption, length};
ghost use Rattle.type_trees.specs.declared.types.HashId.{HashId};
ghost use Rattle.type_object.specs.Pools.{object_in};
ghost use Rattle.type_registry.specs.Passed.{known, Grows};
ghost use Rattle.type_object.specs.visits.Visits.{references_in};

use std::alloc::Global;
use type_lookup::messages::Fetched;
use type_object::{ObjectFault, read_object, references};
use type_registry::{Finding, Naming, Pass, Registry};
use type_trees::HashId;
use xt_lists::{OutOfMemory, Row, Text};

/// Finds the object of an identifier, and lets the pass know it.
fn look_up<'r, N: Naming>(
    registry: &'r Registry<N>,
    pass: &mut Pass<'r, N>,
    id: &HashId,
) -> Result<Option<Finding<'r, N>>, OutOfMemory>
    requires registry { pass.old.registry ≡ registry.now }
    ensures found { IfOk result (λ found. MatchOption found (known pass.new id.now ≡ None) (λ f. (f.id ≡ id.now) × (known pass.new id.now ≡ Some f.octets))) }
    ensures others { (j : HashId) → j ≢ id.now → known pass.new j ≡ known pass.old j }
    ensures grows { Grows pass.old pass.new }
{
    let Some(finding) = registry.find(pass, id) else {
        return Ok(None);
    };
    registry.remember(pass, &finding)?;
    Ok(Some(finding))
}

/// The object of an identifier as a reply has it, where it is known. The pass knows it then.
pub(crate) fn fetched_of<'r, N: Naming>(
    alloc: Global,
    registry: &'r Registry<N>,
    pass: &mut Pass<'r, N>,
    id: &HashId,
) -> Result<Option<Fetched>, OutOfMemory>
    requires registry { pass.old.registry ≡ registry.now }
    ensures found { IfOk result (λ found. MatchOption found (known pass.new id.now ≡ None) (λ f. (f.id ≡ id.now) × (known pass.new id.now ≡ Some f.octets) × (length f.octets ≤ 131072))) }
    ensures others { (j : HashId) → j ≢ id.now → known pass.new j ≡ known pass.old j }
    ensures grows { Grows pass.old pass.new }
{
    let Some(finding) = look_up(registry, pass, id)? else {
        return Ok(None);
    };
    let octets = Text::from_octets(alloc, finding.octets())?;
    Ok(Some(Fetched { id: *id, octets }))
}

/// The identifiers that the object of an identifier refers to, where it is known. The pass knows it then.
pub(crate) fn references_from<'r, N: Naming>(
    alloc: Global,
    registry: &'r Registry<N>,
    pass: &mut Pass<'r, N>,
    id: &HashId,
) -> Result<Option<Row<HashId>>, OutOfMemory>
    requires registry { pass.old.registry ≡ registry.now }
    ensures found { IfOk result (λ found. MatchOption found (known pass.new id.now ≡ None) (λ ids. (octets : List ℕ) × (known pass.new id.now ≡ Some octets) × (ids ≡ references_in (object_in (Some octets))))) }
    ensures others { (j : HashId) → j ≢ id.now → known pass.new j ≡ known pass.old j }
    ensures grows { Grows pass.old pass.new }
{
    let Some(finding) = look_up(registry, pass, id)? else {
        return Ok(None);
    };
    let references = references_of(alloc, finding.octets())?;
    Ok(Some(references))
}

/// The identifiers that the object of a text refers to; none, where it is no object's.
fn references_of(alloc: Global, octets: &[u8]) -> Result<Row<HashId>, OutOfMemory>
    ensures { IfOk result (λ ids. ids ≡ references_in (object_in (Some octets.now))) }
{
    match read_object(alloc, octets) {
        Ok(object) => references(alloc, &object),
        Err(ObjectFault::OutOfMemory) => Err(OutOfMemory),
        Err(ObjectFault::Not { .. }) => Ok(Row::new(alloc)),
    }
}
