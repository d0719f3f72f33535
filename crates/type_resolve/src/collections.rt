ghost use Rattle.std.specs.Prelude.{◌≡◌, true, IfOk};
ghost use Rattle.object_formats.specs.Objects as o;
ghost use Rattle.object_formats.specs.View as view;
ghost use Rattle.type_resolve.specs.Objects as spec;
ghost use Rattle.type_resolve.specs.Views.{Makes, seen, hashes_seen, sequence_seen, array_seen, map_seen};

use crate::adding::made;
use crate::flags::try_flags;
use crate::sides::{Identifiers, Sides};
use object_formats::TypeIdentifier;
use std::alloc::Global;
use type_object::{PoolFault, ek_of};
use type_values::copy_plain;
use xt_lists::{OutOfMemory, Row};
use xt_shapes::{Prim, Try};

#[tactic(auto, using(object_formats::proofs::Views::identifier_rules))]
pub(crate) fn of_prim(prim: Prim) -> Sides
    ensures { seen result ≡ (true, o.prim prim, o.prim prim) }
{
    Sides {
        plain: true,
        minimal: TypeIdentifier::Prim(prim),
        complete: TypeIdentifier::Prim(prim),
    }
}

#[tactic(auto, using(object_formats::proofs::Views::identifier_rules))]
pub(crate) fn of_string(bound: u32) -> Sides
    ensures { seen result ≡ (true, o.str bound, o.str bound) }
{
    Sides {
        plain: true,
        minimal: TypeIdentifier::Str { bound },
        complete: TypeIdentifier::Str { bound },
    }
}

#[tactic(auto, using(object_formats::proofs::Views::identifier_rules))]
pub(crate) fn of_hashes(ids: Identifiers) -> Sides
    ensures { seen result ≡ hashes_seen ids }
{
    Sides {
        plain: false,
        minimal: TypeIdentifier::Hash(ids.minimal),
        complete: TypeIdentifier::Hash(ids.complete),
    }
}

#[tactic(auto, using(object_formats::proofs::Views::identifier_rules))]
fn sequence_in(
    alloc: Global,
    ek: u8,
    tc: Try,
    bound: u32,
    element: TypeIdentifier,
) -> Result<TypeIdentifier, OutOfMemory>
    ensures { IfOk result (λ t. view.identifier t ≡ o.sequence ek (spec.try_flags tc) bound (view.identifier element)) }
{
    Ok(TypeIdentifier::Seq {
        ek,
        flags: try_flags(tc),
        bound,
        element: Box::new(alloc, element)?,
    })
}

#[tactic(auto, using(object_formats::proofs::Views::identifier_rules))]
fn array_in(
    alloc: Global,
    ek: u8,
    tc: Try,
    dims: &Row<u32>,
    element: TypeIdentifier,
) -> Result<TypeIdentifier, OutOfMemory>
    ensures { IfOk result (λ t. view.identifier t ≡ o.array ek (spec.try_flags tc) dims.now (view.identifier element)) }
{
    let element = Box::new(alloc, element)?;
    Ok(TypeIdentifier::Array {
        ek,
        flags: try_flags(tc),
        dims: copy_plain(alloc, dims)?,
        element,
    })
}

#[tactic(auto, using(object_formats::proofs::Views::identifier_rules))]
fn map_in(
    alloc: Global,
    ek: u8,
    bound: u32,
    key_tc: Try,
    key: TypeIdentifier,
    tc: Try,
    value: TypeIdentifier,
) -> Result<TypeIdentifier, OutOfMemory>
    ensures { IfOk result (λ t. view.identifier t ≡ o.map_of ek (spec.try_flags tc) bound (view.identifier value) (spec.try_flags key_tc) (view.identifier key)) }
{
    let value = Box::new(alloc, value)?;
    let key = Box::new(alloc, key)?;
    Ok(TypeIdentifier::Map {
        ek,
        flags: try_flags(tc),
        bound,
        value,
        key_flags: try_flags(key_tc),
        key,
    })
}

fn both_sequences(alloc: Global, bound: u32, tc: Try, element: Sides) -> Result<Sides, OutOfMemory>
    ensures { IfOk result (λ s. seen s ≡ sequence_seen bound tc (seen element)) }
{
    let Sides {
        plain,
        minimal,
        complete,
    } = element;
    let minimal = sequence_in(alloc, ek_of(false, plain), tc, bound, minimal)?;
    let complete = sequence_in(alloc, ek_of(true, plain), tc, bound, complete)?;
    Ok(Sides {
        plain,
        minimal,
        complete,
    })
}

pub(crate) fn of_sequence(
    alloc: Global,
    bound: u32,
    tc: Try,
    element: Sides,
) -> Result<Sides, PoolFault>
    ensures { Makes seen result (sequence_seen bound tc (seen element)) }
{
    made(both_sequences(alloc, bound, tc, element))
}

fn both_arrays(
    alloc: Global,
    dims: &Row<u32>,
    tc: Try,
    element: Sides,
) -> Result<Sides, OutOfMemory>
    ensures { IfOk result (λ s. seen s ≡ array_seen dims.now tc (seen element)) }
{
    let Sides {
        plain,
        minimal,
        complete,
    } = element;
    let minimal = array_in(alloc, ek_of(false, plain), tc, dims, minimal)?;
    let complete = array_in(alloc, ek_of(true, plain), tc, dims, complete)?;
    Ok(Sides {
        plain,
        minimal,
        complete,
    })
}

pub(crate) fn of_array(
    alloc: Global,
    dims: &Row<u32>,
    tc: Try,
    element: Sides,
) -> Result<Sides, PoolFault>
    ensures { Makes seen result (array_seen dims.now tc (seen element)) }
{
    made(both_arrays(alloc, dims, tc, element))
}

fn both_maps(
    alloc: Global,
    bound: u32,
    key_tc: Try,
    key: Sides,
    tc: Try,
    value: Sides,
) -> Result<Sides, OutOfMemory>
    ensures { IfOk result (λ s. seen s ≡ map_seen bound key_tc (seen key) tc (seen value)) }
{
    let plain = value.plain && key.plain;
    let Sides {
        plain: _,
        minimal: minimal_key,
        complete: complete_key,
    } = key;
    let Sides {
        plain: _,
        minimal,
        complete,
    } = value;
    let minimal = map_in(
        alloc,
        ek_of(false, plain),
        bound,
        key_tc,
        minimal_key,
        tc,
        minimal,
    )?;
    let complete = map_in(
        alloc,
        ek_of(true, plain),
        bound,
        key_tc,
        complete_key,
        tc,
        complete,
    )?;
    Ok(Sides {
        plain,
        minimal,
        complete,
    })
}

pub(crate) fn of_map(
    alloc: Global,
    bound: u32,
    key_tc: Try,
    key: Sides,
    tc: Try,
    value: Sides,
) -> Result<Sides, PoolFault>
    ensures { Makes seen result (map_seen bound key_tc (seen key) tc (seen value)) }
{
    made(both_maps(alloc, bound, key_tc, key, tc, value))
}
