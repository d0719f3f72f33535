ghost use Rattle.std.specs.Prelude.{◌≡◌, ◌++◌, ◌∷◌, [], true, map, IfErr, OnOk};
ghost use Rattle.idl_types.specs.Definitions.{declared, all_fit};
ghost use Rattle.idl_types.specs.Kept.{all_valid};
ghost use Rattle.type_resolve.specs.Definitions as spec;
ghost use Rattle.type_resolve.specs.Views.{Stores, hashes_seen};

use crate::adding::made;
use crate::definitions::add_declaration;
use crate::numbers::Numbers;
use crate::sides::Identifiers;
use idl_types::Declaration;
use std::alloc::Global;
use type_object::{Pool, PoolFault};
use xt_lists::Row;

fn push_ids(ids: &mut Row<Identifiers>, own: Identifiers) -> Result<(), PoolFault>
    ensures ok { OnOk result (ids.new ≡ ids.old ++ own ∷ []) }
    ensures only_memory { IfErr result (λ fault. fault ≡ PoolFault.OutOfMemory) }
{
    made(ids.push(own))
}

/// Adds the objects of the types that declarations declare, one type after another, each as `objects_of` does, and gives their identifiers
/// (DDS-XTypes 1.3, 7.3.4). A definition names the types before it by their identifiers, so that nothing that it uses is made again.
///
/// The faults are those of `objects_of`, at the first text that the pool refuses; the objects before it stay in the pool.
pub fn objects_declared(
    alloc: Global,
    types: &[Declaration],
    pool: &mut Pool,
) -> Result<Row<Identifiers>, PoolFault>
    requires valid { all_valid (declared types.now) ≡ true }
    requires fits { all_fit types.now ≡ true }
    ensures { Stores (λ ids. map hashes_seen ids) result pool.old (spec.types_texts (declared types.now)) pool.new (spec.types_sides (declared types.now)) }
{
    let mut ids = Row::new(alloc);
    let mut numbers = Numbers::new(alloc);
    for at in 0..types.len() {
        let before = &types[..at];
        let own = add_declaration(
            alloc,
            before,
            ids.as_slice(),
            &types[at],
            &mut numbers,
            pool,
        )?;
        push_ids(&mut ids, own)?;
    }
    Ok(ids)
}
