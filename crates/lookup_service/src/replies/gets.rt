ghost use Rattle.std.specs.Prelude.{◌≡◌, ◌≤◌, ◌+◌, length, IfOk};
ghost use Rattle.std.specs.List.{All};
ghost use Rattle.type_registry.specs.Passed.{known, Grows};
ghost use Rattle.type_trees.specs.Ids.{id_octets};
ghost use Rattle.type_lookup.specs.messages.Spelling.{IsKnownId, IsFetched, fetched_octets, all_octets};
ghost use Rattle.lookup_service.specs.replies.Replies.{served};

use crate::replies::look_up::fetched_of;
use std::alloc::Global;
use type_lookup::messages::Fetched;
use type_object::visits::Ids;
use type_registry::{Naming, Pass, Registry};
use type_trees::HashId;
use xt_lists::{OutOfMemory, Row};

/// The octets that the objects of a reply may take: those of the largest payload, without the fields before the objects.
const MOST_OCTETS: usize = 262_131;

/// The known objects of these identifiers, each once, in front of the first that has no room.
pub(crate) fn objects<'r, N: Naming>(
    alloc: Global,
    registry: &'r Registry<N>,
    pass: &mut Pass<'r, N>,
    ids: &[HashId],
) -> Result<Row<Fetched>, OutOfMemory>
    requires registry { pass.old.registry ≡ registry.now }
    requires known { All IsKnownId ids.now }
    ensures served { IfOk result (λ objects. objects ≡ served (known pass.new) ids.now) }
    ensures grows { Grows pass.old pass.new }
    ensures fetched { IfOk result (λ objects. All IsFetched objects) }
    ensures few { IfOk result (λ objects. length objects ≤ length ids.now) }
    ensures fits { IfOk result (λ objects. length (all_octets fetched_octets objects) ≤ 262131) }
{
    let mut tried = Ids::new(alloc);
    let mut objects = Row::new(alloc);
    let mut room = MOST_OCTETS;
    'asked: for id in ids {
        if tried.contains(id) {
            continue;
        }
        tried.add(*id)?;
        let Some(object) = fetched_of(alloc, registry, pass, id)? else {
            continue;
        };
        let size = head_size(id) + object.octets.len();
        if room < size {
            return Ok(objects);
        }
        room -= size;
        objects.push(object)?;
    }
    Ok(objects)
}

/// The octets of an identifier and a length.
fn head_size(id: &HashId) -> usize
    ensures size { result ≡ length (id_octets id.now) + 4 }
    ensures hash { length id.now.hash ≡ 14 }
    ensures sum { result ≡ 19 }
{
    let hash: &[u8] = &id.hash;
    1 + hash.len() + 4
}
