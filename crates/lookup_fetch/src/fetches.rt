//! The fetch of objects over a link.
ghost use Rattle.std.specs.Prelude.{◌≡◌, IfOk};
ghost use Rattle.std.specs.List.{All};
ghost use Rattle.type_lookup.specs.messages.Spelling.{IsKnownId};
ghost use Rattle.lookup_fetch.specs.Plans.{IsOwn};
ghost use Rattle.lookup_fetch.specs.Fetches.{FetchesOver, HasFetchCause};

use crate::faults::FetchFault;
use crate::rounds::round;
use std::alloc::Global;
use type_lookup::messages::Fetched;
use type_object::Pool;
use type_trees::HashId;
use xt_io::Link;
use xt_lists::Row;

/// The most rounds: each but the last brings an object at least, and at most 4,096 are held.
const MOST_ROUNDS: u32 = 4097;

/// Fetches the objects of these identifiers, which have the kind 0xF1 or 0xF2, and all that they refer to, first visit first: depth first
/// from each identifier in order, an object before those that it refers to, in the order of its text. It asks by getTypes
/// (DDS-XTypes 1.3, 7.6.3.3) in rounds, each for the first at most 64 identifiers that it still lacks, under the tags 1, 2 and so on.
///
/// LinkFault comes only where the link's count of faults rose. BadReply comes where what came is no reply to the request, is cut, or carries an
/// object that was not asked for in this round, that comes again in the reply or that is no object's text, WrongHash where an object came
/// under another identifier than its own, NotServed where a round brought nothing, TooMany where more than 4,096 identifiers were met, and
/// OutOfMemory for want of memory. After a fault the link is not used again.
///
/// From a session that has all of the objects it comes to them, unless the link fails or memory is wanting: `fetches_complete` of type_mirror
/// is the law.
pub fn fetch<L: Link>(
    alloc: Global,
    link: &mut L,
    ids: &[HashId],
) -> Result<Row<Fetched>, FetchFault>
    requires { All IsKnownId ids.now }
    // What was sent and what is answered are those of the rounds for the messages that were read.
    ensures fetches { FetchesOver ids.now (L.got link.old) (L.got link.new) (L.left link.old) (L.left link.new) (L.taken link.old) (L.taken link.new) result }

    // Each object has the identifier that is its own.
    ensures own { IfOk result (All IsOwn) }
    ensures cause { HasFetchCause (L.faults link.old) (L.faults link.new) result }
    ensures same { L.name link.new ≡ L.name link.old }
{
    let mut held = Pool::new(alloc);
    'rounds: for tag in 1..MOST_ROUNDS + 1 {
        let last = round(alloc, link, &mut held, tag, ids)?;
        if let Some(objects) = last {
            return Ok(objects);
        }
    }
    Err(FetchFault::OutOfMemory)
}
