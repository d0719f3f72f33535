ghost use Rattle.std.specs.Prelude.{◌≡◌, true, IfOk};
ghost use Rattle.type_registry.specs.Passed.{known, Grows};
ghost use Rattle.type_lookup.specs.messages.Spelling.{HasFrame, IsPoint};
ghost use Rattle.lookup_service.specs.replies.Replies.{IsReply, is_request, depends, dependencies as dependencies_of, index_of as index_of_point};

use crate::replies::gets::objects;
use crate::replies::pages::{entries, index_of, listed, page_ids, point_after};
use crate::replies::puts::outcomes;
use std::alloc::Global;
use type_lookup::messages::Message;
use type_registry::{Naming, Pass, Registry};
use type_trees::HashId;
use xt_lists::{OutOfMemory, Text};

/// The reply to a request, over what the pass knows when the call returns: whatever is found in the registry for it is remembered by the
/// pass first. After want of memory the pass may know more than before.
pub fn answer<'r, N: Naming>(
    alloc: Global,
    registry: &'r Registry<N>,
    pass: &mut Pass<'r, N>,
    request: &Message,
) -> Result<Message, OutOfMemory>
    requires registry { pass.old.registry ≡ registry.now }
    requires request { is_request request.now ≡ true }
    requires frame { HasFrame request.now }
    ensures reply { IfOk result (λ message. IsReply N.name (known pass.old) pass.new request.now message) }
    ensures frame { IfOk result HasFrame }
    ensures grows { Grows pass.old pass.new }
{
    match request {
        Message::GetTypes { tag, ids } => Ok(Message::Types {
            tag: *tag,
            objects: objects(alloc, registry, pass, ids.as_slice())?,
        }),
        Message::GetTypeDependencies { tag, ids, point } => {
            dependencies(alloc, registry, pass, *tag, ids.as_slice(), point)
        }
        Message::PutTypes { tag, objects } => Ok(Message::Put {
            tag: *tag,
            outcomes: outcomes(alloc, registry, pass, objects.as_slice())?,
        }),
        Message::Types { .. } | Message::Dependencies { .. } | Message::Put { .. } => {
            unreachable!()
        }
    }
}

fn dependencies<'r, N: Naming>(
    alloc: Global,
    registry: &'r Registry<N>,
    pass: &mut Pass<'r, N>,
    tag: u32,
    ids: &[HashId],
    point: &Text,
) -> Result<Message, OutOfMemory>
    requires registry { pass.old.registry ≡ registry.now }
    requires point { IsPoint point.now }
    ensures reply { IfOk result (λ message. message ≡ dependencies_of (known pass.new) tag (depends (known pass.new) ids.now) (index_of_point point.now)) }
    ensures frame { IfOk result HasFrame }
    ensures grows { Grows pass.old pass.new }
{
    let listed = listed(alloc, registry, pass, ids)?;
    let index = index_of(point);
    let needed = entries(alloc, registry, pass, page_ids(listed.as_slice(), index))?;
    let point = point_after(alloc, listed.len(), index)?;
    Ok(Message::Dependencies { tag, needed, point })
}
