//! How many octets a message is spelled in, before it is spelled.
ghost use Rattle.std.specs.Prelude.{◌≡◌, ◌≤◌, length};
ghost use Rattle.type_lookup.specs.messages.Spelling.{Keeps, KeepsLimits, counted_octets, payload_of};

use crate::messages::items::Item;
use crate::messages::messages::Message;
use xt_lists::Row;

/// The octets before a message's fields: the direction, the operation and the tag.
const HEAD: u64 = 9;

// A list's count and its items.
fn counted_size<T: Item>(row: &Row<T>) -> u64
    requires { Keeps T.keeps row.now }
    ensures exact { result ≡ length (counted_octets T.octets row.now) }
    ensures most { result ≤ 134237188 }
{
    let items = row.as_slice();
    let mut size = 4;
    'items: for item in items {
        size += item.size();
    }
    size
}

/// The octets of a message's payload. It takes no memory.
#[tactic(auto, unfolding(crate::specs::messages::Spelling::payload_of))]
pub fn payload_size(message: &Message) -> u64
    requires { KeepsLimits message.now }
    ensures { result ≡ length (payload_of message.now) }
{
    match message {
        Message::GetTypes { ids, .. } => HEAD + counted_size(ids),
        Message::GetTypeDependencies { ids, point, .. } => {
            HEAD + counted_size(ids) + 1 + point.len() as u64
        }
        Message::PutTypes { objects, .. } => HEAD + counted_size(objects),
        Message::Types { objects, .. } => HEAD + counted_size(objects),
        Message::Dependencies { needed, point, .. } => {
            HEAD + counted_size(needed) + 1 + point.len() as u64
        }
        Message::Put { outcomes, .. } => HEAD + 4 + outcomes.len() as u64,
    }
}
