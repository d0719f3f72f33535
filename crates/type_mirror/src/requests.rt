//! The requests of a push.
ghost use Rattle.std.specs.Prelude.{◌≡◌, ◌≤◌, ◌∷◌, [], length, map, IfOk};
ghost use Rattle.std.specs.List.{All};
ghost use Rattle.type_lookup.specs.declared.messages.messages.Message.TheVariants.{PutTypes, GetTypes};
ghost use Rattle.type_lookup.specs.messages.Spelling.{HasFrame, HasHash, IsKnownId, all_octets, object_octets};
ghost use Rattle.type_mirror.specs.told.Rounds.{count_of as count_of_next, octets_of};
ghost use Rattle.type_mirror.specs.Objects.{IsShort};

use std::alloc::Global;
use type_lookup::messages::{Fetched, Message};
use type_trees::HashId;
use xt_lists::{OutOfMemory, Row, Text};

/// The most objects of a request.
const MOST_OBJECTS: usize = 1024;

/// The octets of a payload that are left for the objects and their lengths.
const ROOM: usize = 262_131;

/// The octets of a length.
const LENGTH: usize = 4;

/// How many of these objects a request has.
pub(crate) fn count_of(objects: &[Fetched]) -> usize
    requires { All IsShort objects.now }
    ensures { result ≡ count_of_next objects.now }
{
    let mut room = ROOM;
    let mut count = 0;
    'objects: for object in objects {
        let size = size_of(object);
        if count >= MOST_OBJECTS {
            return count;
        }
        if size > room {
            return count;
        }
        room -= size;
        count += 1;
    }
    count
}

/// The octets of an object's length and of the object.
fn size_of(object: &Fetched) -> usize
    requires { IsShort object.now }
    ensures exact { result ≡ length (object_octets object.now.octets) }
    ensures most { result ≤ 131076 }
{
    LENGTH + object.octets.len()
}

/// The request to put these objects.
pub(crate) fn put_request(
    alloc: Global,
    tag: u32,
    objects: &[Fetched],
) -> Result<Message, OutOfMemory>
    requires short { All IsShort objects.now }
    requires few { length objects.now ≤ 1024 }
    requires fits { length (all_octets object_octets (map octets_of objects.now)) ≤ 262131 }
    ensures request { IfOk result (λ request. request ≡ PutTypes tag (map octets_of objects.now)) }
    ensures frame { IfOk result HasFrame }
{
    let mut texts = Row::new(alloc);
    'objects: for object in objects {
        texts.push(Text::from_octets(alloc, object.octets.octets())?)?;
    }
    Ok(Message::PutTypes {
        tag,
        objects: texts,
    })
}

/// The request for the object of an identifier.
pub(crate) fn get_request(alloc: Global, tag: u32, id: &HashId) -> Result<Message, OutOfMemory>
    requires { IsKnownId id.now }
    ensures request { IfOk result (λ request. request ≡ GetTypes tag (id.now ∷ [])) }
    ensures frame { IfOk result HasFrame }
{
    let mut ids = Row::new(alloc);
    let id = copy_of(id);
    ids.push(id)?;
    Ok(Message::GetTypes { tag, ids })
}

/// The identifier, of which the hash has 14 octets.
fn copy_of(id: &HashId) -> HashId
    ensures same { result ≡ id.now }
    ensures hash { HasHash result }
{
    let _hash: &[u8] = &id.hash;
    *id
}
