//! Taking in the replies of a fetch.
ghost use Rattle.std.specs.Prelude.{◌≡◌, [], ◌∷◌, ◌++◌, None, true, false, map, cond, Some, IfErr, OnOk};
ghost use Rattle.object_formats.specs.Tables.{object_of};
ghost use Rattle.type_object.specs.References.{is_among};
ghost use Rattle.lookup_fetch.specs.declared.faults.FetchFault.TheVariants.{BadReply, WrongHash};
ghost use Rattle.lookup_fetch.specs.Rounds.{is_object, fault_of, fault_in, reply_fault, text_of, texts_in};
ghost use Rattle.lookup_fetch.specs.Taking.{AreNew, IsFault};

use crate::faults::FetchFault;
use std::alloc::Global;
use type_lookup::messages::{Fetched, Message};
use type_object::visits::Ids;
use type_object::{ObjectFault, Pool, PoolFault, named, read_object};
use type_trees::HashId;

/// Holds the objects of the reply to a request, or names the first fault of it.
pub(crate) fn take_in(
    alloc: Global,
    held: &mut Pool,
    tag: u32,
    asked: &[HashId],
    reply: &Message,
) -> Result<(), FetchFault>
    requires { AreNew held.old asked.now [] }
    ensures good { OnOk result (reply_fault tag asked.now reply.now ≡ None) }
    ensures held { OnOk result (held.new ≡ held.old ++ texts_in reply.now) }
    ensures fault { IfErr result (IsFault (reply_fault tag asked.now reply.now)) }
{
    let Message::Types {
        tag: other,
        objects,
    } = reply
    else {
        return Err(FetchFault::BadReply);
    };
    if *other != tag {
        return Err(FetchFault::BadReply);
    }
    if objects.len() == 0 {
        return match asked.first() {
            Some(id) => Err(FetchFault::NotServed(*id)),
            None => Ok(()),
        };
    }
    take_objects(alloc, held, asked, objects.as_slice())?;
    Ok(())
}

/// Holds the objects of a reply, or names the first fault of them.
fn take_objects(
    alloc: Global,
    held: &mut Pool,
    asked: &[HashId],
    objects: &[Fetched],
) -> Result<(), FetchFault>
    requires { AreNew held.old asked.now [] }
    ensures good { OnOk result (fault_in asked.now [] objects.now ≡ None) }
    ensures held { OnOk result (held.new ≡ held.old ++ map text_of objects.now) }
    ensures fault { IfErr result (IsFault (fault_in asked.now [] objects.now)) }
{
    let among = Ids::of(alloc, asked)?;
    let mut before = Ids::new(alloc);
    'objects: for object in objects {
        take_object(alloc, held, &among, &before, object)?;
        before.add(object.id)?;
    }
    Ok(())
}

/// Holds an object of a reply, or names its fault.
fn take_object(
    alloc: Global,
    held: &mut Pool,
    asked: &Ids,
    before: &Ids,
    object: &Fetched,
) -> Result<(), FetchFault>
    requires { AreNew held.old asked.now before.now }
    ensures good { OnOk result (fault_of asked.now before.now object.now ≡ None) }
    ensures new { OnOk result (is_among object.now.id before.now ≡ false) }
    ensures held { OnOk result (held.new ≡ held.old ++ text_of object.now ∷ []) }
    ensures fault { IfErr result (IsFault (fault_of asked.now before.now object.now)) }
{
    if !asked.contains(&object.id) {
        return Err(FetchFault::BadReply);
    }
    if before.contains(&object.id) {
        return Err(FetchFault::BadReply);
    }
    let octets = object.octets.octets();
    let got = named(octets);
    if object.id != got {
        return Err(misnamed(alloc, object.id, got, octets));
    }
    match held.add(octets) {
        Ok(_) => Ok(()),
        Err(PoolFault::Object(_)) => Err(FetchFault::BadReply),
        // That it is not held was seen before, and no more objects are held than were met.
        Err(PoolFault::Clash(_) | PoolFault::Full | PoolFault::OutOfMemory) => {
            Err(FetchFault::OutOfMemory)
        }
    }
}

/// The fault of a text that came under another identifier than its own.
fn misnamed(alloc: Global, id: HashId, got: HashId, octets: &[u8]) -> FetchFault
    ensures { IsFault (cond (is_object (object_of octets.now)) (Some (WrongHash id got)) (Some BadReply)) result }
{
    match read_object(alloc, octets) {
        Ok(_) => FetchFault::WrongHash { id, got },
        Err(ObjectFault::Not { .. }) => FetchFault::BadReply,
        Err(ObjectFault::OutOfMemory) => FetchFault::OutOfMemory,
    }
}
