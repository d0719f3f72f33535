//! The rounds of a push over a link: one request and its reply each.
ghost use Rattle.std.specs.Prelude.{◌≡◌, ◌≤◌, ◌<◌, ◌+◌, ◌^◌, length, IfOk};
ghost use Rattle.std.specs.List.{All};
ghost use Rattle.type_lookup.specs.messages.Spelling.{HasFrame, IsKnownId};
ghost use Rattle.lookup_fetch.specs.Steps.{ExchangesOver};
ghost use Rattle.type_mirror.specs.told.Rounds.{what_of as what_of_outcome, count_of as count_of_next};
ghost use Rattle.type_mirror.specs.told.Pushes.{HasPushCause};
ghost use Rattle.type_mirror.specs.Steps.{as_fetch, PutsNext, GetsOther, Settles, TellsAll};
ghost use Rattle.type_mirror.specs.Objects.{IsShort};

use crate::replies::{clash_in, outcomes_in};
use crate::requests::{count_of, get_request, put_request};
use crate::told::{PushFault, Told, What};
use std::alloc::Global;
use type_lookup::messages::{Fetched, Message};
use type_lookup::{read_frame, write_frame};
use type_registry::Naming;
use xt_io::Link;
use xt_lists::{Row, Text};

/// Puts as many of the next objects as a request has room for: the outcome of each of these.
pub(crate) fn put<L: Link>(
    alloc: Global,
    link: &mut L,
    tag: u32,
    objects: &[Fetched],
) -> Result<Text, PushFault>
    requires short { All IsShort objects.now }
    requires some { 0 < length objects.now }
    ensures goes { PutsNext tag objects.now (L.got link.old) (L.got link.new) (L.left link.old) (L.left link.new) (L.taken link.old) (L.taken link.new) result }
    ensures count { IfOk result (λ outcomes. length outcomes ≡ count_of_next objects.now) }
    ensures cause { HasPushCause (L.faults link.old) (L.faults link.new) result }
    ensures same { L.name link.new ≡ L.name link.old }
{
    let count = count_of(objects);
    let request = put_request(alloc, tag, &objects[..count])?;
    let reply = exchange(alloc, link, &request)?;
    outcomes_in(tag, count, reply)
}

/// Asks for the object that the peer has under an object's identifier: its octets.
fn get_other<N: Naming, L: Link>(
    alloc: Global,
    link: &mut L,
    tag: u32,
    object: &Fetched,
) -> Result<Text, PushFault>
    requires { IsKnownId object.now.id }
    ensures goes { GetsOther N.name tag object.now (L.got link.old) (L.got link.new) (L.left link.old) (L.left link.new) (L.taken link.old) (L.taken link.new) result }
    ensures cause { HasPushCause (L.faults link.old) (L.faults link.new) result }
    ensures same { L.name link.new ≡ L.name link.old }
{
    let request = get_request(alloc, tag, &object.id)?;
    let reply = exchange(alloc, link, &request)?;
    clash_in::<N>(alloc, tag, object, &reply)
}

/// What became of an object with this outcome; where it clashed, the peer is asked for its own.
fn what_of<N: Naming, L: Link>(
    alloc: Global,
    link: &mut L,
    tag: &mut u32,
    object: &Fetched,
    outcome: u8,
) -> Result<What, PushFault>
    requires known { IsKnownId object.now.id }
    requires room { tag.old + 1 < 2 ^ 32 }
    ensures goes { Settles N.name tag.old object.now outcome tag.new (L.got link.old) (L.got link.new) (L.left link.old) (L.left link.new) (L.taken link.old) (L.taken link.new) result }
    ensures most { tag.new ≤ tag.old + 1 }
    ensures cause { HasPushCause (L.faults link.old) (L.faults link.new) result }
    ensures same { L.name link.new ≡ L.name link.old }
{
    if outcome != 3 {
        return Ok(told_at_once(outcome));
    }
    let at = *tag;
    *tag += 1;
    let octets = get_other::<N, L>(alloc, link, at, object)?;
    Ok(What::Clash(octets))
}

/// What an outcome tells without a further request: 0 that the peer took the object, 1 that it had it, else that it has no room.
fn told_at_once(outcome: u8) -> What
    ensures { result ≡ what_of_outcome outcome }
{
    match outcome {
        0 => What::Added,
        1 => What::Known,
        _ => What::Full,
    }
}

/// Tells what became of objects that were put, by their outcomes.
pub(crate) fn tell<N: Naming, L: Link>(
    alloc: Global,
    link: &mut L,
    tag: &mut u32,
    told: &mut Row<Told>,
    objects: &[Fetched],
    outcomes: &[u8],
) -> Result<(), PushFault>
    requires known { All (λ object. IsKnownId object.id) objects.now }
    requires count { length outcomes.now ≡ length objects.now }
    requires room { tag.old + length objects.now < 2 ^ 32 }
    ensures goes { TellsAll N.name tag.old told.old objects.now outcomes.now tag.new told.new (L.got link.old) (L.got link.new) (L.left link.old) (L.left link.new) (L.taken link.old) (L.taken link.new) result }
    ensures most { tag.new ≤ tag.old + length objects.now }
    ensures cause { HasPushCause (L.faults link.old) (L.faults link.new) result }
    ensures same { L.name link.new ≡ L.name link.old }
{
    'objects: for index in 0..objects.len() {
        let object = &objects[index];
        let what = what_of::<N, L>(alloc, link, tag, object, outcomes[index])?;
        told.push(Told {
            id: object.id,
            what,
        })?;
    }
    Ok(())
}

/// Sends a request and reads the next message.
fn exchange<L: Link>(alloc: Global, link: &mut L, request: &Message) -> Result<Message, PushFault>
    requires { HasFrame request.now }
    ensures exchanges { ExchangesOver request.now (L.got link.old) (L.got link.new) (L.left link.old) (L.left link.new) (L.taken link.old) (L.taken link.new) (as_fetch result) }
    ensures cause { HasPushCause (L.faults link.old) (L.faults link.new) result }
    ensures same { L.name link.new ≡ L.name link.old }
{
    write_frame(alloc, link, request)?;
    let Some(reply) = read_frame(alloc, link)? else {
        return Err(PushFault::BadReply);
    };
    Ok(reply)
}
