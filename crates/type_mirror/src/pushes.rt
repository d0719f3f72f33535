//! The push of objects over a link.
ghost use Rattle.std.specs.Prelude.{◌≡◌, ◌≤◌, ◌<◌, ◌+◌, ◌^◌, length, drop, IfOk};
ghost use Rattle.std.specs.List.{All};
ghost use Rattle.type_mirror.specs.told.Laws.{TellsInOrder, TellsReplies, TellsLast, GivesAll, MakesEven};
ghost use Rattle.type_mirror.specs.told.Pushes.{IsOwn, MayPush, PushesOver, HasPushCause};
ghost use Rattle.type_mirror.specs.Steps.{telling, GoesOver};

use crate::rounds::{put, tell};
use crate::told::{PushFault, Told, pushes_tell};
use std::alloc::Global;
use type_lookup::messages::Fetched;
use type_registry::Naming;
use xt_io::Link;
use xt_lists::Row;

/// Pushes objects to the peer of a link, and tells what became of each, in order. There are at most 4,096 objects, each an object's text under its
/// kind and name, and their identifiers are distinct. It asks by putTypes, with as many of the next objects as the frame and the count of 1,024
/// allow, and after each reply by getTypes (DDS-XTypes 1.3, 7.6.3.3) for each object that clashed, one identifier at a time, in order. The
/// tags are 1, 2 and so on over all its requests. Where there is no object nothing is sent.
///
/// LinkFault comes only where the link's count of faults rose. BadReply comes where what came is no reply to the request, doesn't parse or is
/// cut, where a reply has another number of outcomes than objects or an outcome that says that an object is none, and where the reply
/// after a clash isn't one object under that identifier, which is its kind and name, well formed and with other octets. OutOfMemory comes
/// for want of memory. After a fault the link is not used again.
pub fn push<N: Naming, L: Link>(
    alloc: Global,
    objects: &Row<Fetched>,
    link: &mut L,
) -> Result<Row<Told>, PushFault>
    requires { MayPush N.name objects.now }
    // What was sent and what is answered are those of the rounds for the messages that were read.
    ensures pushes { PushesOver N.name objects.now (L.got link.old) (L.got link.new) (L.left link.old) (L.left link.new) (L.taken link.old) (L.taken link.new) result }
    ensures cause { HasPushCause (L.faults link.old) (L.faults link.new) result }
    ensures same { L.name link.new ≡ L.name link.old }
    // What the rounds tell has one entry an object, in order.
    ensures order { TellsInOrder }
    // It is what the replies that were read say of each object.
    ensures replies { TellsReplies }
    // Where the replies are those of one session, it holds of the session's last state.
    ensures session { TellsLast }
    // With neither a clash nor a want of room the peer knows every object; and after a push in each direction both sides know all.
    ensures good { GivesAll }
    ensures both { MakesEven }
{
    pushes_tell();
    let mut told = Row::new(alloc);
    let mut tag = 1;
    let mut rest = objects.as_slice();
    'batches: while !rest.is_empty() {
        let count = push_batch::<N, L>(alloc, link, &mut tag, &mut told, rest)?;
        rest = &rest[count..];
    }
    Ok(told)
}

/// Puts as many of these objects as a request has room for, and tells what became of each: how many they are.
fn push_batch<N: Naming, L: Link>(
    alloc: Global,
    link: &mut L,
    tag: &mut u32,
    told: &mut Row<Told>,
    objects: &[Fetched],
) -> Result<usize, PushFault>
    requires own { All (IsOwn N.name) objects.now }
    requires some { 0 < length objects.now }
    requires room { tag.old + 2 + length objects.now < 2 ^ 32 }
    ensures goes { GoesOver N.name tag.old (telling told.old objects.now) tag.new (λ count. telling told.new (drop count objects.now)) (L.got link.old) (L.got link.new) (L.left link.old) (L.left link.new) (L.taken link.old) (L.taken link.new) result }
    ensures some { IfOk result (λ count. 0 < count) }
    ensures within { IfOk result (λ count. count ≤ length objects.now) }
    ensures most { IfOk result (λ count. tag.new ≤ tag.old + 1 + count) }
    ensures cause { HasPushCause (L.faults link.old) (L.faults link.new) result }
    ensures same { L.name link.new ≡ L.name link.old }
{
    let outcomes = put(alloc, link, *tag, objects)?;
    *tag += 1;
    let count = outcomes.len();
    tell::<N, L>(alloc, link, tag, told, &objects[..count], outcomes.octets())?;
    Ok(count)
}
