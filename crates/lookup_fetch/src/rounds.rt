//! A round of a fetch over a link.
ghost use Rattle.std.specs.Prelude.{◌≡◌, ◌≤◌, List, length, IfOk, IfSome};
ghost use Rattle.std.specs.List.{All};
ghost use Rattle.type_trees.specs.declared.types.HashId.{HashId};
ghost use Rattle.type_lookup.specs.declared.messages.messages.Message.TheVariants.{GetTypes};
ghost use Rattle.type_lookup.specs.messages.Spelling.{IsKnownId, HasFrame, HasHash};
ghost use Rattle.lookup_fetch.specs.declared.plan.Next.TheVariants.{Ask};
ghost use Rattle.lookup_fetch.specs.Rounds.{found_in, plan as plan_of};
ghost use Rattle.lookup_fetch.specs.Plans.{IsOwn, IsAsking};
ghost use Rattle.lookup_fetch.specs.Fetches.{HasFetchCause};
ghost use Rattle.lookup_fetch.specs.Steps.{ExchangesOver, AsksOver, RoundOver};

use crate::faults::FetchFault;
use crate::plan::{Next, plan};
use crate::replies::take_in;
use std::alloc::Global;
use type_lookup::messages::{Fetched, Message};
use type_lookup::{read_frame, write_frame};
use type_object::Pool;
use type_trees::HashId;
use xt_io::Link;
use xt_lists::{OutOfMemory, Row};

/// One round: asks for what is lacking, and holds the objects of the reply; Some where nothing is lacking.
pub(crate) fn round<L: Link>(
    alloc: Global,
    link: &mut L,
    held: &mut Pool,
    tag: u32,
    ids: &[HashId],
) -> Result<Option<Row<Fetched>>, FetchFault>
    requires { All IsKnownId ids.now }
    ensures round { RoundOver ids.now tag held.old held.new (L.got link.old) (L.got link.new) (L.left link.old) (L.left link.new) (L.taken link.old) (L.taken link.new) result }
    ensures own { IfOk result (λ objects. IfSome objects (All IsOwn)) }
    ensures cause { HasFetchCause (L.faults link.old) (L.faults link.new) result }
    ensures same { L.name link.new ≡ L.name link.old }
{
    let next = plan(alloc, held, ids)?;
    match next {
        Next::Many => Err(FetchFault::TooMany),
        Next::Whole(objects) => Ok(Some(objects)),
        Next::Ask(asked) => {
            ask(alloc, link, held, tag, asked.as_slice())?;
            Ok(None)
        }
    }
}

/// Asks for these identifiers, and holds the objects of the reply.
fn ask<L: Link>(
    alloc: Global,
    link: &mut L,
    held: &mut Pool,
    tag: u32,
    asked: &[HashId],
) -> Result<(), FetchFault>
    requires { IsAsking held.old asked.now }
    ensures asks { (ids : List HashId) → Ask asked.now ≡ plan_of (found_in held.old) ids → AsksOver ids tag held.old held.new (L.got link.old) (L.got link.new) (L.left link.old) (L.left link.new) (L.taken link.old) (L.taken link.new) result }
    ensures cause { HasFetchCause (L.faults link.old) (L.faults link.new) result }
    ensures same { L.name link.new ≡ L.name link.old }
{
    let request = request_of(alloc, tag, asked)?;
    let reply = exchange(alloc, link, &request)?;
    take_in(alloc, held, tag, asked, &reply)?;
    Ok(())
}

/// Sends a request and reads the next message.
fn exchange<L: Link>(alloc: Global, link: &mut L, request: &Message) -> Result<Message, FetchFault>
    requires { HasFrame request.now }
    ensures exchanges { ExchangesOver request.now (L.got link.old) (L.got link.new) (L.left link.old) (L.left link.new) (L.taken link.old) (L.taken link.new) result }
    ensures cause { HasFetchCause (L.faults link.old) (L.faults link.new) result }
    ensures same { L.name link.new ≡ L.name link.old }
{
    write_frame(alloc, link, request)?;
    let Some(reply) = read_frame(alloc, link)? else {
        return Err(FetchFault::BadReply);
    };
    Ok(reply)
}

/// The request for these identifiers.
fn request_of(alloc: Global, tag: u32, asked: &[HashId]) -> Result<Message, OutOfMemory>
    requires few { length asked.now ≤ 64 }
    requires kinds { All IsKnownId asked.now }
    ensures request { IfOk result (λ request. request ≡ GetTypes tag asked.now) }
    ensures frame { IfOk result HasFrame }
{
    let mut ids = Row::new(alloc);
    'asked: for id in asked {
        ids.push(copy_of(id))?;
    }
    Ok(Message::GetTypes { tag, ids })
}

/// The identifier, of which the hash has 14 octets.
fn copy_of(id: &HashId) -> HashId
    ensures same { result ≡ id.now }
    ensures hash { HasHash result }
{
    let _hash: &[u8] = &id.hash;
    *id
}
