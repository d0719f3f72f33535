//! What the replies to a push say.
ghost use Rattle.std.specs.Prelude.{◌≡◌, length, IfOk};
ghost use Rattle.object_formats.specs.Tables.{object_of};
ghost use Rattle.type_object.specs.Names.{named_by};
ghost use Rattle.lookup_fetch.specs.Rounds.{is_object as is_object_read};
ghost use Rattle.type_mirror.specs.told.Rounds.{outcomes_of, are_outcomes as are_outcomes_of, clash_of, clash_in as clash_in_objects, is_other as is_other_object};
ghost use Rattle.type_mirror.specs.Steps.{Says};

use crate::told::PushFault;
use std::alloc::Global;
use type_lookup::messages::{Fetched, Message};
use type_object::{ObjectFault, kind_of, read_object};
use type_registry::Naming;
use type_trees::HashId;
use xt_lists::{OutOfMemory, Text};

/// The outcome that says that an object is none.
const NO_OBJECT: u8 = 2;

/// The outcomes in a reply to the request under a tag to put so many objects.
pub(crate) fn outcomes_in(tag: u32, count: usize, reply: Message) -> Result<Text, PushFault>
    ensures says { Says (outcomes_of tag count reply) result }
    ensures count { IfOk result (λ outcomes. length outcomes ≡ count) }
{
    let Message::Put {
        tag: other,
        outcomes,
    } = reply
    else {
        return Err(PushFault::BadReply);
    };
    if other != tag {
        return Err(PushFault::BadReply);
    }
    if !are_outcomes(count, outcomes.octets()) {
        return Err(PushFault::BadReply);
    }
    Ok(outcomes)
}

/// Whether these are so many outcomes, of which none says that an object is none.
fn are_outcomes(count: usize, outcomes: &[u8]) -> bool
    ensures { result ≡ are_outcomes_of count outcomes.now }
{
    outcomes.len() == count && !outcomes.contains(&NO_OBJECT)
}

/// The other octets under an object's identifier, in a reply to the request under a tag.
pub(crate) fn clash_in<N: Naming>(
    alloc: Global,
    tag: u32,
    object: &Fetched,
    reply: &Message,
) -> Result<Text, PushFault>
    ensures { Says (clash_of N.name tag object.now reply.now) result }
{
    let Message::Types {
        tag: other,
        objects,
    } = reply
    else {
        return Err(PushFault::BadReply);
    };
    if *other != tag {
        return Err(PushFault::BadReply);
    }
    clash_among::<N>(alloc, object, objects.as_slice())
}

/// The other octets under an object's identifier, where these are one object that has them.
fn clash_among<N: Naming>(
    alloc: Global,
    object: &Fetched,
    objects: &[Fetched],
) -> Result<Text, PushFault>
    ensures { Says (clash_in_objects N.name object.now objects.now) result }
{
    if objects.len() != 1 {
        return Err(PushFault::BadReply);
    }
    let there = &objects[0];
    if !is_other::<N>(alloc, object, there)? {
        return Err(PushFault::BadReply);
    }
    Ok(Text::from_octets(alloc, there.octets.octets())?)
}

/// Whether there is another object than this one, under its identifier, which is the other one's kind and name.
fn is_other<N: Naming>(
    alloc: Global,
    object: &Fetched,
    there: &Fetched,
) -> Result<bool, OutOfMemory>
    ensures { IfOk result (λ other. other ≡ is_other_object N.name object.now there.now) }
{
    let octets = there.octets.octets();
    if !is_object(alloc, octets)? {
        return Ok(false);
    }
    let same = there.id == object.id;
    let own = there.id == named::<N>(octets);
    let other = octets != object.octets.octets();
    Ok(same && own && other)
}

/// Whether the octets are an object's text.
pub(crate) fn is_object(alloc: Global, octets: &[u8]) -> Result<bool, OutOfMemory>
    ensures { IfOk result (λ is. is ≡ is_object_read (object_of octets.now)) }
{
    match read_object(alloc, octets) {
        Ok(_) => Ok(true),
        Err(ObjectFault::Not { .. }) => Ok(false),
        Err(ObjectFault::OutOfMemory) => Err(OutOfMemory),
    }
}

/// The identifier of an object's text: its kind and its name.
pub(crate) fn named<N: Naming>(octets: &[u8]) -> HashId
    ensures { result ≡ named_by N.name octets.now }
{
    HashId {
        kind: kind_of(octets),
        hash: N::name_of(octets),
    }
}
