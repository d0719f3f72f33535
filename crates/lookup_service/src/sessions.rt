//! The session over a link.
ghost use Rattle.std.specs.Prelude.{◌≡◌, ◌≤◌, true, ℕ, List, length, IfOk, IfErr};
ghost use Rattle.std.specs.Io.KnownBytes.{append_known};
ghost use Rattle.type_lookup.specs.messages.Spelling.{HasFrame, frame_of};
ghost use Rattle.type_registry.specs.Passed.{Grows};
ghost use Rattle.lookup_service.specs.replies.Replies.{is_request as is_request_message};
ghost use Rattle.lookup_service.specs.States.{IsStep};
ghost use Rattle.lookup_service.specs.Sessions.{SessionOver, GatedOver, HasSessionCause, IsPrefix, end_of};
ghost use Rattle.lookup_service.specs.Requests.{ReadsRequest, Replies, BreaksOff, IsFromOutside};

use crate::ended::Ended;
use crate::gate::Gate;
use crate::replies::answer;
use std::alloc::Global;
use type_lookup::{FrameFault, Message, payload_size, read_frame, write_frame};
use type_registry::{Naming, Pass, Registry};
use xt_io::Link;
use xt_lists::OutOfMemory;

/// The most requests of a session.
const MOST_REQUESTS: u64 = 65_536;

/// The octets of a frame in front of its payload.
const FRAME_HEAD: u64 = 4;

/// Answers the requests that come over a link, in order, over what the pass knows: Closed where the peer ended between two frames,
/// BadFrame at the first that is no request's, Limit after 65,536 requests, LinkFault only where the link's count of faults rose. The
/// gate is called before each reply. After BadFrame, LinkFault and OutOfMemory the link is not used again. The requests and what they
/// ask for are those of DDS-XTypes 1.3, 7.6.3.3.
pub fn session<'r, N: Naming, L: Link, G: Gate>(
    alloc: Global,
    registry: &'r Registry<N>,
    pass: &mut Pass<'r, N>,
    link: &mut L,
    gate: &G,
) -> Ended
    requires { pass.old.registry ≡ registry.now }

    // What was sent is the replies to the requests that were read, each by a state of the pass of its own; a beginning of them, where the
    // link failed or memory was wanting.
    ensures session { SessionOver N.name pass.old pass.new (L.got link.old) (L.got link.new) (L.left link.old) (L.left link.new) (L.taken link.old) (L.taken link.new) result }

    // The gate was asked for each of these replies by its number, also for one that was sent in part.
    ensures gate { GatedOver (G.asked gate.now) N.name pass.old pass.new (L.got link.old) (L.got link.new) (L.left link.old) (L.left link.new) (L.taken link.old) (L.taken link.new) result }
    ensures cause { HasSessionCause (L.faults link.old) (L.faults link.new) result }
    ensures same { L.name link.new ≡ L.name link.old }
    ensures grows { Grows pass.old pass.new }
{
    let mut at = 0u64;
    'requests: for number in 0..MOST_REQUESTS {
        let request = match next_request(alloc, link, at) {
            Ok(request) => request,
            Err(ended) => return ended,
        };
        if let Err(ended) = answer_request(alloc, registry, pass, link, gate, number, &request) {
            return ended;
        }
        at += frame_size(&request);
    }
    Ended::Limit
}

/// The next request, whose frame begins at this octet of the session's input; or how the session ends there.
fn next_request<L: Link>(alloc: Global, link: &mut L, at: u64) -> Result<Message, Ended>
    ensures octets { ReadsRequest (L.got link.old) (L.got link.new) (L.left link.old) (L.left link.new) at result }
    ensures frame { IfOk result HasFrame }
    ensures taken { L.taken link.new ≡ L.taken link.old }
    ensures later { L.faults link.old ≤ L.faults link.new }
    ensures cause { IfErr result (HasSessionCause (L.faults link.old) (L.faults link.new)) }
    ensures same { L.name link.new ≡ L.name link.old }
{
    let request = match read_frame(alloc, link) {
        Ok(Some(request)) => request,
        Ok(None) => return Err(Ended::Closed),
        Err(fault) => return Err(ended_by(fault, at)),
    };
    if is_request(&request) {
        Ok(request)
    } else {
        Err(Ended::BadFrame { at })
    }
}

/// Answers a request, the gate being asked for its number before the reply is sent; or says how the session ends.
fn answer_request<'r, N: Naming, L: Link, G: Gate>(
    alloc: Global,
    registry: &'r Registry<N>,
    pass: &mut Pass<'r, N>,
    link: &mut L,
    gate: &G,
    number: u64,
    request: &Message,
) -> Result<(), Ended>
    requires registry { pass.old.registry ≡ registry.now }
    requires request { is_request_message request.now ≡ true }
    requires frame { HasFrame request.now }
    ensures whole { IfOk result (λ _. Replies (G.asked gate.now) N.name pass.old pass.new request.now number (L.taken link.old) (L.taken link.new)) }
    ensures broken { IfErr result (BreaksOff (G.asked gate.now) N.name pass.old pass.new request.now number (L.taken link.old) (L.taken link.new)) }
    ensures grows { Grows pass.old pass.new }
    ensures got { L.got link.new ≡ L.got link.old }
    ensures left { L.left link.new ≡ L.left link.old }
    ensures later { L.faults link.old ≤ L.faults link.new }
    ensures cause { IfErr result (HasSessionCause (L.faults link.old) (L.faults link.new)) }
    ensures same { L.name link.new ≡ L.name link.old }
{
    let Ok(reply) = reply_to(alloc, registry, pass, request) else {
        return Err(Ended::OutOfMemory);
    };
    gate.before_reply(number);
    send(alloc, link, &reply, gate, number)
}

/// The reply to a request, by what the pass knows then.
fn reply_to<'r, N: Naming>(
    alloc: Global,
    registry: &'r Registry<N>,
    pass: &mut Pass<'r, N>,
    request: &Message,
) -> Result<Message, OutOfMemory>
    requires registry { pass.old.registry ≡ registry.now }
    requires request { is_request_message request.now ≡ true }
    requires frame { HasFrame request.now }
    ensures step { IfOk result (λ reply. IsStep N.name pass.old pass.new request.now reply) }
    ensures grows { Grows pass.old pass.new }
{
    let message = answer(alloc, registry, pass, request)?;
    pass.holds();
    Ok(message)
}

/// Sends the reply to the request of this number, for which the gate was asked before.
fn send<L: Link, G: Gate>(
    alloc: Global,
    link: &mut L,
    reply: &Message,
    _gate: &G,
    _number: u64,
) -> Result<(), Ended>
    requires asked { G.asked _gate.now _number }
    requires frame { HasFrame reply.now }
    ensures whole { IfOk result (λ _. L.taken link.new ≡ append_known (L.taken link.old) (frame_of reply.now)) }
    ensures prefix { IfErr result (λ _. (some : List ℕ) × IsPrefix some (frame_of reply.now) × (L.taken link.new ≡ append_known (L.taken link.old) some)) }
    ensures outside { IfErr result IsFromOutside }
    ensures got { L.got link.new ≡ L.got link.old }
    ensures left { L.left link.new ≡ L.left link.old }
    ensures later { L.faults link.old ≤ L.faults link.new }
    ensures cause { IfErr result (HasSessionCause (L.faults link.old) (L.faults link.new)) }
    ensures same { L.name link.new ≡ L.name link.old }
{
    match write_frame(alloc, link, reply) {
        Ok(()) => Ok(()),
        Err(fault) => Err(ended_by(fault, 0)),
    }
}

/// How a session ends by the fault of a frame that begins at this octet.
fn ended_by(fault: FrameFault, at: u64) -> Ended
    ensures { result ≡ end_of fault at }
{
    match fault {
        FrameFault::LinkFault => Ended::LinkFault,
        FrameFault::OutOfMemory => Ended::OutOfMemory,
        FrameFault::Truncated | FrameFault::TooLong { .. } | FrameFault::BadMessage { .. } => {
            Ended::BadFrame { at }
        }
    }
}

/// The octets of a message's frame.
fn frame_size(message: &Message) -> u64
    requires { HasFrame message.now }
    ensures size { result ≡ length (frame_of message.now) }
    ensures bound { result ≤ 262148 }
{
    FRAME_HEAD + payload_size(message)
}

fn is_request(message: &Message) -> bool
    ensures { result ≡ is_request_message message.now }
{
    match message {
        Message::GetTypes { .. } | Message::GetTypeDependencies { .. } | Message::PutTypes { .. } =>
            true,
        Message::Types { .. } | Message::Dependencies { .. } | Message::Put { .. } => false,
    }
}
