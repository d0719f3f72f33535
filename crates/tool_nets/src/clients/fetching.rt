//! Fetching an object and all that it refers to.
ghost use Rattle.std.specs.Prelude.{◌≡◌, Err, IfOk, IsErrOf, codes, map};
ghost use Rattle.xt_io.specs.Outside.{Rose};
ghost use Rattle.xt_io.specs.declared.NetFault.TheVariants.{Failed};
ghost use Rattle.type_lookup.specs.messages.Spelling.{IsKnownId};
ghost use Rattle.tool_runs.specs.output.Runs.{Ends, HaltsWriting};
ghost use Rattle.tool_runs.specs.Commands.{only};
ghost use Rattle.tool_nets.specs.Nets.{EndsIn, net_of};
ghost use Rattle.tool_nets.specs.clients.Lines as lines;
ghost use Rattle.tool_nets.specs.clients.Saying.{Says};
ghost use Rattle.tool_nets.specs.clients.Clients.{FetchAllows, FetchCame};

use crate::clients::saying::{refuse_peer, say_piece};
use crate::end_failed;
use lookup_fetch::{FetchFault, fetch};
use std::alloc::Global;
use tool_runs::output::{Ending, Halt, Style, record};
use type_lookup::messages::Fetched;
use type_trees::HashId;
use xt_io::{Kind, Net, NetFault, Sink};
use xt_lists::{OutOfMemory, Row, Text, Word};

/// Fetches the object of an identifier, whose kind is 0xF1 or 0xF2, and all that it refers to from the peer of an address, and writes them as
/// Object records, first visit first. It reads no input. What a peer sends in vain is refused by a Note: `fetch bad-reply`,
/// `fetch wrong-hash ID GOT`, `fetch not-served ID` or `fetch too-many`. Where the net or the link fails the Note is `net-fault`. The link is given
/// back first.
pub fn fetch_from<K: Sink, N: Net>(
    alloc: Global,
    to: &Word,
    id: HashId,
    sink: &mut K,
    net: &mut N,
) -> Result<Ending, Halt>
    requires { IsKnownId id }
    ensures output { EndsIn (FetchAllows to.now id (net_of (N.faults net.old) (N.faults net.new) (N.address net.new) (N.heard net.new) (N.held net.new))) result (K.taken sink.old) (K.taken sink.new) }
    ensures halts { HaltsWriting (K.faults sink.old) (K.faults sink.new) result }
    ensures same { K.name sink.new ≡ K.name sink.old }
{
    match fetch_over(alloc, to, id, net) {
        Ok(came) => write_fetched(alloc, came, sink),
        Err(NetFault::Failed) => end_failed(alloc, Style::Records, sink),
        Err(NetFault::OutOfMemory) => Err(Halt::OutOfMemory),
    }
}

// What a fetch over a link to an address comes to. The link is given back.
fn fetch_over<N: Net>(
    alloc: Global,
    to: &Word,
    id: HashId,
    net: &mut N,
) -> Result<Result<Row<Fetched>, FetchFault>, NetFault>
    requires { IsKnownId id }
    ensures came { IfOk result (FetchCame to.now id (net_of (N.faults net.old) (N.faults net.new) (N.address net.new) (N.heard net.new) (N.held net.new))) }
    ensures failed { IsErrOf result Failed → Rose (N.faults net.old) (N.faults net.new) }
{
    let mut link = match net.connect(alloc, to) {
        Ok(link) => link,
        Err(fault) => return Err(fault),
    };
    let came = fetch(alloc, &mut link, &[id]);
    net.end_link(link);
    Ok(came)
}

// Writes what a fetch came to.
fn write_fetched<K: Sink>(
    alloc: Global,
    came: Result<Row<Fetched>, FetchFault>,
    sink: &mut K,
) -> Result<Ending, Halt>
    ensures says { Says (lines.fetch_output came) result (K.taken sink.old) (K.taken sink.new) }
    ensures halts { HaltsWriting (K.faults sink.old) (K.faults sink.new) result }
    ensures same { K.name sink.new ≡ K.name sink.old }
{
    match came {
        Ok(objects) => write_objects(alloc, &objects, sink),
        Err(fault) => refuse_fetch(alloc, fault, sink),
    }
}

// Writes a record for each object.
fn write_objects<K: Sink>(
    alloc: Global,
    objects: &Row<Fetched>,
    sink: &mut K,
) -> Result<Ending, Halt>
    ensures ends { Ends (only (map lines.object_record objects.now)) result (K.taken sink.old) (K.taken sink.new) }
    ensures halts { HaltsWriting (K.faults sink.old) (K.faults sink.new) result }
    ensures same { K.name sink.new ≡ K.name sink.old }
{
    for index in 0..objects.len() {
        let piece = record(alloc, Kind::Object, objects.at(index).octets.octets());
        match say_piece(piece, sink) {
            Ok(()) => {}
            Err(halt) => return Err(halt),
        }
    }
    Ok(Ending::Done)
}

// Writes why nothing was fetched.
fn refuse_fetch<K: Sink>(alloc: Global, fault: FetchFault, sink: &mut K) -> Result<Ending, Halt>
    ensures says { Says (lines.fetch_output (Err fault)) result (K.taken sink.old) (K.taken sink.new) }
    ensures halts { HaltsWriting (K.faults sink.old) (K.faults sink.new) result }
    ensures same { K.name sink.new ≡ K.name sink.old }
{
    let style = Style::Records;
    match fault {
        FetchFault::LinkFault => end_failed(alloc, style, sink),
        FetchFault::OutOfMemory => Err(Halt::OutOfMemory),
        FetchFault::BadReply => refuse_peer(alloc, style, bad_reply(alloc), sink),
        FetchFault::WrongHash { id, got } => {
            refuse_peer(alloc, style, wrong_hash(alloc, &id, &got), sink)
        }
        FetchFault::NotServed(id) => refuse_peer(alloc, style, not_served(alloc, &id), sink),
        FetchFault::TooMany => refuse_peer(alloc, style, too_many(alloc), sink),
    }
}

fn bad_reply(alloc: Global) -> Result<Text, OutOfMemory>
    ensures { IfOk result (λ text. text ≡ codes "fetch bad-reply") }
{
    Text::from_octets(alloc, b"fetch bad-reply")
}

fn too_many(alloc: Global) -> Result<Text, OutOfMemory>
    ensures { IfOk result (λ text. text ≡ codes "fetch too-many") }
{
    Text::from_octets(alloc, b"fetch too-many")
}

fn wrong_hash(alloc: Global, id: &HashId, got: &HashId) -> Result<Text, OutOfMemory>
    ensures { IfOk result (λ text. text ≡ lines.wrong_hash_text id.now got.now) }
{
    let text = format!(in alloc; "fetch wrong-hash {id} {got}")?;
    Text::from_octets(alloc, text.as_bytes())
}

fn not_served(alloc: Global, id: &HashId) -> Result<Text, OutOfMemory>
    ensures { IfOk result (λ text. text ≡ lines.not_served_text id.now) }
{
    let text = format!(in alloc; "fetch not-served {id}")?;
    Text::from_octets(alloc, text.as_bytes())
}
