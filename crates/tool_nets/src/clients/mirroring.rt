//! Pushing the objects of a bundle to a peer.
ghost use Rattle.std.specs.Prelude.{◌≡◌, Ok, Err, IfOk, IsErrOf, codes, map, ◌++◌};
ghost use Rattle.std.specs.Io.KnownBytes.{IsAtEnd};
ghost use Rattle.xt_io.specs.Outside.{Rose};
ghost use Rattle.xt_io.specs.declared.NetFault.TheVariants.{Failed};
ghost use Rattle.hex.specs.Hex.{encode_lower};
ghost use Rattle.type_trees.specs.Ids.{id_text as text_of_id};
ghost use Rattle.type_object.specs.Names.{hash_of};
ghost use Rattle.type_mirror.specs.told.Pushes.{MayPush};
ghost use Rattle.tool_runs.specs.output.Runs.{Ends, Halts, HaltsWriting};
ghost use Rattle.tool_runs.specs.Commands.{only};
ghost use Rattle.tool_nets.specs.Nets.{EndsIn, net_of};
ghost use Rattle.tool_nets.specs.Opened.{Behind};
ghost use Rattle.tool_nets.specs.clients.Lines as lines;
ghost use Rattle.tool_nets.specs.clients.Saying.{Says};
ghost use Rattle.tool_nets.specs.clients.Clients.{PushAllows, PushCame, objects_in};

use crate::clients::saying::{refuse_peer, say_piece};
use crate::{end_failed, open_pool};
use std::alloc::Global;
use tool_runs::output::{Ending, Halt, Style};
use tool_runs::stopped;
use type_lookup::messages::Fetched;
use type_mirror::{PushFault, Told, What, push};
use type_object::Pool;
use type_registry::{Md5Naming, Naming};
use type_trees::HashId;
use xt_io::{Net, NetFault, Sink, Source};
use xt_lists::{OutOfMemory, Row, Text, Word};

/// Pushes objects to the peer of an address over one link, and writes a line for each: `ID added`, `ID known`, `ID full`, or `ID clash HEX`
/// with the peer's octets. It connects even where there is no object. A bad reply is refused by the line `mirror bad-reply`; where the net or the
/// link fails the line is `net-fault`. The link is given back first.
pub fn mirror_objects<M: Naming, K: Sink, N: Net>(
    alloc: Global,
    to: &Word,
    objects: &Row<Fetched>,
    sink: &mut K,
    net: &mut N,
) -> Result<Ending, Halt>
    requires { MayPush M.name objects.now }
    ensures output { EndsIn (PushAllows M.name to.now objects.now (net_of (N.faults net.old) (N.faults net.new) (N.address net.new) (N.heard net.new) (N.held net.new))) result (K.taken sink.old) (K.taken sink.new) }
    ensures halts { HaltsWriting (K.faults sink.old) (K.faults sink.new) result }
    ensures same { K.name sink.new ≡ K.name sink.old }
{
    match push_over::<M, N>(alloc, to, objects, net) {
        Ok(came) => write_told(alloc, came, sink),
        Err(NetFault::Failed) => end_failed(alloc, Style::Lines, sink),
        Err(NetFault::OutOfMemory) => Err(Halt::OutOfMemory),
    }
}

// What a push over a link to an address comes to. The link is given back.
fn push_over<M: Naming, N: Net>(
    alloc: Global,
    to: &Word,
    objects: &Row<Fetched>,
    net: &mut N,
) -> Result<Result<Row<Told>, PushFault>, NetFault>
    requires { MayPush M.name objects.now }
    ensures came { IfOk result (PushCame M.name to.now objects.now (net_of (N.faults net.old) (N.faults net.new) (N.address net.new) (N.heard net.new) (N.held net.new))) }
    ensures failed { IsErrOf result Failed → Rose (N.faults net.old) (N.faults net.new) }
{
    let mut link = match net.connect(alloc, to) {
        Ok(link) => link,
        Err(fault) => return Err(fault),
    };
    let came = push::<M, N::L>(alloc, objects, &mut link);
    net.end_link(link);
    Ok(came)
}

// Writes what a push came to.
fn write_told<K: Sink>(
    alloc: Global,
    came: Result<Row<Told>, PushFault>,
    sink: &mut K,
) -> Result<Ending, Halt>
    ensures says { Says (lines.push_output came) result (K.taken sink.old) (K.taken sink.new) }
    ensures halts { HaltsWriting (K.faults sink.old) (K.faults sink.new) result }
    ensures same { K.name sink.new ≡ K.name sink.old }
{
    match came {
        Ok(told) => write_lines(alloc, &told, sink),
        Err(fault) => refuse_push(alloc, fault, sink),
    }
}

// Writes a line for each object.
fn write_lines<K: Sink>(alloc: Global, told: &Row<Told>, sink: &mut K) -> Result<Ending, Halt>
    ensures ends { Ends (only (map lines.told_line told.now)) result (K.taken sink.old) (K.taken sink.new) }
    ensures halts { HaltsWriting (K.faults sink.old) (K.faults sink.new) result }
    ensures same { K.name sink.new ≡ K.name sink.old }
{
    for index in 0..told.len() {
        match say_piece(told_line(alloc, told.at(index)), sink) {
            Ok(()) => {}
            Err(halt) => return Err(halt),
        }
    }
    Ok(Ending::Done)
}

// Writes why not all was pushed.
fn refuse_push<K: Sink>(alloc: Global, fault: PushFault, sink: &mut K) -> Result<Ending, Halt>
    ensures says { Says (lines.push_output (Err fault)) result (K.taken sink.old) (K.taken sink.new) }
    ensures halts { HaltsWriting (K.faults sink.old) (K.faults sink.new) result }
    ensures same { K.name sink.new ≡ K.name sink.old }
{
    let style = Style::Lines;
    match fault {
        PushFault::LinkFault => end_failed(alloc, style, sink),
        PushFault::OutOfMemory => Err(Halt::OutOfMemory),
        PushFault::BadReply => refuse_peer(alloc, style, bad_reply(alloc), sink),
    }
}

fn bad_reply(alloc: Global) -> Result<Text, OutOfMemory>
    ensures { IfOk result (λ text. text ≡ codes "mirror bad-reply") }
{
    Text::from_octets(alloc, b"mirror bad-reply")
}

// The line of an object.
fn told_line(alloc: Global, told: &Told) -> Result<Text, OutOfMemory>
    ensures { IfOk result (λ text. text ≡ lines.told_line told.now) }
{
    let what = what_text(alloc, &told.what)?;
    let mut line = id_text(alloc, &told.id)?;
    line.push(b' ')?;
    line.append(what.octets())?;
    line.push(b'\n')?;
    Ok(line)
}

fn id_text(alloc: Global, id: &HashId) -> Result<Text, OutOfMemory>
    ensures { IfOk result (λ text. text ≡ text_of_id id.now) }
{
    let text = format!(in alloc; "{id}")?;
    Text::from_octets(alloc, text.as_bytes())
}

fn what_text(alloc: Global, what: &What) -> Result<Text, OutOfMemory>
    ensures { IfOk result (λ text. text ≡ lines.what_text what.now) }
{
    match what {
        What::Added => Text::from_octets(alloc, b"added"),
        What::Known => Text::from_octets(alloc, b"known"),
        What::Clash(octets) => clash_text(alloc, octets.octets()),
        What::Full => Text::from_octets(alloc, b"full"),
    }
}

fn clash_text(alloc: Global, octets: &[u8]) -> Result<Text, OutOfMemory>
    ensures { IfOk result (λ text. text ≡ codes "clash " ++ encode_lower octets.now) }
{
    let digits = hex::encode(alloc, octets)?;
    let mut text = Text::from_octets(alloc, b"clash ")?;
    text.append(digits.as_bytes())?;
    Ok(text)
}

/// Pushes the objects of the types of a bundle without a body, each once, in order.
pub fn mirror_to<S: Source, K: Sink, N: Net>(
    alloc: Global,
    to: &Word,
    input: &mut S,
    sink: &mut K,
    net: &mut N,
) -> Result<Ending, Halt>
    ensures output { EndsIn (Behind (S.left input.old) (λ pool. PushAllows hash_of to.now (objects_in pool) (net_of (N.faults net.old) (N.faults net.new) (N.address net.new) (N.heard net.new) (N.held net.new)))) result (K.taken sink.old) (K.taken sink.new) }

    // A run that is done read its input to the end.
    ensures ended { result ≡ Ok Ending.Done → IsAtEnd (S.left input.new) }
    ensures halts { Halts (S.faults input.old) (S.faults input.new) (K.faults sink.old) (K.faults sink.new) result }
    ensures same { K.name sink.new ≡ K.name sink.old }
{
    match open_pool(alloc, input) {
        Ok(pool) => mirror_pool(alloc, to, &pool, sink, net),
        Err(stop) => stopped(alloc, Style::Lines, stop, sink),
    }
}

// Pushes the objects of a pool.
fn mirror_pool<K: Sink, N: Net>(
    alloc: Global,
    to: &Word,
    pool: &Pool,
    sink: &mut K,
    net: &mut N,
) -> Result<Ending, Halt>
    ensures output { EndsIn (PushAllows hash_of to.now (objects_in pool.now) (net_of (N.faults net.old) (N.faults net.new) (N.address net.new) (N.heard net.new) (N.held net.new))) result (K.taken sink.old) (K.taken sink.new) }
    ensures halts { HaltsWriting (K.faults sink.old) (K.faults sink.new) result }
    ensures same { K.name sink.new ≡ K.name sink.old }
{
    match objects_of(alloc, pool) {
        Ok(objects) => mirror_objects::<Md5Naming, K, N>(alloc, to, &objects, sink, net),
        Err(_) => Err(Halt::OutOfMemory),
    }
}

/// The objects of a pool, in order, which may be pushed.
pub fn objects_of(alloc: Global, pool: &Pool) -> Result<Row<Fetched>, OutOfMemory>
    ensures objects { IfOk result (λ objects. objects ≡ objects_in pool.now) }
    ensures may_push { IfOk result (MayPush hash_of) }
{
    let mut objects = Row::new(alloc);
    for index in 0..pool.len() {
        let entry = pool.at(index);
        let octets = Text::from_octets(alloc, entry.octets)?;
        objects.push(Fetched {
            id: entry.id,
            octets,
        })?;
    }
    Ok(objects)
}
