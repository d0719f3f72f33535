//! A push to a peer that has another object under the same identifier, where a naming names every object alike.
ghost use Rattle.type_mirror.specs.told.Pushes.{MayPush};

use crate::namings::Alike;
use crate::objects::{alone, object};
use std::alloc::Global;
use tool_nets::clients::mirror_objects;
use tool_runs::output::Ending;
use type_lookup::messages::Fetched;
use type_registry::Naming;
use xt_io::{MemNet, MemSink, Script};
use xt_lists::{OutOfMemory, Row, Text, Word};

fn one(alloc: Global, number: u64) -> Result<Row<u64>, OutOfMemory> {
    let mut numbers = Row::new(alloc);
    numbers.push(number)?;
    Ok(numbers)
}

// A link that gives these octets, and fails at the call of this number, from 1 on.
fn script(alloc: Global, input: &[u8], fails: u64) -> Result<Script, OutOfMemory> {
    Ok(Script {
        input: Text::from_octets(alloc, input)?,
        most: 40,
        fails: one(alloc, fails)?,
    })
}

// A net that gives this link, and fails at the call of this number, from 1 on.
fn net(alloc: Global, link: Script, fails: u64) -> Result<MemNet, OutOfMemory> {
    let fails = one(alloc, fails)?;
    Ok(MemNet::new(alloc, Row::new(alloc), Some(link), fails))
}

// The reply that the object clashes, and the reply with the peer's.
const CLASHES: &[u8] =
    b"\x00\x00\x00\x0e\x01\xcb\x1b\x14\x04\x01\x00\x00\x00\x01\x00\x00\x00\x03\x00\x00\x00\x47\x01\xd3\x52\x82\x01\x02\x00\x00\x00\x01\x00\x00\x00\xf1\x00\x00\x00\x00\x00\x00\x00\x00\x00\x00\x00\x00\x00\x00\x27\x00\x00\x00\x23\x00\x00\x00\xf1\x51\x01\x00\x01\x00\x00\x00\x00\x00\x00\x00\x13\x00\x00\x00\x01\x00\x00\x00\x0b\x00\x00\x00\x00\x00\x00\x00\x01\x00\x04\x70\xdd\xa5\xdf";

const CLASH: &[u8] =
    b"f10000000000000000000000000000 clash 23000000f1510100010000000000000013000000010000000b0000000000000001000470dda5df\n";

// Whether a push of these objects to such a peer is done and writes this.
fn pushes(alloc: Global, mut net: MemNet, objects: &Row<Fetched>, text: &[u8]) -> bool
    requires { MayPush ⟦<Alike as Naming>⟧.name objects.now }
{
    let Ok(to) = Word::from_octets(alloc, b"peer") else {
        return false;
    };
    let mut sink = MemSink::new(alloc, 100, &[]);
    let came = mirror_objects::<Alike, MemSink, MemNet>(alloc, &to, objects, &mut sink, &mut net);
    came == Ok(Ending::Done) && sink.octets() == text
}

#[test]
fn an_object_clashes(rt: HostRuntime) {
    let alloc = rt.alloc();
    let link = script(alloc, CLASHES, 0).expect(&rt, "memory");
    let net = net(alloc, link, 0).expect(&rt, "memory");
    let objects = alone::<Alike>(alloc, &object(1)).expect(&rt, "an object");
    assert!(rt; pushes(alloc, net, &objects, CLASH));
}
