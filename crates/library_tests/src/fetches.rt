//! Fetches from the service itself.
ghost use Rattle.std.specs.Prelude.{◌≡◌, IfOk};
ghost use Rattle.std.specs.List.{All};
ghost use Rattle.type_lookup.specs.messages.Spelling.{IsKnownId};

use crate::objects::{COLOR, alone};
use crate::pushes::tells;
use lookup_fetch::{FetchFault, fetch};
use lookup_service::link::LoopLink;
use std::alloc::Global;
use type_lookup::messages::Fetched;
use type_object::hash_of;
use type_registry::{Md5Naming, Registry};
use type_trees::HashId;
use xt_lists::{OutOfMemory, Row, Text};

fn fetch_one(alloc: Global, peer: &mut LoopLink<'_>, id: HashId) -> Result<Row<Fetched>, FetchFault>
    requires { id.kind ≡ 241 }
{
    fetch(alloc, peer, &[id])
}

// The octets of what is fetched, one object after another.
fn fetch_text(alloc: Global, peer: &mut LoopLink<'_>, id: HashId) -> Result<Text, FetchFault>
    requires { id.kind ≡ 241 }
{
    let mut text = Text::new(alloc);
    for object in fetch_one(alloc, peer, id)?.as_slice() {
        text.append(object.octets.octets())?;
    }
    Ok(text)
}

// What was pushed over one link is fetched over another, whose pass knew nothing.
#[test]
fn what_was_pushed_is_fetched(rt: HostRuntime) {
    let alloc = rt.alloc();
    let registry: Registry<Md5Naming> = Registry::new(alloc);
    let color = alone::<Md5Naming>(alloc, &COLOR).expect(&rt, "an object");
    assert!(rt; tells(&registry, alloc, &color, b"added "));
    let id = HashId {
        kind: 0xF1,
        hash: hash_of(&COLOR),
    };
    let mut taker = LoopLink::new(alloc, &registry, 1);
    let fetched = fetch_text(alloc, &mut taker, id).expect(&rt, "it is fetched");
    assert!(rt; fetched.octets() == &COLOR[..]);
    assert!(rt; taker.octets().len() == 32);
}

// So many identifiers.
fn strangers(alloc: Global, count: u16) -> Result<Row<HashId>, OutOfMemory>
    ensures { IfOk result (All IsKnownId) }
{
    let mut ids = Row::new(alloc);
    for number in 0..count {
        let mut hash = [0; 14];
        hash[..2].copy_from_slice(&number.to_le_bytes());
        ids.push(HashId { kind: 0xF1, hash })?;
    }
    Ok(ids)
}

// Nothing is sent where more identifiers are wanted than a fetch meets.
#[test]
fn too_many_are_not_asked_for(rt: HostRuntime) {
    let alloc = rt.alloc();
    let registry: Registry<Md5Naming> = Registry::new(alloc);
    let ids = strangers(alloc, 4097).expect(&rt, "memory");
    let mut peer = LoopLink::new(alloc, &registry, 50);
    let fault = fetch(alloc, &mut peer, ids.as_slice()).err();
    assert!(rt; fault == Some(FetchFault::TooMany));
    assert!(rt; peer.octets().is_empty());
}
