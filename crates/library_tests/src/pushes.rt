//! Pushes to the service itself.
ghost use Rattle.std.specs.Prelude.{IfSome};
ghost use Rattle.type_mirror.specs.told.Pushes.{MayPush};

use crate::objects::{COLOR, alone, named, object};
use crate::registries::is_found;
use lookup_service::link::LoopLink;
use std::alloc::Global;
use tool_nets::clients::objects_of;
use type_lookup::messages::Fetched;
use type_mirror::{Gave, Give, Pair, PushFault, Side, Told, What, push};
use type_object::Pool;
use type_registry::{Md5Naming, Naming, Registry};
use xt_io::Link;
use xt_lists::{OutOfMemory, Row, Text};

// What became of an object, in a word.
fn word(what: &What) -> &'static [u8] {
    match what {
        What::Added => b"added ",
        What::Known => b"known ",
        What::Clash(_) => b"clash ",
        What::Full => b"full ",
    }
}

// What is told, in words.
fn words(alloc: Global, told: &[Told]) -> Result<Text, OutOfMemory> {
    let mut text = Text::new(alloc);
    for entry in told {
        text.append(word(&entry.what))?;
    }
    Ok(text)
}

// Pushes objects, and tells in words what became of them.
fn push_words<N: Naming, L: Link>(
    alloc: Global,
    link: &mut L,
    objects: &Row<Fetched>,
) -> Result<Text, PushFault>
    requires { MayPush N.name objects.now }
{
    let told = push::<N, L>(alloc, objects, link)?;
    Ok(words(alloc, told.as_slice())?)
}

// Whether a push of objects to this registry, over a link of its own, tells this.
pub(crate) fn tells(
    registry: &Registry<Md5Naming>,
    alloc: Global,
    objects: &Row<Fetched>,
    told: &[u8],
) -> bool
    requires { MayPush ⟦<Md5Naming as Naming>⟧.name objects.now }
{
    let mut peer = LoopLink::new(alloc, registry, 50);
    match push_words::<Md5Naming, LoopLink>(alloc, &mut peer, objects) {
        Ok(words) => words.octets() == told,
        Err(_) => false,
    }
}

// A pool of two objects.
fn pool_of(alloc: Global, first: &[u8], second: &[u8]) -> Option<Box<Pool>> {
    let mut pool = Box::new(alloc, Pool::new(alloc)).ok()?;
    pool.add(first).ok()?;
    pool.add(second).ok()?;
    Some(pool)
}

// Two objects that may be pushed together, where both texts are objects'.
fn both(alloc: Global, first: &[u8], second: &[u8]) -> Option<Row<Fetched>>
    ensures { IfSome result (MayPush ⟦<Md5Naming as Naming>⟧.name) }
{
    let pool = pool_of(alloc, first, second)?;
    match objects_of(alloc, &pool) {
        Ok(objects) => Some(objects),
        Err(_) => None,
    }
}

// Whether each of the two objects is found in the registry.
fn has_both(registry: &Registry<Md5Naming>, alloc: Global) -> bool {
    is_found(registry, alloc, &COLOR) && is_found(registry, alloc, &object(1))
}

// Each of two registries has one object of its own, and each object is pushed to the other one. Then each registry's objects are pushed
// once more, both ways: all four are known.
#[test]
fn registries_are_made_equal(rt: HostRuntime) {
    let alloc = rt.alloc();
    let a: Registry<Md5Naming> = Registry::new(alloc);
    let b: Registry<Md5Naming> = Registry::new(alloc);
    let color = alone::<Md5Naming>(alloc, &COLOR).expect(&rt, "an object");
    let other = alone::<Md5Naming>(alloc, &object(1)).expect(&rt, "an object");
    assert!(rt; tells(&a, alloc, &color, b"added ") && tells(&b, alloc, &other, b"added "));
    assert!(rt; tells(&b, alloc, &color, b"added ") && tells(&a, alloc, &other, b"added "));
    let objects = both(alloc, &COLOR, &object(1)).expect(&rt, "objects");
    assert!(rt; tells(&b, alloc, &objects, b"known known "));
    assert!(rt; tells(&a, alloc, &objects, b"known known "));
    assert!(rt; has_both(&a, alloc) && has_both(&b, alloc));
}

// One side of a pair gives the object: whether what became of it is this.
fn gives(alloc: Global, pair: &mut Pair, from: Side, gave: &Gave) -> bool {
    let id = named::<Md5Naming>(&COLOR);
    match pair.step(alloc, &Give { from, id }) {
        Ok(given) => given == *gave,
        Err(_) => false,
    }
}

// An object on side A alone is lacking from B, added from A, and then known from either.
#[test]
fn a_pair_is_made_equal(rt: HostRuntime) {
    let alloc = rt.alloc();
    let objects = alone::<Md5Naming>(alloc, &COLOR).expect(&rt, "an object");
    let mut pair = Pair::new(objects, Row::new(alloc));
    assert!(rt; gives(alloc, &mut pair, Side::B, &Gave::Lacking));
    assert!(rt; gives(alloc, &mut pair, Side::A, &Gave::Added));
    assert!(rt; gives(alloc, &mut pair, Side::A, &Gave::Known));
    assert!(rt; gives(alloc, &mut pair, Side::B, &Gave::Known));
}
