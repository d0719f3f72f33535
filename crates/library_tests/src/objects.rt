//! Small objects, and one that may be pushed alone.
ghost use Rattle.std.specs.Prelude.{◌≡◌, IfSome};
ghost use Rattle.type_object.specs.Names.{named_by};
ghost use Rattle.type_mirror.specs.told.Pushes.{MayPush};

use std::alloc::Global;
use type_lookup::messages::Fetched;
use type_object::{kind_of, read_object};
use type_registry::Naming;
use type_trees::HashId;
use xt_lists::{Row, Text};

/// The minimal object of `@final struct C { long color; };`.
pub(crate) const COLOR: [u8; 39] = [
    0x23, 0, 0, 0, 0xF1, 0x51, 1, 0, 1, 0, 0, 0, 0, 0, 0, 0, 0x13, 0, 0, 0, 1, 0, 0, 0, 0x0B, 0, 0,
    0, 0, 0, 0, 0, 1, 0, 4, 0x70, 0xDD, 0xA5, 0xDF,
];

/// The same object with another last octet, and so another hash of its member's name.
pub(crate) fn object(last: u8) -> [u8; 39] {
    let mut octets = COLOR;
    octets[38] = last;
    octets
}

/// The identifier of an object's text by a naming.
pub(crate) fn named<N: Naming>(octets: &[u8]) -> HashId
    ensures { result ≡ named_by N.name octets.now }
{
    HashId {
        kind: kind_of(octets),
        hash: N::name_of(octets),
    }
}

/// An object alone under its identifier, where the octets are an object's text.
pub(crate) fn alone<N: Naming>(alloc: Global, octets: &[u8]) -> Option<Row<Fetched>>
    ensures { IfSome result (MayPush N.name) }
{
    let Ok(_) = read_object(alloc, octets) else {
        return None;
    };
    let Ok(text) = Text::from_octets(alloc, octets) else {
        return None;
    };
    let id = named::<N>(octets);
    let mut objects = Row::new(alloc);
    match objects.push(Fetched { id, octets: text }) {
        Ok(()) => Some(objects),
        Err(_) => None,
    }
}
