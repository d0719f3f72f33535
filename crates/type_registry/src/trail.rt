ghost use Rattle.std.specs.Prelude.{◌≡◌, ◌≤◌, ◌<◌, length, map, slice_get, Some};
ghost use Rattle.type_registry.specs.Held.{held};
ghost use Rattle.type_registry.specs.Found.{held_of};
ghost use Rattle.type_registry.specs.Passed.{occupied_of, now_of, IsFull};

use crate::entry::Entry;
use crate::naming::Naming;
use crate::path::Path;
use std::marker::Model;
use type_trees::HashId;

/// That all 64 probed cells of an identifier are full, each with another one. It has no octets of theirs.
#[derive(Drop)]
pub(crate) struct Strangers<'r, N: Naming> {
    path: Path<'r, N>,
}

impl<'r, N: Naming> Model for Strangers<'r, N> {
    ghost use Rattle.std.specs.Prelude.{◌≤◌};
    ghost use Rattle.type_registry.specs.Passed.{Occupied, occupied_of};

    ghost Value = { Occupied };

    ghost view = { λ s. occupied_of s.path };

    ghost invariant = { λ s. 64 ≤ s.path.count };
}

impl<'r, N: Naming> Strangers<'r, N> {
    pub(crate) fn id(&self) -> HashId
        ensures id { result ≡ self.now.id }
        ensures full { IsFull N.name self.now }
    {
        let _path = self.path.count();
        self.path.id()
    }

    /// Two trails of one identifier in one registry are the same, since full cells never change. It takes no memory.
    pub(crate) fn agrees(&self, other: &Strangers<'r, N>)
        ensures { self.now.registry ≡ other.now.registry → self.now.id ≡ other.now.id → self.now.held ≡ other.now.held }
    {
        self.path.levels().agrees(&other.path.levels());
        self.path.cells().agrees(&other.path.cells());
    }
}

/// What a cell of a trail holds: the text of an object under its identifier.
#[derive(Debug, Clone, Copy)]
pub struct Seen<'a> {
    pub id: HashId,
    pub octets: &'a [u8],
}

/// What the probed cells of an identifier hold, in order, where each of the 64 holds another one.
pub struct Trail<'r, N: Naming> {
    path: Path<'r, N>,
    seen: Vec<&'r Entry<N>>,
}

// By hand, so that it is proved here once, and not in each crate that lets one go.
impl<N: Naming> Drop for Trail<'_, N> {
    fn drop(self) {
        let Trail { path: _, seen: _ } = self;
    }
}

impl<'r, N: Naming> Model for Trail<'r, N> {
    ghost use Rattle.std.specs.Prelude.{◌≡◌, ◌≤◌, map};
    ghost use Rattle.type_registry.specs.Found.{held_of};
    ghost use Rattle.type_registry.specs.Passed.{Occupied, occupied_of, now_of};

    ghost Value = { Occupied };

    ghost view = { λ t. occupied_of t.path };

    ghost invariant = { λ t. (64 ≤ t.path.count) × (map now_of t.seen.items ≡ map held_of t.path.cells) };
}

impl<'r, N: Naming> Trail<'r, N> {
    /// The cells that these probes met.
    pub(crate) fn of(path: Path<'r, N>, seen: Vec<&'r Entry<N>>) -> Trail<'r, N>
        requires seen { map now_of seen.items ≡ map held_of path.cells }
        requires whole { 64 ≤ path.count }
        ensures { result ≡ occupied_of path.entry }
    {
        Trail { path, seen }
    }

    /// What a pass keeps of the trail. It takes no memory.
    pub(crate) fn strangers(&self) -> Strangers<'r, N>
        ensures { result ≡ self.now }
    {
        Strangers {
            path: self.path.again(),
        }
    }

    /// How many cells it has, which is 64. It takes no memory.
    pub fn len(&self) -> u32
        ensures len { result ≡ length self.now.held }
        ensures full { IsFull N.name self.now }
    {
        u32::from(self.path.count())
    }

    /// What cell number `i` of the trail holds. It takes no memory.
    pub fn at(&self, i: u32) -> Seen<'_>
        requires { i < length self.now.held }
        ensures { slice_get self.now.held i ≡ Some (held result.id result.octets.now) }
    {
        let entry = self.seen[i as usize];
        Seen {
            id: entry.id(),
            octets: entry.octets(),
        }
    }
}
