ghost use Rattle.std.specs.Prelude.{◌≡◌, ◌≢◌, ◌<◌, ◌+◌, ◌/◌, ◌%◌, [], ◌++◌, length, IfSome, IfOk, IfErr};
ghost use Rattle.cell_core.specs.Probes.{probe_at};
ghost use Rattle.type_registry.specs.Held.{IsNamed, held};
ghost use Rattle.type_registry.specs.Walked.{IsPath, MetNext, walk_past};

use crate::entry::Entry;
use crate::level::Level;
use crate::naming::Naming;
use crate::notes::Knowledge;
use crate::registry::Registry;
use cell_core::{is_probed, probe};
use std::alloc::Global;
use std::marker::Model;
use type_trees::HashId;
use xt_lists::OutOfMemory;

/// What the probes of an identifier told so far: each of these cells is full, with another identifier.
#[derive(Drop)]
pub(crate) struct Path<'r, N: Naming> {
    registry: &'r Registry<N>,
    id: HashId,
    count: u8,
    levels: Knowledge<Level<N>>,
    cells: Knowledge<Entry<N>>,
}

impl<'r, N: Naming> Model for Path<'r, N> {
    ghost use Rattle.type_registry.specs.Walked.{Walk, IsPath};

    ghost Value = { Walk };

    ghost view = { λ p. record { registry = p.registry.now; id = p.id; count = p.count; levels = p.levels.facts; cells = p.cells.facts } };

    ghost invariant = { λ p. IsPath N.name (record { registry = p.registry.now; id = p.id; count = p.count; levels = p.levels.facts; cells = p.cells.facts }) };
}

/// A full cell that a probe met.
#[derive(Drop)]
pub(crate) struct Met<'r, N: Naming> {
    pub(crate) entry: &'r Entry<N>,
    pub(crate) level: Knowledge<Level<N>>,
    pub(crate) cell: Knowledge<Entry<N>>,
}

impl<'r, N: Naming> Path<'r, N> {
    pub(crate) fn start(registry: &'r Registry<N>, id: HashId) -> Path<'r, N>
        ensures { result ≡ record { registry = registry.now; id = id; count = 0; levels = []; cells = [] } }
    {
        Path {
            registry,
            id,
            count: 0,
            levels: Knowledge::empty(),
            cells: Knowledge::empty(),
        }
    }

    pub(crate) fn again(&self) -> Path<'r, N>
        ensures { result ≡ self.now }
    {
        Path {
            registry: self.registry,
            id: self.id,
            count: self.count,
            levels: self.levels.again(),
            cells: self.cells.again(),
        }
    }

    pub(crate) fn id(&self) -> HashId
        ensures { result ≡ self.now.id }
    {
        self.id
    }

    /// How many probes there were, at most 64.
    pub(crate) fn count(&self) -> u8
        ensures count { result ≡ self.now.count }
        ensures path { IsPath N.name self.now }
    {
        self.count
    }

    pub(crate) fn levels(&self) -> Knowledge<Level<N>>
        ensures facts { result.facts ≡ self.now.levels }
        ensures path { IsPath N.name self.now }
    {
        self.levels.again()
    }

    pub(crate) fn cells(&self) -> Knowledge<Entry<N>>
        ensures { result.facts ≡ self.now.cells }
    {
        self.cells.again()
    }

    /// One step further, past a stranger.
    pub(crate) fn past(self, met: Met<'r, N>) -> Path<'r, N>
        requires met { MetNext N.name self met.entry.now met.level.facts met.cell.facts }
        requires stranger { met.entry.now.id ≢ self.id }
        requires room { self.count < 64 }
        ensures { result ≡ walk_past self.entry met.entry.level.facts met.entry.cell.facts }
    {
        let Path {
            registry,
            id,
            count,
            levels,
            cells,
        } = self;
        Path {
            registry,
            id,
            count: count + 1,
            levels: levels.and(met.level),
            cells: cells.and(met.cell),
        }
    }

    /// The next probed cell, if it is full. It takes no memory. The cell is tested to be one of the probed cells of the identifier
    /// that it shows, since its own contract doesn't say so; only `meet` fills cells, so the test never fails.
    pub(crate) fn look(&self) -> Option<Met<'r, N>>
        requires { self.now.count < 64 }
        ensures { IfSome result (λ m. MetNext N.name self.now m.entry.now m.level.facts m.cell.facts) }
    {
        let number = self.count / 8;
        let place = probe(&self.id, number, self.count % 8);
        let (cells, level) = self.registry.level(number)?;
        let (entry, cell) = cells.get(place)?;
        if is_probed(&entry.id(), number, place) {
            Some(Met { entry, level, cell })
        } else {
            None
        }
    }

    /// The next probed cell, which is filled with the object of `octets` if it is empty, whoever fills it first. The answer says
    /// also whether it was empty. The cell is tested as in `look`.
    pub(crate) fn meet(
        &self,
        alloc: Global,
        octets: &[u8],
    ) -> Result<(Met<'r, N>, bool), OutOfMemory>
        requires room { self.now.count < 64 }
        requires named { IsNamed N.name (held self.now.id octets.now) }
        ensures { IfOk result (λ m. MetNext N.name self.now m.0.entry.now m.0.level.facts m.0.cell.facts) }
    {
        let number = self.count / 8;
        let place = probe(&self.id, number, self.count % 8);
        let (cells, level) = self.registry.grown(alloc, number)?;
        let (entry, cell, empty) = match cells.get(place) {
            Some((entry, cell)) => (entry, cell, false),
            None => {
                let mine = Entry::boxed(alloc, self.id, octets)?;
                match cells.offer(place, mine) {
                    Some((entry, cell)) => (entry, cell, true),
                    None => return Err(OutOfMemory),
                }
            }
        };
        if is_probed(&entry.id(), number, place) {
            Ok((Met { entry, level, cell }, empty))
        } else {
            Err(OutOfMemory)
        }
    }
}
