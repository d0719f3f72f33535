ghost use Rattle.std.specs.Prelude.{◌≡◌, ◌<◌};
ghost use Rattle.type_registry.specs.Held.{IsNamed, held};
ghost use Rattle.type_registry.specs.Walked.{MetNext};
ghost use Rattle.type_registry.specs.Found.{IsFinding, found_of};

use crate::entry::Entry;
use crate::level::Level;
use crate::naming::Naming;
use crate::notes::Knowledge;
use crate::path::{Met, Path};
use std::marker::Model;
use type_trees::HashId;

/// An object that was found in a registry. Contracts see its registry, its identifier, its octets, and its trail: what the earlier
/// probed cells of the identifier hold. The cell that holds it is the probed cell behind those.
pub struct Finding<'r, N: Naming> {
    pub(crate) path: Path<'r, N>,
    pub(crate) entry: &'r Entry<N>,
    pub(crate) level: Knowledge<Level<N>>,
    pub(crate) cell: Knowledge<Entry<N>>,
}

// By hand, so that it is proved here once, and not in each crate that lets one go.
impl<N: Naming> Drop for Finding<'_, N> {
    fn drop(self) {
        let Finding {
            path: _,
            entry: _,
            level: _,
            cell: _,
        } = self;
    }
}

impl<'r, N: Naming> Model for Finding<'r, N> {
    ghost use Rattle.std.specs.Prelude.{◌≡◌, ◌<◌};
    ghost use Rattle.type_registry.specs.Walked.{MetNext};
    ghost use Rattle.type_registry.specs.Found.{Found, found_of};

    ghost Value = { Found };

    ghost view = { λ f. found_of f.path f.entry.now };

    ghost invariant = { λ f. (f.path.count < 64) × (f.entry.now.id ≡ f.path.id) × MetNext N.name f.path f.entry.now f.level.facts f.cell.facts };
}

impl<'r, N: Naming> Finding<'r, N> {
    /// The probes past strangers, and the cell that they ended at.
    pub(crate) fn of(path: Path<'r, N>, met: Met<'r, N>) -> Finding<'r, N>
        requires met { MetNext N.name path met.entry.now met.level.facts met.cell.facts }
        requires own { met.entry.now.id ≡ path.id }
        requires room { path.count < 64 }
        ensures { result ≡ found_of path.entry met.entry.entry.now }
    {
        let Met { entry, level, cell } = met;
        Finding {
            path,
            entry,
            level,
            cell,
        }
    }

    /// The identifier of the object. It takes no memory.
    pub fn id(&self) -> HashId
        ensures id { result ≡ self.now.id }
        ensures sound { IsFinding N.name self.now }
    {
        let _path = self.path.count();
        self.path.id()
    }

    /// The text of the object, whose kind and name are the identifier. It takes no memory.
    pub fn octets(&self) -> &[u8]
        ensures octets { result.now ≡ self.now.octets }
        ensures named { IsNamed N.name (held self.now.id self.now.octets) }
    {
        self.entry.octets()
    }

    /// The same finding once more. It takes no memory.
    pub(crate) fn again(&self) -> Finding<'r, N>
        ensures { result ≡ self.now }
    {
        Finding {
            path: self.path.again(),
            entry: self.entry,
            level: self.level.again(),
            cell: self.cell.again(),
        }
    }
}
