ghost use Rattle.std.specs.Prelude.{◌≡◌, ◌↔◌, IsTrue};
ghost use Rattle.type_registry.specs.Found.{Consistent};

use crate::finding::Finding;
use crate::naming::Naming;

/// Whether two findings of one registry are of one identifier, whatever threads found them. Then their octets are equal; and what
/// both say of one cell is the same. It takes no memory and no lock.
pub fn agree<N: Naming>(a: &Finding<N>, b: &Finding<N>) -> bool
    requires { a.now.registry ≡ b.now.registry }
    ensures same { IsTrue result ↔ (a.now.id ≡ b.now.id) }
    ensures octets { a.now.id ≡ b.now.id → a.now.octets ≡ b.now.octets }
    ensures consistent { Consistent a.now b.now }
{
    let levels = a.path.levels().and(a.level.again());
    let other_levels = b.path.levels().and(b.level.again());
    levels.agrees(&other_levels);
    let cells = a.path.cells().and(a.cell.again());
    let other_cells = b.path.cells().and(b.cell.again());
    cells.agrees(&other_cells);
    a.path.id() == b.path.id()
}
