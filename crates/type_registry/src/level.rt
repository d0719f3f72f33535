ghost use Rattle.std.specs.Prelude.{◌≡◌, length, IfOk, IfSome};
ghost use Rattle.type_registry.specs.Held.{Reads};

use crate::entry::Entry;
use crate::naming::Naming;
use crate::notes::Knowledge;
use once_cell::race::OnceBox;
use std::alloc::Global;
use std::marker::Model;
use xt_lists::OutOfMemory;

/// The cells of a level, seen as their names. Each is set once.
#[derive(Drop)]
pub struct Level<N: Naming> {
    cells: Vec<OnceBox<Entry<N>>>,
}

impl<N: Naming> Model for Level<N> {
    ghost use Rattle.std.specs.Prelude.{List, ℕ, map};
    ghost use Rattle.once_cell.specs.Once.{cell_name};

    ghost Value = { List ℕ };

    ghost view = { λ l. map cell_name l.cells.items };
}

impl<N: Naming> Level<N> {
    /// A level of so many empty cells.
    pub(crate) fn boxed(alloc: Global, cells: u32) -> Result<Box<Level<N>>, OutOfMemory>
        ensures { IfOk result (λ l. length l.value ≡ cells) }
    {
        let count = cells as usize;
        let mut made = Vec::with_capacity(alloc, count)?;
        'cells: while made.len() < count {
            made.push(OnceBox::new(alloc))?;
        }
        Ok(Box::new(alloc, Level { cells: made })?)
    }

    /// What a cell holds. It takes no memory.
    pub(crate) fn get<'r>(&'r self, cell: u32) -> Option<(&'r Entry<N>, Knowledge<Entry<N>>)>
        ensures { IfSome result (λ r. Reads self.now cell r.0.now r.1.facts) }
    {
        let cell = self.cells.get(cell as usize)?;
        let mut note = cell.note();
        let entry = cell.get_as(&mut note)?;
        let known = Knowledge::of(&mut note, entry);
        Some((entry, known))
    }

    /// What a cell holds after it was offered `entry`, whoever set it. It is None where the level has no such cell.
    pub(crate) fn offer<'r>(
        &'r self,
        cell: u32,
        entry: Box<Entry<N>>,
    ) -> Option<(&'r Entry<N>, Knowledge<Entry<N>>)>
        ensures { IfSome result (λ r. Reads self.now cell r.0.now r.1.facts) }
    {
        let cell = self.cells.get(cell as usize)?;
        let mut note = cell.note();
        let entry = cell.get_or_init_as(move || entry, &mut note);
        let known = Knowledge::of(&mut note, entry);
        Some((entry, known))
    }
}
