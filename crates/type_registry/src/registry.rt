ghost use Rattle.std.specs.Prelude.{◌<◌, IfOk, IfSome};
ghost use Rattle.type_registry.specs.Held.{Reads};

use crate::level::Level;
use crate::naming::Naming;
use crate::notes::Knowledge;
use cell_core::level_cells;
use once_cell::race::OnceBox;
use std::alloc::Global;
use std::marker::Model;
use xt_lists::OutOfMemory;

/// A registry of TypeObjects that threads share by `&`, and that grows while they read it. It has 8 levels of cells, each made once;
/// level `k` has `64 * 4^k` cells, each set once. Contracts see which registry it is, by the names of its levels' cells, and nothing
/// of what the cells hold: a pass and findings say that.
pub struct Registry<N: Naming> {
    levels: [OnceBox<Level<N>>; 8],
}

// By hand, so that it is proved here once, and not in each crate that lets one go.
impl<N: Naming> Drop for Registry<N> {
    fn drop(self) {
        let Registry { levels: _ } = self;
    }
}

impl<N: Naming> Model for Registry<N> {
    ghost use Rattle.std.specs.Prelude.{List, ℕ, map};
    ghost use Rattle.once_cell.specs.Once.{cell_name};

    ghost Value = { List ℕ };

    ghost view = { λ r. map cell_name r.levels };
}

impl<N: Naming> Registry<N> {
    /// An empty registry. It takes no memory.
    pub fn new(alloc: Global) -> Registry<N> {
        Registry {
            levels: [
                OnceBox::new(alloc),
                OnceBox::new(alloc),
                OnceBox::new(alloc),
                OnceBox::new(alloc),
                OnceBox::new(alloc),
                OnceBox::new(alloc),
                OnceBox::new(alloc),
                OnceBox::new(alloc),
            ],
        }
    }

    /// A level, if it is made. It takes no memory.
    pub(crate) fn level<'r>(&'r self, level: u8) -> Option<(&'r Level<N>, Knowledge<Level<N>>)>
        requires { level < 8 }
        ensures { IfSome result (λ r. Reads self.now level r.0.now r.1.facts) }
    {
        let cell = &self.levels[usize::from(level)];
        let mut note = cell.note();
        let level = cell.get_as(&mut note)?;
        let known = Knowledge::of(&mut note, level);
        Some((level, known))
    }

    /// A level, which is made where it isn't yet.
    pub(crate) fn grown<'r>(
        &'r self,
        alloc: Global,
        level: u8,
    ) -> Result<(&'r Level<N>, Knowledge<Level<N>>), OutOfMemory>
        requires { level < 8 }
        ensures { IfOk result (λ r. Reads self.now level r.0.now r.1.facts) }
    {
        let cell = &self.levels[usize::from(level)];
        let cells = level_cells(level);
        let mut note = cell.note();
        let level = cell.get_or_try_init_as(move || Level::boxed(alloc, cells), &mut note)?;
        let known = Knowledge::of(&mut note, level);
        Ok((level, known))
    }
}
