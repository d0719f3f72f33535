ghost use Rattle.std.specs.Prelude.{◌≡◌, ◌≤◌, ◌<◌, [], ◌∷◌, ◌++◌, length, OnOk, OnErr, IfOk};
ghost use Rattle.key_instances.specs.kept.Kept.{last};

use std::alloc::Global;
use std::collections::VecDeque;
use xt_lists::OutOfMemory;

/// The values of a key, the oldest first.
#[derive(Drop)]
pub(crate) struct Entry<T> {
    pub(crate) values: VecDeque<T>,
}

impl<T: Drop> Entry<T> {
    /// A single value.
    pub(crate) fn of(alloc: Global, value: T) -> Result<Entry<T>, OutOfMemory>
        ensures { IfOk result (λ entry. entry.values.items ≡ value ∷ []) }
    {
        let mut values = VecDeque::with_capacity(alloc, 1)?;
        values.push_back(value)?;
        Ok(Entry { values })
    }

    /// One value more, of which the last `depth` stay. Where memory is refused nothing changes.
    pub(crate) fn add(&mut self, depth: usize, value: T) -> Result<(), OutOfMemory>
        requires some { 1 ≤ depth }
        requires few { length self.old.values.items ≤ depth }
        ensures ok { OnOk result (self.new.values.items ≡ last depth (self.old.values.items ++ value ∷ [])) }
        ensures few { length self.new.values.items ≤ depth }
        ensures err { OnErr result (self.new.values.items ≡ self.old.values.items) }
    {
        if self.values.len() < depth {
            self.values.push_back(value)?;
            return Ok(());
        }
        self.values.pop_front();
        self.values.push_back_reserved(value);
        Ok(())
    }
}
