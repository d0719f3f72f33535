//! A list of identifiers that are still to be tried.
ghost use Rattle.std.specs.Prelude.{◌≡◌, [], ◌∷◌, ◌++◌, reverse, OnOk, MatchOption};

use std::alloc::Global;
use std::marker::Model;
use type_trees::HashId;
use xt_lists::OutOfMemory;

/// Identifiers that are still to be tried, in order. The first stands last in the vector, where it is taken out.
#[derive(Drop)]
pub struct Todo {
    ids: Vec<HashId>,
}

impl Model for Todo {
    ghost use Rattle.std.specs.Prelude.{List, reverse};
    ghost use Rattle.std.specs.Coded.{coded_list};
    ghost use Rattle.type_trees.specs.declared.types.HashId.{HashId};
    ghost use Rattle.type_object.specs.visits.Keys.{coded_id};

    ghost Value = { List HashId };

    ghost coded = { coded_list coded_id };

    ghost view = { λ todo. reverse todo.ids.items };
}

impl Todo {
    /// No identifiers. It takes no memory.
    pub fn new(alloc: Global) -> Todo
        ensures { result ≡ [] }
    {
        Todo {
            ids: Vec::new(alloc),
        }
    }

    /// Takes out the first; None where none is left. It takes no memory.
    pub fn take_first(&mut self) -> Option<HashId>
        ensures { MatchOption result ((self.old ≡ []) × (self.new ≡ [])) (λ id. self.old ≡ id ∷ self.new) }
    {
        self.ids.pop()
    }

    /// Puts these before the others. Where memory is refused some of the last of them may stand there.
    pub fn put_before(&mut self, ids: &[HashId]) -> Result<(), OutOfMemory>
        ensures { OnOk result (self.new ≡ ids.now ++ self.old) }
    {
        push_reversed(&mut self.ids, ids)?;
        Ok(())
    }
}

// Appends these, the last first.
fn push_reversed(list: &mut Vec<HashId>, ids: &[HashId]) -> Result<(), OutOfMemory>
    ensures { OnOk result (list.new.items ≡ list.old.items ++ reverse ids.now) }
{
    let mut i = ids.len();
    'back: while i > 0 {
        i -= 1;
        list.push(ids[i])?;
    }
    Ok(())
}
