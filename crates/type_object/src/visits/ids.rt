//! A set of identifiers.
ghost use Rattle.std.specs.Prelude.{◌≡◌, [], ◌∷◌, ◌++◌, false, IfOk, OnOk, OnErr};
ghost use Rattle.type_trees.specs.declared.types.HashId.{HashId};
ghost use Rattle.type_object.specs.References.{is_among};

use indexmap::IndexSet;
use std::alloc::Global;
use std::marker::Model;
use type_trees::HashId;
use xt_lists::OutOfMemory;

/// A set of identifiers, in the order in which they came.
#[derive(Drop)]
pub struct Ids {
    keys: IndexSet<HashId>,
}

impl Model for Ids {
    ghost use Rattle.std.specs.Prelude.{List};
    ghost use Rattle.std.specs.Coded.{coded_list};
    ghost use Rattle.type_trees.specs.declared.types.HashId.{HashId};
    ghost use Rattle.type_object.specs.visits.Keys.{coded_id};

    ghost Value = { List HashId };

    ghost coded = { coded_list coded_id };

    ghost view = { λ ids. ids.keys.keys };
}

impl Ids {
    /// No identifiers. It takes no memory.
    pub fn new(alloc: Global) -> Ids
        ensures { result ≡ [] }
    {
        Ids {
            keys: IndexSet::new(alloc),
        }
    }

    /// The set of these identifiers.
    pub fn of(alloc: Global, ids: &[HashId]) -> Result<Ids, OutOfMemory>
        ensures { IfOk result (λ set. (id : HashId) → is_among id set ≡ is_among id ids.now) }
    {
        let mut set = Ids::new(alloc);
        'ids: for id in ids {
            if set.contains(id) {
                continue;
            }
            set.add(*id)?;
        }
        Ok(set)
    }

    /// Whether the identifier is among them. It takes no memory.
    pub fn contains(&self, id: &HashId) -> bool
        ensures { result ≡ is_among id.now self.now }
    {
        self.keys.contains(id)
    }

    /// Adds an identifier that is not among them. Where memory is refused the set is unchanged.
    pub fn add(&mut self, id: HashId) -> Result<(), OutOfMemory>
        requires { is_among id self.old ≡ false }
        ensures ok { OnOk result (self.new ≡ self.old ++ id ∷ []) }
        ensures err { OnErr result (self.new ≡ self.old) }
    {
        self.keys.insert(id)?;
        Ok(())
    }
}
