ghost use Rattle.std.specs.Prelude.{◌≡◌, [], ◌∷◌, ◌++◌, None, OnOk, OnErr};
ghost use Rattle.std.specs.Map.{lookup};
ghost use Rattle.std.specs.Option.{option_copied};
ghost use Rattle.type_trees.specs.Ids.{same_id};

use indexmap::IndexMap;
use std::alloc::Global;
use std::marker::Model;
use type_trees::HashId;
use xt_lists::OutOfMemory;

/// Values by identifiers, in the order in which they came. A look-up goes by the identifier's hash.
#[derive(Drop)]
pub(crate) struct ById<V> {
    entries: IndexMap<HashId, V>,
}

impl<V> Model for ById<V> {
    ghost use Rattle.std.specs.Prelude.{List};
    ghost use Rattle.std.specs.Coded.{coded_list, coded×};
    ghost use Rattle.type_trees.specs.declared.types.HashId.{HashId};
    ghost use Rattle.type_registry.specs.Keys.{coded_id};

    ghost Value = { List (HashId × V) };

    ghost coded = { coded_list (coded× coded_id V.code) };

    ghost view = { λ values. values.entries.entries };
}

impl<V> ById<V> {
    /// No values. It takes no memory.
    pub(crate) fn new(alloc: Global) -> ById<V>
        ensures { result ≡ [] }
    {
        ById {
            entries: IndexMap::new(alloc),
        }
    }

    /// The value of an identifier. It takes no memory.
    pub(crate) fn get(&self, id: &HashId) -> Option<&V>
        ensures { option_copied result ≡ lookup (same_id id.now) self.now }
    {
        self.entries.get(id)
    }
}

impl<V: Drop> ById<V> {
    /// Adds the value of an identifier that has none.
    pub(crate) fn insert(&mut self, id: HashId, value: V) -> Result<(), OutOfMemory>
        requires { lookup (same_id id) self.old ≡ None }
        ensures ok { OnOk result (self.new ≡ self.old ++ (id, value) ∷ []) }
        ensures err { OnErr result (self.new ≡ self.old) }
    {
        self.entries.insert(id, value)?;
        Ok(())
    }
}
