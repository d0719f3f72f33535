ghost use Rattle.std.specs.Prelude.{◌≡◌, true, List, ℕ, IfOk, option_map};
ghost use Rattle.std.specs.Str.{is_utf8};
ghost use Rattle.xt_shapes.specs.Lists.{all};
ghost use Rattle.type_trees.specs.declared.types.Literal.{Literal};
ghost use Rattle.type_trees.specs.View.{members_tree};
ghost use Rattle.json_values.specs.Names.{literal_names, members_have_text_names};
ghost use Rattle.json_values.specs.Indices.{value_named, text_of_value, HoldsValues, HoldsTexts, HoldsNames};

use crate::names::key_of;
use std::alloc::Global;
use std::collections::{BTreeMap, BTreeSet};
use type_trees::{Literal, Member};
use xt_lists::OutOfMemory;

/// So few literals or members are looked through one by one.
pub(crate) const FEW: usize = 16;

/// The values of literals by their names.
#[derive(Drop)]
pub(crate) struct ValueIndex {
    by_name: BTreeMap<String, i32>,
}

impl ValueIndex {
    pub(crate) fn new(alloc: Global, literals: &[Literal]) -> Result<ValueIndex, OutOfMemory>
        requires { all is_utf8 (literal_names literals.now) ≡ true }
        ensures { IfOk result (λ index. HoldsValues literals.now index.by_name) }
    {
        let mut by_name = BTreeMap::new(alloc);
        let mut at = literals.len();
        // from the last, so that the first literal with a name is kept
        'literals: while at > 0 {
            at -= 1;
            let literal = &literals[at];
            let name = key_of(alloc, &literal.name)?;
            by_name.insert(name, literal.value)?;
        }
        Ok(ValueIndex { by_name })
    }

    /// The value of the first literal with that name.
    pub(crate) fn value_named(&self, name: &str) -> Option<i32>
        ensures { (ls : List Literal) → HoldsValues ls self.now.by_name → result ≡ value_named ls name.now }
    {
        self.by_name.get(name).copied()
    }
}

/// The names of literals by their values.
#[derive(Drop)]
pub(crate) struct NameIndex {
    by_value: BTreeMap<i128, String>,
}

impl NameIndex {
    pub(crate) fn new(alloc: Global, literals: &[Literal]) -> Result<NameIndex, OutOfMemory>
        requires { all is_utf8 (literal_names literals.now) ≡ true }
        ensures { IfOk result (λ index. HoldsTexts literals.now index.by_value) }
    {
        let mut by_value = BTreeMap::new(alloc);
        let mut at = literals.len();
        // from the last, so that the first literal with a value is kept
        'literals: while at > 0 {
            at -= 1;
            let literal = &literals[at];
            let name = key_of(alloc, &literal.name)?;
            by_value.insert(i128::from(literal.value), name)?;
        }
        Ok(NameIndex { by_value })
    }

    /// The name of the first literal with that value.
    pub(crate) fn name_of(&self, value: i128) -> Option<&str>
        ensures { (ls : List Literal) → HoldsTexts ls self.now.by_value → option_map (λ t. t.now) result ≡ text_of_value ls value }
    {
        match self.by_value.get(&value) {
            Some(name) => Some(name.as_str()),
            None => None,
        }
    }
}

/// The names of members.
pub(crate) fn names_of(alloc: Global, members: &[Member]) -> Result<BTreeSet<String>, OutOfMemory>
    requires { members_have_text_names (members_tree members.now) ≡ true }
    ensures { IfOk result (HoldsNames (members_tree members.now)) }
{
    let mut names = BTreeSet::new(alloc);
    let mut at = members.len();
    'members: while at > 0 {
        at -= 1;
        names.insert(key_of(alloc, &members[at].name)?)?;
    }
    Ok(names)
}
