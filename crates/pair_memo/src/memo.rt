ghost use Rattle.std.specs.Prelude.{◌≡◌, ◌+◌, [], length, List, IfSome};
ghost use Rattle.object_formats.specs.Objects.{hash};
ghost use Rattle.pair_memo.specs.nodes.Seen.{shape_in};
ghost use Rattle.pair_memo.specs.Memos.{IsMemo, IsSo};
ghost use Rattle.type_object.specs.Pools.{Texts};
ghost use Rattle.type_trees.specs.declared.types.HashId.{HashId as Identifier};
ghost use Rattle.xcdr_model.specs.declared.verdict.Policy.{Policy};
ghost use Rattle.xt_shapes.specs.declared.leaves.Rep.{Rep};

use crate::reach::Reach;
use crate::steps::Steps;
use indexmap::IndexMap;
use std::alloc::Global;
use std::marker::Model;
use std::sync::ledger::Ledger;
use type_trees::HashId;
use xt_lists::OutOfMemory;

/// How a pair of types is examined.
#[derive(Clone, Copy, PartialEq, Eq, Hash)]
pub enum Kind {
    /// By the rules of a top pair.
    Top,
    /// By the rules of a part.
    Plain,
    /// Whether the types are equivalent, or delimited and then by the rules of a part.
    Strong,
    /// Whether the types are equivalent.
    Equivalent,
}

/// A pair of identifiers under a kind of examination.
#[derive(Clone, Copy, PartialEq, Eq, Hash)]
pub struct Pair {
    pub kind: Kind,
    pub left: HashId,
    pub right: HashId,
}

/// What an examination found.
#[derive(Clone, Copy, PartialEq, Eq)]
pub enum State {
    /// Nothing yet.
    Open,
    /// The pair holds.
    Holds,
    /// The types are not equivalent.
    Differs,
}

/// The pairs that were examined, each once for a kind of examination.
#[derive(Drop)]
pub struct Memo {
    entries: IndexMap<Pair, State>,
}

impl Model for Memo {
    ghost use Rattle.std.specs.Prelude.{List};
    ghost use Rattle.pair_memo.specs.Entries.{Entry};

    ghost Value = { List Entry };

    ghost view = { λ memo. memo.entries.entries };
}

impl Memo {
    /// No pairs. It takes no memory.
    pub fn new(alloc: Global) -> Memo
        ensures { result ≡ [] }
    {
        Memo {
            entries: IndexMap::new(alloc),
        }
    }

    /// What was found of a pair; None where it was not examined so.
    pub fn state(&self, kind: Kind, left: &HashId, right: &HashId) -> Option<State>
        ensures { (q : Policy) (r : Rep) (pool : Texts) (lefts rights : List Identifier) → IsMemo q r pool lefts rights self.now → IfSome result (λ s. IsSo q r kind s (shape_in pool (hash left.now)) (shape_in pool (hash right.now))) }
    {
        let pair = Pair {
            kind,
            left: *left,
            right: *right,
        };
        match self.entries.get(&pair) {
            Some(state) => Some(*state),
            None => None,
        }
    }

    /// Notes what was found of a pair of identifiers that the sides reach. It is a step where the pair is new.
    pub fn note<L: Ledger>(
        &mut self,
        steps: &mut Steps<L>,
        lefts: &Reach,
        rights: &Reach,
        kind: Kind,
        left: &HashId,
        right: &HashId,
        state: State,
    ) -> Result<(), OutOfMemory>
        ensures so { (q : Policy) (r : Rep) (pool : Texts) → IsMemo q r pool lefts.now rights.now self.old → IsSo q r kind state (shape_in pool (hash left.now)) (shape_in pool (hash right.now)) → IsMemo q r pool lefts.now rights.now self.new }
        ensures count { steps.new + length self.old ≡ steps.old + length self.new }
    {
        if !lefts.has(left) || !rights.has(right) {
            return Err(OutOfMemory);
        }
        let pair = Pair {
            kind,
            left: *left,
            right: *right,
        };
        if self.entries.insert(pair, state)?.is_none() {
            steps.tick();
        }
        Ok(())
    }
}
