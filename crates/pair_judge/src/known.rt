ghost use Rattle.std.specs.Prelude.{◌≡◌, ◌+◌, length, IfSome};
ghost use Rattle.object_formats.specs.Objects.{hash};
ghost use Rattle.pair_memo.specs.nodes.Seen.{shape_in};
ghost use Rattle.pair_judge.specs.Questions.{IsKept};
ghost use Rattle.pair_memo.specs.Memos.{IsSo};

use crate::question::Question;
use pair_memo::{Kind, Memo, State, Steps};
use std::sync::ledger::Ledger;
use type_trees::HashId;
use xt_lists::OutOfMemory;

impl Question<'_> {
    /// What was found of a pair of identifiers; None where it was not examined so.
    pub(crate) fn known(
        &self,
        memo: &Memo,
        kind: Kind,
        id: &HashId,
        other: &HashId,
    ) -> Option<State>
        requires { IsKept self.now memo.now }
        ensures { IfSome result (λ s. IsSo self.now.policy.now self.now.rep kind s (shape_in self.now.pool.now (hash id.now)) (shape_in self.now.pool.now (hash other.now))) }
    {
        memo.state(kind, id, other)
    }

    /// Notes what was found of a pair of identifiers. It is a step where the pair is new.
    pub(crate) fn note<L: Ledger>(
        &self,
        memo: &mut Memo,
        steps: &mut Steps<L>,
        kind: Kind,
        id: &HashId,
        other: &HashId,
        state: State,
    ) -> Result<(), OutOfMemory>
        requires so { IsKept self.now memo.old }
        requires is { IsSo self.now.policy.now self.now.rep kind state (shape_in self.now.pool.now (hash id.now)) (shape_in self.now.pool.now (hash other.now)) }
        ensures so { IsKept self.now memo.new }
        ensures count { steps.new + length memo.old ≡ steps.old + length memo.new }
    {
        memo.note(steps, self.lefts, self.rights, kind, id, other, state)
    }
}
