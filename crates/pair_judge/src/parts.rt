ghost use Rattle.std.specs.Prelude.{◌≡◌, ◌+◌, ◌≤◌, ◌||◌, length, None, IfSome, false};
ghost use Rattle.std.specs.Option.{option_map};
ghost use Rattle.object_formats.specs.Objects.{hash};
ghost use Rattle.object_formats.specs.View as view;
ghost use Rattle.pair_memo.specs.nodes.Views.{bare_cases};
ghost use Rattle.pair_judge.specs.Judged.{Says, IsShort};
ghost use Rattle.pair_judge.specs.Questions.{ArmSeen, ArmsSeen, CasesSeen, IsKept, IsSeen, NodeSeen, PartSeen, PartsSeen, StructureSeen, arm_shape, arm_shapes, failure_in, label_rules_in, part_shape, part_shapes, shape_at_node, shape_of, strong_in, structure_of, structure_rules_in, union_of};
ghost use Rattle.xcdr_model.specs.Equivalence.{same_shape};
ghost use Rattle.xcdr_model.specs.Failure as spec;
ghost use Rattle.xcdr_model.specs.Rules.{same_case_names as same_names_of_cases};
ghost use Rattle.xt_shapes.specs.Select.{shape_at};
ghost use Rattle.xt_shapes.specs.Shape.{case_heads};

use crate::enums::enum_rules;
use crate::question::Question;
use crate::stops::{Stop, beneath, rule};
use node_judge::{
    common_member, default_case, holds_bound, ids_within, label_sets, needs_within,
    same_case_names, same_dims, same_ext, same_names, same_places, select,
};
use object_formats::{ObjectCase, ObjectMember, TypeIdentifier};
use pair_memo::nodes::{Arm, Node, Part, arm_at, cases_of, members_of, node_of, part_at};
use pair_memo::{Kind, Memo, State, Steps};
use std::sync::ledger::Ledger;
use type_trees::HashId;
use xcdr_model::Rule;
use xt_shapes::{Ext, Step};

impl<'p> Question<'p> {
    // ---- structures

    #[cycle(pairs)]
    #[tactic(auto, using(crate::proofs::Ends::says_rules, node_judge::proofs::Failing::step_rules, node_judge::proofs::Failing::structure_rules_is, pair_memo::proofs::OfNodes::Heads::bare_rules))]
    pub(crate) fn structures<L: Ledger>(
        &self,
        memo: &mut Memo,
        steps: &mut Steps<L>,
        top: bool,
        levels: u32,
        ext: Ext,
        left: &[Part<'p>],
        other: Ext,
        right: &[Part<'p>],
    ) -> Result<(), Stop>
        requires so { IsKept self.now memo.old }
        requires levels { levels ≤ 15 }
        requires left { PartsSeen self.now left.now }
        requires right { PartsSeen self.now right.now }
        ensures says { Says result (structure_rules_in self.now top ext left.now other right.now) }
        ensures short { IsShort (levels + 2) result }
        ensures so { IsKept self.now memo.new }
        ensures count { steps.new + length memo.old ≡ steps.old + length memo.new }
    {
        rule(Rule::Extensibility, same_ext(ext, other))?;
        rule(
            Rule::Names,
            self.policy.ignore_member_names || same_names(left, right),
        )?;
        rule(Rule::CommonMember, common_member(left, right))?;
        rule(
            Rule::MustUnderstand,
            needs_within(left, right) && needs_within(right, left),
        )?;
        self.top_rules(top, levels, left, right)?;
        self.structure_ends(memo, steps, levels, ext, left, right)
    }

    #[cycle(pairs)]
    #[tactic(auto, using(crate::proofs::Ends::says_rules, node_judge::proofs::Failing::step_rules, node_judge::proofs::Failing::end_rules, pair_memo::proofs::OfNodes::Heads::bare_rules))]
    fn structure_ends<L: Ledger>(
        &self,
        memo: &mut Memo,
        steps: &mut Steps<L>,
        levels: u32,
        ext: Ext,
        left: &[Part<'p>],
        right: &[Part<'p>],
    ) -> Result<(), Stop>
        requires so { IsKept self.now memo.old }
        requires levels { levels ≤ 15 }
        requires left { PartsSeen self.now left.now }
        requires right { PartsSeen self.now right.now }
        ensures says { Says result (spec.structure_ends self.now.policy.now self.now.rep ext (part_shapes self.now left.now) (part_shapes self.now right.now)) }
        ensures short { IsShort (levels + 2) result }
        ensures so { IsKept self.now memo.new }
        ensures count { steps.new + length memo.old ≡ steps.old + length memo.new }
    {
        match ext {
            Ext::Final => {
                rule(
                    Rule::MemberSet,
                    ids_within(left, right) && ids_within(right, left),
                )?;
                rule(Rule::MemberIndex, same_places(left, right))?;
                self.by_index(memo, steps, levels, left, right)
            }
            Ext::Appendable => {
                rule(Rule::MemberIndex, same_places(left, right))?;
                self.by_index(memo, steps, levels, left, right)
            }
            Ext::Mutable => self.by_id(memo, steps, levels, left, right),
        }
    }

    #[cycle(pairs)]
    #[tactic(auto, using(crate::proofs::Ends::says_rules, node_judge::proofs::Failing::step_rules))]
    fn by_index<L: Ledger>(
        &self,
        memo: &mut Memo,
        steps: &mut Steps<L>,
        levels: u32,
        left: &[Part<'p>],
        right: &[Part<'p>],
    ) -> Result<(), Stop>
        requires so { IsKept self.now memo.old }
        requires levels { levels ≤ 15 }
        requires left { PartsSeen self.now left.now }
        requires right { PartsSeen self.now right.now }
        ensures says { Says result (spec.index_failure self.now.policy.now self.now.rep (part_shapes self.now left.now) (part_shapes self.now right.now)) }
        ensures short { IsShort (levels + 2) result }
        ensures so { IsKept self.now memo.new }
        ensures count { steps.new + length memo.old ≡ steps.old + length memo.new }
    {
        for at in 0..left.len() {
            if at >= right.len() {
                return Ok(());
            }
            self.pair(memo, steps, levels, &left[at], &right[at])?;
        }
        Ok(())
    }

    #[cycle(pairs)]
    #[tactic(auto, using(crate::proofs::Ends::says_rules, node_judge::proofs::Failing::step_rules))]
    fn pair<L: Ledger>(
        &self,
        memo: &mut Memo,
        steps: &mut Steps<L>,
        levels: u32,
        left: &Part<'p>,
        right: &Part<'p>,
    ) -> Result<(), Stop>
        requires so { IsKept self.now memo.old }
        requires levels { levels ≤ 15 }
        requires left { PartSeen self.now left.now }
        requires right { PartSeen self.now right.now }
        ensures says { Says result (spec.step (Step.Member left.now.id) (strong_in self.now (part_shape self.now left.now) (part_shape self.now right.now))) }
        ensures short { IsShort (levels + 2) result }
        ensures so { IsKept self.now memo.new }
        ensures count { steps.new + length memo.old ≡ steps.old + length memo.new }
    {
        self.strong_beneath(
            memo,
            steps,
            Step::Member(left.id),
            levels,
            left.ty,
            right.ty,
        )
    }

    #[cycle(pairs)]
    #[tactic(auto, using(crate::proofs::Ends::says_rules, node_judge::proofs::Failing::step_rules))]
    fn by_id<L: Ledger>(
        &self,
        memo: &mut Memo,
        steps: &mut Steps<L>,
        levels: u32,
        left: &[Part<'p>],
        right: &[Part<'p>],
    ) -> Result<(), Stop>
        requires so { IsKept self.now memo.old }
        requires levels { levels ≤ 15 }
        requires left { PartsSeen self.now left.now }
        requires right { PartsSeen self.now right.now }
        ensures says { Says result (spec.id_failure self.now.policy.now self.now.rep (part_shapes self.now left.now) (part_shapes self.now right.now)) }
        ensures short { IsShort (levels + 2) result }
        ensures so { IsKept self.now memo.new }
        ensures count { steps.new + length memo.old ≡ steps.old + length memo.new }
    {
        for part in left {
            self.member(memo, steps, levels, part, right)?;
        }
        Ok(())
    }

    #[cycle(pairs)]
    #[tactic(auto, using(crate::proofs::Ends::says_rules, node_judge::proofs::Failing::step_rules))]
    fn member<L: Ledger>(
        &self,
        memo: &mut Memo,
        steps: &mut Steps<L>,
        levels: u32,
        part: &Part<'p>,
        others: &[Part<'p>],
    ) -> Result<(), Stop>
        requires so { IsKept self.now memo.old }
        requires levels { levels ≤ 15 }
        requires part { PartSeen self.now part.now }
        requires others { PartsSeen self.now others.now }
        ensures says { Says result (spec.if_some (shape_at (part_shapes self.now others.now) part.now.id) (λ u. spec.step (Step.Member part.now.id) (failure_in self.now false (part_shape self.now part.now) u))) }
        ensures short { IsShort (levels + 2) result }
        ensures so { IsKept self.now memo.new }
        ensures count { steps.new + length memo.old ≡ steps.old + length memo.new }
    {
        match part_at(others, part.id) {
            None => Ok(()),
            Some(other) => {
                self.plain_beneath(
                    memo,
                    steps,
                    Step::Member(part.id),
                    levels,
                    part.ty,
                    other.ty,
                )
            }
        }
    }

    // ---- unions

    #[cycle(pairs)]
    #[tactic(auto, using(crate::proofs::Ends::says_rules, node_judge::proofs::Failing::step_rules, pair_memo::proofs::OfNodes::Heads::bare_rules, crate::proofs::Paired::pair_rules))]
    pub(crate) fn cases<L: Ledger>(
        &self,
        memo: &mut Memo,
        steps: &mut Steps<L>,
        levels: u32,
        ext: Ext,
        left: &[Arm<'p>],
        right: &[Arm<'p>],
    ) -> Result<(), Stop>
        requires so { IsKept self.now memo.old }
        requires levels { levels ≤ 15 }
        requires left { ArmsSeen self.now left.now }
        requires right { ArmsSeen self.now right.now }
        ensures says { Says result (label_rules_in self.now ext left.now right.now) }
        ensures short { IsShort (levels + 2) result }
        ensures so { IsKept self.now memo.new }
        ensures count { steps.new + length memo.old ≡ steps.old + length memo.new }
    {
        rule(Rule::Labels, label_sets(ext, left, right))?;
        self.by_side(memo, steps, levels, left, right, right)?;
        self.by_side(memo, steps, levels, left, right, left)?;
        self.defaults(memo, steps, levels, left, right)
    }

    /// At the cases that each label of a side's cases selects.
    #[cycle(pairs)]
    #[tactic(auto, using(crate::proofs::Ends::says_rules, node_judge::proofs::Failing::step_rules))]
    fn by_side<L: Ledger>(
        &self,
        memo: &mut Memo,
        steps: &mut Steps<L>,
        levels: u32,
        left: &[Arm<'p>],
        right: &[Arm<'p>],
        side: &[Arm<'p>],
    ) -> Result<(), Stop>
        requires so { IsKept self.now memo.old }
        requires levels { levels ≤ 15 }
        requires left { ArmsSeen self.now left.now }
        requires right { ArmsSeen self.now right.now }
        ensures says { Says result (spec.first_of (spec.label_failure self.now.policy.now self.now.rep (arm_shapes self.now left.now) (arm_shapes self.now right.now)) (spec.all_labels (bare_cases side.now))) }
        ensures short { IsShort (levels + 2) result }
        ensures so { IsKept self.now memo.new }
        ensures count { steps.new + length memo.old ≡ steps.old + length memo.new }
    {
        for arm in side {
            self.by_labels(memo, steps, levels, left, right, arm.labels)?;
        }
        Ok(())
    }

    #[cycle(pairs)]
    #[tactic(auto, using(crate::proofs::Ends::says_rules, node_judge::proofs::Failing::step_rules))]
    fn by_labels<L: Ledger>(
        &self,
        memo: &mut Memo,
        steps: &mut Steps<L>,
        levels: u32,
        left: &[Arm<'p>],
        right: &[Arm<'p>],
        labels: &[i32],
    ) -> Result<(), Stop>
        requires so { IsKept self.now memo.old }
        requires levels { levels ≤ 15 }
        requires left { ArmsSeen self.now left.now }
        requires right { ArmsSeen self.now right.now }
        ensures says { Says result (spec.first_of (spec.label_failure self.now.policy.now self.now.rep (arm_shapes self.now left.now) (arm_shapes self.now right.now)) labels.now) }
        ensures short { IsShort (levels + 2) result }
        ensures so { IsKept self.now memo.new }
        ensures count { steps.new + length memo.old ≡ steps.old + length memo.new }
    {
        for label in labels {
            self.by_label(memo, steps, levels, left, right, *label)?;
        }
        Ok(())
    }

    #[cycle(pairs)]
    #[tactic(auto, using(crate::proofs::Ends::says_rules, node_judge::proofs::Failing::step_rules, node_judge::proofs::Failing::case_pair_is, pair_memo::proofs::OfNodes::Heads::bare_rules))]
    fn by_label<L: Ledger>(
        &self,
        memo: &mut Memo,
        steps: &mut Steps<L>,
        levels: u32,
        left: &[Arm<'p>],
        right: &[Arm<'p>],
        label: i32,
    ) -> Result<(), Stop>
        requires so { IsKept self.now memo.old }
        requires levels { levels ≤ 15 }
        requires left { ArmsSeen self.now left.now }
        requires right { ArmsSeen self.now right.now }
        ensures says { Says result (spec.label_failure self.now.policy.now self.now.rep (arm_shapes self.now left.now) (arm_shapes self.now right.now) label) }
        ensures short { IsShort (levels + 2) result }
        ensures so { IsKept self.now memo.new }
        ensures count { steps.new + length memo.old ≡ steps.old + length memo.new }
    {
        match select(left, label) {
            None => Ok(()),
            Some(id) => match select(right, label) {
                None => Ok(()),
                Some(other) => self.case(memo, steps, levels, left, id, arm_at(right, other)),
            },
        }
    }

    #[cycle(pairs)]
    #[tactic(auto, using(crate::proofs::Ends::says_rules, node_judge::proofs::Failing::step_rules, pair_memo::proofs::OfNodes::Heads::bare_rules))]
    fn defaults<L: Ledger>(
        &self,
        memo: &mut Memo,
        steps: &mut Steps<L>,
        levels: u32,
        left: &[Arm<'p>],
        right: &[Arm<'p>],
    ) -> Result<(), Stop>
        requires so { IsKept self.now memo.old }
        requires levels { levels ≤ 15 }
        requires left { ArmsSeen self.now left.now }
        requires right { ArmsSeen self.now right.now }
        ensures says { Says result (spec.default_failure self.now.policy.now self.now.rep (arm_shapes self.now left.now) (arm_shapes self.now right.now)) }
        ensures short { IsShort (levels + 2) result }
        ensures so { IsKept self.now memo.new }
        ensures count { steps.new + length memo.old ≡ steps.old + length memo.new }
    {
        match default_case(left) {
            None => Ok(()),
            Some(id) => match default_case(right) {
                None => Ok(()),
                Some(other) => self.case(memo, steps, levels, left, id, arm_at(right, other)),
            },
        }
    }

    /// At the reader's case of an id.
    #[cycle(pairs)]
    #[tactic(auto, using(crate::proofs::Ends::says_rules, node_judge::proofs::Failing::step_rules, crate::proofs::Paired::case_is))]
    fn case<L: Ledger>(
        &self,
        memo: &mut Memo,
        steps: &mut Steps<L>,
        levels: u32,
        left: &[Arm<'p>],
        id: u32,
        other: Option<&Arm<'p>>,
    ) -> Result<(), Stop>
        requires so { IsKept self.now memo.old }
        requires levels { levels ≤ 15 }
        requires left { ArmsSeen self.now left.now }
        requires other { IfSome other (λ a. ArmSeen self.now a.now) }
        ensures says { Says result (spec.case_failure self.now.policy.now self.now.rep (arm_shapes self.now left.now) id (option_map (λ a. arm_shape self.now a.now) other.entry)) }
        ensures short { IsShort (levels + 2) result }
        ensures so { IsKept self.now memo.new }
        ensures count { steps.new + length memo.old ≡ steps.old + length memo.new }
    {
        match arm_at(left, id) {
            None => Ok(()),
            Some(arm) => match other {
                None => Ok(()),
                Some(other) => {
                    self.plain_beneath(memo, steps, Step::Member(id), levels, arm.ty, other.ty)
                }
            },
        }
    }
}
