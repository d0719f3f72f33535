ghost use Rattle.std.specs.Prelude.{◌≡◌, ◌+◌, ◌≤◌, ◌||◌, length, None, IfSome, false};
ghost use Rattle.std.specs.Option.{option_map};
ghost use Rattle.object_formats.specs.Objects.{hash};
ghost use Rattle.object_formats.specs.View as view;
ghost use Rattle.pair_memo.specs.nodes.Views.{bare_cases};
ghost use Rattle.pair_judge.specs.Judged.{Says, IsShort};
ghost use Rattle.pair_judge.specs.Questions.{ArmSeen, ArmsSeen, CasesSeen, IsKept, IsSeen, NodeSeen, PartSeen, PartsSeen, StructureSeen, arm_shape, arm_shapes, failure_in, label_rules_in, part_shape, part_shapes, shape_at_node, shape_of, strong_in, structure_of, structure_rules_in, union_of};
ghost use Rattle.xcdr_model.specs.Equivalence.{same_shape};
ghost use Rattle.xcdr_model.specs.Failure as spec;
ghost use Rattle.xcdr_model.specs.Rules.{same_case_names as same_names_of_cases};
ghost use Rattle.xt_shapes.specs.Select.{shape_at};
ghost use Rattle.xt_shapes.specs.Shape.{case_heads};

use crate::enums::enum_rules;
use crate::question::Question;
use crate::stops::{Stop, beneath, rule};
use node_judge::{
    asks_equal, common_member, default_case, holds_bound, ids_within, label_sets, needs_within,
    same_case_names, same_dims, same_ext, same_names, same_places, select,
};
use object_formats::{ObjectCase, ObjectMember, TypeIdentifier};
use pair_memo::nodes::{Arm, Node, Part, arm_at, cases_of, members_of, node_of, part_at};
use pair_memo::{Kind, Memo, State, Steps};
use std::sync::ledger::Ledger;
use type_trees::HashId;
use xcdr_model::Rule;
use xt_shapes::{Ext, Step};

impl<'p> Question<'p> {
    /// The rules at a pair that is reached by a strong descent. Each pair of identifiers is examined once.
    #[cycle(pairs)]
    #[tactic(auto, using(crate::proofs::Ends::says_rules, node_judge::proofs::Failing::step_rules, object_formats::proofs::Views::identifier_rules))]
    fn strong<L: Ledger>(
        &self,
        memo: &mut Memo,
        steps: &mut Steps<L>,
        levels: u32,
        left: &'p TypeIdentifier,
        right: &'p TypeIdentifier,
    ) -> Result<(), Stop>
        requires so { IsKept self.now memo.old }
        requires levels { levels ≤ 15 }
        requires left { IsSeen self.now left.now }
        requires right { IsSeen self.now right.now }
        ensures says { Says result (strong_in self.now (shape_of self.now left.now) (shape_of self.now right.now)) }
        ensures short { IsShort (levels + 1) result }
        ensures so { IsKept self.now memo.new }
        ensures count { steps.new + length memo.old ≡ steps.old + length memo.new }
    {
        if let TypeIdentifier::Hash(id) = left {
            if let TypeIdentifier::Hash(other) = right {
                return self.strong_named(memo, steps, levels, left, right, id, other);
            }
        }
        self.strong_rules(memo, steps, levels, left, right)
    }

    #[cycle(pairs)]
    #[tactic(auto, using(crate::proofs::Ends::says_rules, node_judge::proofs::Failing::step_rules))]
    fn strong_named<L: Ledger>(
        &self,
        memo: &mut Memo,
        steps: &mut Steps<L>,
        levels: u32,
        left: &'p TypeIdentifier,
        right: &'p TypeIdentifier,
        id: &HashId,
        other: &HashId,
    ) -> Result<(), Stop>
        requires so { IsKept self.now memo.old }
        requires levels { levels ≤ 15 }
        requires left { IsSeen self.now left.now }
        requires right { IsSeen self.now right.now }
        requires id { view.identifier left.now ≡ hash id.now }
        requires other { view.identifier right.now ≡ hash other.now }
        ensures says { Says result (strong_in self.now (shape_of self.now left.now) (shape_of self.now right.now)) }
        ensures short { IsShort (levels + 1) result }
        ensures so { IsKept self.now memo.new }
        ensures count { steps.new + length memo.old ≡ steps.old + length memo.new }
    {
        match self.known(memo, Kind::Strong, id, other) {
            Some(State::Holds) => Ok(()),
            Some(State::Differs) => Err(Stop::OutOfMemory),
            Some(State::Open) => Err(Stop::OutOfMemory),
            None => {
                self.note(memo, steps, Kind::Strong, id, other, State::Open)?;
                self.strong_rules(memo, steps, levels, left, right)?;
                Ok(self.note(memo, steps, Kind::Strong, id, other, State::Holds)?)
            }
        }
    }

    #[cycle(pairs)]
    #[tactic(auto, using(crate::proofs::Ends::says_rules, node_judge::proofs::Failing::step_rules, node_judge::proofs::Failing::strong_is))]
    fn strong_rules<L: Ledger>(
        &self,
        memo: &mut Memo,
        steps: &mut Steps<L>,
        levels: u32,
        left: &'p TypeIdentifier,
        right: &'p TypeIdentifier,
    ) -> Result<(), Stop>
        requires so { IsKept self.now memo.old }
        requires levels { levels ≤ 15 }
        requires left { IsSeen self.now left.now }
        requires right { IsSeen self.now right.now }
        ensures says { Says result (strong_in self.now (shape_of self.now left.now) (shape_of self.now right.now)) }
        ensures short { IsShort (levels + 1) result }
        ensures so { IsKept self.now memo.new }
        ensures count { steps.new + length memo.old ≡ steps.old + length memo.new }
    {
        if self.same(memo, steps, levels, left, right)? {
            return Ok(());
        }
        let delimited = self.delimited(levels, right)?;
        rule(Rule::NotDelimited, delimited)?;
        self.plain(memo, steps, levels, left, right)
    }

    /// The rules at a pair of parts. Each pair of identifiers is examined once.
    #[cycle(pairs)]
    #[tactic(auto, using(crate::proofs::Ends::says_rules, node_judge::proofs::Failing::step_rules, object_formats::proofs::Views::identifier_rules))]
    fn plain<L: Ledger>(
        &self,
        memo: &mut Memo,
        steps: &mut Steps<L>,
        levels: u32,
        left: &'p TypeIdentifier,
        right: &'p TypeIdentifier,
    ) -> Result<(), Stop>
        requires so { IsKept self.now memo.old }
        requires levels { levels ≤ 15 }
        requires left { IsSeen self.now left.now }
        requires right { IsSeen self.now right.now }
        ensures says { Says result (failure_in self.now false (shape_of self.now left.now) (shape_of self.now right.now)) }
        ensures short { IsShort (levels + 1) result }
        ensures so { IsKept self.now memo.new }
        ensures count { steps.new + length memo.old ≡ steps.old + length memo.new }
    {
        if let TypeIdentifier::Hash(id) = left {
            if let TypeIdentifier::Hash(other) = right {
                return self.plain_named(memo, steps, levels, left, right, id, other);
            }
        }
        self.nodes(memo, steps, false, levels, left, right)
    }

    #[cycle(pairs)]
    #[tactic(auto, using(crate::proofs::Ends::says_rules, node_judge::proofs::Failing::step_rules))]
    fn plain_named<L: Ledger>(
        &self,
        memo: &mut Memo,
        steps: &mut Steps<L>,
        levels: u32,
        left: &'p TypeIdentifier,
        right: &'p TypeIdentifier,
        id: &HashId,
        other: &HashId,
    ) -> Result<(), Stop>
        requires so { IsKept self.now memo.old }
        requires levels { levels ≤ 15 }
        requires left { IsSeen self.now left.now }
        requires right { IsSeen self.now right.now }
        requires id { view.identifier left.now ≡ hash id.now }
        requires other { view.identifier right.now ≡ hash other.now }
        ensures says { Says result (failure_in self.now false (shape_of self.now left.now) (shape_of self.now right.now)) }
        ensures short { IsShort (levels + 1) result }
        ensures so { IsKept self.now memo.new }
        ensures count { steps.new + length memo.old ≡ steps.old + length memo.new }
    {
        match self.known(memo, Kind::Plain, id, other) {
            Some(State::Holds) => Ok(()),
            Some(State::Differs) => Err(Stop::OutOfMemory),
            Some(State::Open) => Err(Stop::OutOfMemory),
            None => {
                self.note(memo, steps, Kind::Plain, id, other, State::Open)?;
                self.nodes(memo, steps, false, levels, left, right)?;
                Ok(self.note(memo, steps, Kind::Plain, id, other, State::Holds)?)
            }
        }
    }

    /// The rules at a pair of types: of the top, or of parts.
    #[cycle(pairs)]
    #[tactic(auto, using(crate::proofs::Ends::says_rules, node_judge::proofs::Failing::step_rules))]
    fn nodes<L: Ledger>(
        &self,
        memo: &mut Memo,
        steps: &mut Steps<L>,
        top: bool,
        levels: u32,
        left: &'p TypeIdentifier,
        right: &'p TypeIdentifier,
    ) -> Result<(), Stop>
        requires so { IsKept self.now memo.old }
        requires levels { levels ≤ 16 }
        requires left { IsSeen self.now left.now }
        requires right { IsSeen self.now right.now }
        ensures says { Says result (failure_in self.now top (shape_of self.now left.now) (shape_of self.now right.now)) }
        ensures short { IsShort (levels + 1) result }
        ensures so { IsKept self.now memo.new }
        ensures count { steps.new + length memo.old ≡ steps.old + length memo.new }
    {
        if levels == 0 {
            return Err(Stop::OutOfMemory);
        }
        let one = node_of(self.pool, left)?;
        let two = node_of(self.pool, right)?;
        self.kinds(memo, steps, top, levels - 1, &one, &two)
    }

    #[cycle(pairs)]
    #[tactic(auto, using(crate::proofs::Ends::says_rules, node_judge::proofs::Failing::step_rules, node_judge::proofs::Failing::kind_rules, pair_memo::proofs::OfNodes::Levels::both_rules))]
    fn kinds<L: Ledger>(
        &self,
        memo: &mut Memo,
        steps: &mut Steps<L>,
        top: bool,
        levels: u32,
        left: &Node<'p>,
        right: &Node<'p>,
    ) -> Result<(), Stop>
        requires so { IsKept self.now memo.old }
        requires levels { levels ≤ 15 }
        requires left { NodeSeen self.now left.now }
        requires right { NodeSeen self.now right.now }
        ensures says { Says result (failure_in self.now top (shape_at_node self.now left.now) (shape_at_node self.now right.now)) }
        ensures short { IsShort (levels + 2) result }
        ensures so { IsKept self.now memo.new }
        ensures count { steps.new + length memo.old ≡ steps.old + length memo.new }
    {
        match left {
            Node::Prim(prim) => match right {
                Node::Prim(other) => rule(Rule::Kind, *prim == *other),
                _ => rule(Rule::Kind, false),
            },
            Node::Str(bound) => match right {
                Node::Str(other) => rule(
                    Rule::Bound,
                    self.policy.ignore_string_bounds || holds_bound(*bound, *other),
                ),
                _ => rule(Rule::Kind, false),
            },
            Node::Enum {
                ext,
                bits,
                literals,
            } => match right {
                Node::Enum {
                    ext: other_ext,
                    bits: other_bits,
                    literals: others,
                } => enum_rules(*ext, *bits, literals, *other_ext, *other_bits, others),
                _ => rule(Rule::Kind, false),
            },
            Node::Mask { bits, .. } => match right {
                Node::Mask { bits: other, .. } => rule(Rule::BitBound, *bits == *other),
                _ => rule(Rule::Kind, false),
            },
            Node::Seq { bound, element, .. } => match right {
                Node::Seq {
                    bound: other,
                    element: right,
                    ..
                } => {
                    rule(
                        Rule::Bound,
                        self.policy.ignore_sequence_bounds || holds_bound(*bound, *other),
                    )?;
                    self.strong_beneath(memo, steps, Step::Element, levels, element, right)
                }
                _ => rule(Rule::Kind, false),
            },
            Node::Array { dims, element, .. } => match right {
                Node::Array {
                    dims: other,
                    element: right,
                    ..
                } => {
                    rule(Rule::Dimensions, same_dims(dims, other))?;
                    self.strong_beneath(memo, steps, Step::Element, levels, element, right)
                }
                _ => rule(Rule::Kind, false),
            },
            Node::Map {
                bound,
                key,
                value,
                ..
            } => match right {
                Node::Map {
                    bound: other,
                    key: right_key,
                    value: right,
                    ..
                } => {
                    rule(
                        Rule::Bound,
                        self.policy.ignore_sequence_bounds || holds_bound(*bound, *other),
                    )?;
                    self.strong_beneath(memo, steps, Step::Key, levels, key, right_key)?;
                    self.strong_beneath(memo, steps, Step::Entry, levels, value, right)
                }
                _ => rule(Rule::Kind, false),
            },
            Node::Struct { ext, base, own } => match right {
                Node::Struct {
                    ext: other,
                    base: right_base,
                    own: right,
                } => self.structure_pair(
                    memo, steps, top, levels, *ext, base, own, *other, right_base, right,
                ),
                _ => rule(Rule::Kind, false),
            },
            Node::Union {
                ext,
                key,
                disc,
                cases,
            } => match right {
                Node::Union {
                    ext: other,
                    key: other_key,
                    disc: right_disc,
                    cases: right,
                } => self.union_pair(
                    memo, steps, top, levels, *ext, *key, disc, cases, *other, *other_key,
                    right_disc, right,
                ),
                _ => rule(Rule::Kind, false),
            },
        }
    }

    /// Whether cases have the same name exactly where they have the same id.
    fn same_arm_names(&self, left: &[Arm<'p>], right: &[Arm<'p>]) -> bool
        ensures { result ≡ same_names_of_cases (case_heads (arm_shapes self.now left.now)) (case_heads (arm_shapes self.now right.now)) }
    {
        same_case_names(left, right)
    }

    // ---- pairs of a kind

    #[cycle(pairs)]
    fn structure_pair<L: Ledger>(
        &self,
        memo: &mut Memo,
        steps: &mut Steps<L>,
        top: bool,
        levels: u32,
        ext: Ext,
        base: &'p TypeIdentifier,
        own: &'p [ObjectMember],
        other_ext: Ext,
        other: &'p TypeIdentifier,
        others: &'p [ObjectMember],
    ) -> Result<(), Stop>
        requires so { IsKept self.now memo.old }
        requires levels { levels ≤ 15 }
        requires left { StructureSeen self.now base.now own.now }
        requires right { StructureSeen self.now other.now others.now }
        ensures says { Says result (failure_in self.now top (structure_of self.now ext base.now own.now) (structure_of self.now other_ext other.now others.now)) }
        ensures short { IsShort (levels + 2) result }
        ensures so { IsKept self.now memo.new }
        ensures count { steps.new + length memo.old ≡ steps.old + length memo.new }
    {
        let one = members_of(self.alloc, self.pool, base, own)?;
        let two = members_of(self.alloc, self.pool, other, others)?;
        let left = one.as_slice();
        let right = two.as_slice();
        self.structures(memo, steps, top, levels, ext, left, other_ext, right)
    }

    #[cycle(pairs)]
    fn union_pair<L: Ledger>(
        &self,
        memo: &mut Memo,
        steps: &mut Steps<L>,
        top: bool,
        levels: u32,
        ext: Ext,
        key: bool,
        disc: &'p TypeIdentifier,
        cases: &'p [ObjectCase],
        other_ext: Ext,
        other_key: bool,
        other: &'p TypeIdentifier,
        others: &'p [ObjectCase],
    ) -> Result<(), Stop>
        requires so { IsKept self.now memo.old }
        requires levels { levels ≤ 15 }
        requires disc { IsSeen self.now disc.now }
        requires other { IsSeen self.now other.now }
        requires left { CasesSeen self.now cases.now }
        requires right { CasesSeen self.now others.now }
        ensures says { Says result (failure_in self.now top (union_of self.now ext key disc.now cases.now) (union_of self.now other_ext other_key other.now others.now)) }
        ensures short { IsShort (levels + 2) result }
        ensures so { IsKept self.now memo.new }
        ensures count { steps.new + length memo.old ≡ steps.old + length memo.new }
    {
        let one = cases_of(self.alloc, cases)?;
        let two = cases_of(self.alloc, others)?;
        let left = one.as_slice();
        let right = two.as_slice();
        self.unions(
            memo, steps, top, levels, ext, key, disc, left, other_ext, other_key, other, right,
        )
    }

    #[cycle(pairs)]
    #[tactic(auto, using(crate::proofs::Ends::says_rules, node_judge::proofs::Failing::step_rules))]
    fn unions<L: Ledger>(
        &self,
        memo: &mut Memo,
        steps: &mut Steps<L>,
        top: bool,
        levels: u32,
        ext: Ext,
        key: bool,
        disc: &'p TypeIdentifier,
        left: &[Arm<'p>],
        other_ext: Ext,
        other_key: bool,
        other: &'p TypeIdentifier,
        right: &[Arm<'p>],
    ) -> Result<(), Stop>
        requires so { IsKept self.now memo.old }
        requires levels { levels ≤ 15 }
        requires disc { IsSeen self.now disc.now }
        requires other { IsSeen self.now other.now }
        requires left { ArmsSeen self.now left.now }
        requires right { ArmsSeen self.now right.now }
        ensures says { Says result (spec.union_rules self.now.policy.now self.now.rep top (ext, key, shape_of self.now disc.now, arm_shapes self.now left.now) (other_ext, other_key, shape_of self.now other.now, arm_shapes self.now right.now)) }
        ensures short { IsShort (levels + 2) result }
        ensures so { IsKept self.now memo.new }
        ensures count { steps.new + length memo.old ≡ steps.old + length memo.new }
    {
        rule(Rule::Extensibility, same_ext(ext, other_ext))?;
        rule(
            Rule::Names,
            self.policy.ignore_member_names || self.same_arm_names(left, right),
        )?;
        rule(Rule::Discriminator, !top || key == other_key)?;
        self.strong_beneath(memo, steps, Step::Disc, levels, disc, other)?;
        self.cases(memo, steps, levels, ext, left, right)
    }

    #[cycle(pairs)]
    #[tactic(auto, using(crate::proofs::Ends::says_rules, node_judge::proofs::Failing::step_rules))]
    pub(crate) fn strong_beneath<L: Ledger>(
        &self,
        memo: &mut Memo,
        steps: &mut Steps<L>,
        step: Step,
        levels: u32,
        left: &'p TypeIdentifier,
        right: &'p TypeIdentifier,
    ) -> Result<(), Stop>
        requires so { IsKept self.now memo.old }
        requires levels { levels ≤ 15 }
        requires left { IsSeen self.now left.now }
        requires right { IsSeen self.now right.now }
        ensures says { Says result (spec.step step (strong_in self.now (shape_of self.now left.now) (shape_of self.now right.now))) }
        ensures short { IsShort (levels + 2) result }
        ensures so { IsKept self.now memo.new }
        ensures count { steps.new + length memo.old ≡ steps.old + length memo.new }
    {
        beneath(step, self.strong(memo, steps, levels, left, right))
    }

    #[cycle(pairs)]
    #[tactic(auto, using(crate::proofs::Ends::says_rules, node_judge::proofs::Failing::step_rules))]
    pub(crate) fn plain_beneath<L: Ledger>(
        &self,
        memo: &mut Memo,
        steps: &mut Steps<L>,
        step: Step,
        levels: u32,
        left: &'p TypeIdentifier,
        right: &'p TypeIdentifier,
    ) -> Result<(), Stop>
        requires so { IsKept self.now memo.old }
        requires levels { levels ≤ 15 }
        requires left { IsSeen self.now left.now }
        requires right { IsSeen self.now right.now }
        ensures says { Says result (spec.step step (failure_in self.now false (shape_of self.now left.now) (shape_of self.now right.now))) }
        ensures short { IsShort (levels + 2) result }
        ensures so { IsKept self.now memo.new }
        ensures count { steps.new + length memo.old ≡ steps.old + length memo.new }
    {
        beneath(step, self.plain(memo, steps, levels, left, right))
    }

    // ---- the top

    /// The rule that top types are equivalent, unless the policy allows others.
    #[tactic(auto, using(node_judge::proofs::Failing::step_rules))]
    fn coerced<L: Ledger>(
        &self,
        memo: &mut Memo,
        steps: &mut Steps<L>,
        left: &'p TypeIdentifier,
        right: &'p TypeIdentifier,
    ) -> Result<(), Stop>
        requires so { IsKept self.now memo.old }
        requires left { IsSeen self.now left.now }
        requires right { IsSeen self.now right.now }
        ensures says { Says result (spec.rule Rule.Coercion (self.now.policy.now.coercion || same_shape (shape_of self.now left.now) (shape_of self.now right.now)) None) }
        ensures so { IsKept self.now memo.new }
        ensures count { steps.new + length memo.old ≡ steps.old + length memo.new }
    {
        if !asks_equal(self.policy) {
            return Ok(());
        }
        let same = self.same(memo, steps, 16, left, right)?;
        rule(Rule::Coercion, same)
    }

    /// The rules at the top pair.
    #[tactic(auto, using(crate::proofs::Ends::says_rules))]
    pub(crate) fn first<L: Ledger>(
        &self,
        memo: &mut Memo,
        steps: &mut Steps<L>,
        left: &'p TypeIdentifier,
        right: &'p TypeIdentifier,
        id: &HashId,
        other: &HashId,
    ) -> Result<(), Stop>
        requires so { IsKept self.now memo.old }
        requires left { IsSeen self.now left.now }
        requires right { IsSeen self.now right.now }
        requires id { view.identifier left.now ≡ hash id.now }
        requires other { view.identifier right.now ≡ hash other.now }
        ensures says { Says result (spec.first_failure self.now.policy.now self.now.rep (shape_of self.now left.now) (shape_of self.now right.now)) }
        ensures so { IsKept self.now memo.new }
        ensures count { steps.new + length memo.old ≡ steps.old + length memo.new }
    {
        self.note(memo, steps, Kind::Top, id, other, State::Open)?;
        self.coerced(memo, steps, left, right)?;
        self.nodes(memo, steps, true, 16, left, right)
    }
}
