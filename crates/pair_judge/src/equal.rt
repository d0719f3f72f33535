ghost use Rattle.std.specs.Prelude.{◌≡◌, ◌+◌, length, IfOk};
ghost use Rattle.object_formats.specs.Objects.{hash};
ghost use Rattle.object_formats.specs.View as view;
ghost use Rattle.pair_memo.specs.nodes.Seen.{shape_in};
ghost use Rattle.pair_judge.specs.Beside as beside;
ghost use Rattle.pair_judge.specs.Questions.{BranchesSeen, CasesSeen, IsKept, IsSeen, NodeSeen, StructureSeen, shape_at_node, shape_of, structure_of, union_of};
ghost use Rattle.pair_memo.specs.Memos.{state_for};
ghost use Rattle.xcdr_model.specs.Equivalence as spec;

use crate::branches::Branches;
use crate::question::Question;
use node_judge::{same_dims, same_ext, same_flags, same_kind_of_union, same_literals};
use object_formats::{ObjectCase, ObjectMember, TypeIdentifier};
use pair_memo::nodes::{Node, cases_of, members_of, node_of};
use pair_memo::{Kind, Memo, State, Steps};
use std::sync::ledger::Ledger;
use type_trees::HashId;
use xt_lists::OutOfMemory;
use xt_shapes::Ext;

fn state_of(same: bool) -> State
    ensures { result ≡ state_for same }
{
    if same { State::Holds } else { State::Differs }
}

impl<'p> Question<'p> {
    /// Whether two types are equivalent. Each pair of identifiers is examined once.
    #[cycle(equal)]
    #[tactic(auto, using(object_formats::proofs::Views::identifier_rules))]
    pub(crate) fn same<L: Ledger>(
        &self,
        memo: &mut Memo,
        steps: &mut Steps<L>,
        levels: u32,
        left: &'p TypeIdentifier,
        right: &'p TypeIdentifier,
    ) -> Result<bool, OutOfMemory>
        requires so { IsKept self.now memo.old }
        requires left { IsSeen self.now left.now }
        requires right { IsSeen self.now right.now }
        ensures same { IfOk result (λ b. b ≡ spec.same_shape (shape_of self.now left.now) (shape_of self.now right.now)) }
        ensures so { IsKept self.now memo.new }
        ensures count { steps.new + length memo.old ≡ steps.old + length memo.new }
    {
        if let TypeIdentifier::Hash(id) = left {
            if let TypeIdentifier::Hash(other) = right {
                return self.same_named(memo, steps, levels, left, right, id, other);
            }
        }
        self.same_nodes(memo, steps, levels, left, right)
    }

    #[cycle(equal)]
    #[tactic(auto, using(pair_memo::proofs::Kept::equal_so))]
    fn same_named<L: Ledger>(
        &self,
        memo: &mut Memo,
        steps: &mut Steps<L>,
        levels: u32,
        left: &'p TypeIdentifier,
        right: &'p TypeIdentifier,
        id: &HashId,
        other: &HashId,
    ) -> Result<bool, OutOfMemory>
        requires so { IsKept self.now memo.old }
        requires left { IsSeen self.now left.now }
        requires right { IsSeen self.now right.now }
        requires id { view.identifier left.now ≡ hash id.now }
        requires other { view.identifier right.now ≡ hash other.now }
        ensures same { IfOk result (λ b. b ≡ spec.same_shape (shape_of self.now left.now) (shape_of self.now right.now)) }
        ensures so { IsKept self.now memo.new }
        ensures count { steps.new + length memo.old ≡ steps.old + length memo.new }
    {
        match self.known(memo, Kind::Equivalent, id, other) {
            Some(State::Holds) => Ok(true),
            Some(State::Differs) => Ok(false),
            Some(State::Open) => Err(OutOfMemory),
            None => {
                self.note(memo, steps, Kind::Equivalent, id, other, State::Open)?;
                let same = self.same_nodes(memo, steps, levels, left, right)?;
                self.note(memo, steps, Kind::Equivalent, id, other, state_of(same))?;
                Ok(same)
            }
        }
    }

    #[cycle(equal)]
    fn same_nodes<L: Ledger>(
        &self,
        memo: &mut Memo,
        steps: &mut Steps<L>,
        levels: u32,
        left: &'p TypeIdentifier,
        right: &'p TypeIdentifier,
    ) -> Result<bool, OutOfMemory>
        requires so { IsKept self.now memo.old }
        requires left { IsSeen self.now left.now }
        requires right { IsSeen self.now right.now }
        ensures same { IfOk result (λ b. b ≡ spec.same_shape (shape_of self.now left.now) (shape_of self.now right.now)) }
        ensures so { IsKept self.now memo.new }
        ensures count { steps.new + length memo.old ≡ steps.old + length memo.new }
    {
        if levels == 0 {
            return Err(OutOfMemory);
        }
        let one = node_of(self.pool, left)?;
        let two = node_of(self.pool, right)?;
        self.same_kinds(memo, steps, levels - 1, &one, &two)
    }

    #[cycle(equal)]
    #[tactic(auto, using(pair_memo::proofs::OfNodes::Levels::both_rules))]
    fn same_kinds<L: Ledger>(
        &self,
        memo: &mut Memo,
        steps: &mut Steps<L>,
        levels: u32,
        left: &Node<'p>,
        right: &Node<'p>,
    ) -> Result<bool, OutOfMemory>
        requires so { IsKept self.now memo.old }
        requires left { NodeSeen self.now left.now }
        requires right { NodeSeen self.now right.now }
        ensures same { IfOk result (λ b. b ≡ spec.same_shape (shape_at_node self.now left.now) (shape_at_node self.now right.now)) }
        ensures so { IsKept self.now memo.new }
        ensures count { steps.new + length memo.old ≡ steps.old + length memo.new }
    {
        match left {
            Node::Prim(prim) => match right {
                Node::Prim(other) => Ok(*prim == *other),
                _ => Ok(false),
            },
            Node::Str(bound) => match right {
                Node::Str(other) => Ok(*bound == *other),
                _ => Ok(false),
            },
            Node::Enum {
                ext,
                bits,
                literals,
            } => match right {
                Node::Enum {
                    ext: other_ext,
                    bits: other_bits,
                    literals: others,
                } => Ok(
                    *ext == *other_ext && *bits == *other_bits && same_literals(literals, others),
                ),
                _ => Ok(false),
            },
            Node::Mask { bits, flags } => match right {
                Node::Mask {
                    bits: other_bits,
                    flags: others,
                } => Ok(*bits == *other_bits && same_flags(flags, others)),
                _ => Ok(false),
            },
            Node::Seq { bound, tc, element } => match right {
                Node::Seq {
                    bound: other_bound,
                    tc: other_tc,
                    element: other,
                } => {
                    if *bound != *other_bound || *tc != *other_tc {
                        return Ok(false);
                    }
                    self.same(memo, steps, levels, element, other)
                }
                _ => Ok(false),
            },
            Node::Array { dims, tc, element } => match right {
                Node::Array {
                    dims: other_dims,
                    tc: other_tc,
                    element: other,
                } => {
                    if !same_dims(dims, other_dims) || *tc != *other_tc {
                        return Ok(false);
                    }
                    self.same(memo, steps, levels, element, other)
                }
                _ => Ok(false),
            },
            Node::Map {
                bound,
                key_tc,
                key,
                tc,
                value,
            } => match right {
                Node::Map {
                    bound: other_bound,
                    key_tc: other_key_tc,
                    key: other_key,
                    tc: other_tc,
                    value: other,
                } => {
                    if *bound != *other_bound || *key_tc != *other_key_tc || *tc != *other_tc {
                        return Ok(false);
                    }
                    if !self.same(memo, steps, levels, key, other_key)? {
                        return Ok(false);
                    }
                    self.same(memo, steps, levels, value, other)
                }
                _ => Ok(false),
            },
            Node::Struct { ext, base, own } => match right {
                Node::Struct {
                    ext: other_ext,
                    base: other_base,
                    own: others,
                } => self.same_structures(
                    memo, steps, levels, *ext, base, own, *other_ext, other_base, others,
                ),
                _ => Ok(false),
            },
            Node::Union {
                ext,
                key,
                disc,
                cases,
            } => match right {
                Node::Union {
                    ext: other_ext,
                    key: other_key,
                    disc: other,
                    cases: others,
                } => self.same_unions(
                    memo, steps, levels, *ext, *key, disc, cases, *other_ext, *other_key, other,
                    others,
                ),
                _ => Ok(false),
            },
        }
    }

    #[cycle(equal)]
    fn same_structures<L: Ledger>(
        &self,
        memo: &mut Memo,
        steps: &mut Steps<L>,
        levels: u32,
        ext: Ext,
        base: &'p TypeIdentifier,
        own: &'p [ObjectMember],
        other_ext: Ext,
        other: &'p TypeIdentifier,
        others: &'p [ObjectMember],
    ) -> Result<bool, OutOfMemory>
        requires so { IsKept self.now memo.old }
        requires left { StructureSeen self.now base.now own.now }
        requires right { StructureSeen self.now other.now others.now }
        ensures same { IfOk result (λ b. b ≡ spec.same_shape (structure_of self.now ext base.now own.now) (structure_of self.now other_ext other.now others.now)) }
        ensures so { IsKept self.now memo.new }
        ensures count { steps.new + length memo.old ≡ steps.old + length memo.new }
    {
        let even = same_ext(ext, other_ext);
        if !even {
            return Ok(false);
        }
        let one = members_of(self.alloc, self.pool, base, own)?;
        let two = members_of(self.alloc, self.pool, other, others)?;
        let left = one.as_slice();
        let right = two.as_slice();
        self.same_branches(memo, steps, levels, &Branches::Members(left, right))
    }

    #[cycle(equal)]
    fn same_unions<L: Ledger>(
        &self,
        memo: &mut Memo,
        steps: &mut Steps<L>,
        levels: u32,
        ext: Ext,
        key: bool,
        disc: &'p TypeIdentifier,
        cases: &'p [ObjectCase],
        other_ext: Ext,
        other_key: bool,
        other: &'p TypeIdentifier,
        others: &'p [ObjectCase],
    ) -> Result<bool, OutOfMemory>
        requires so { IsKept self.now memo.old }
        requires disc { IsSeen self.now disc.now }
        requires other { IsSeen self.now other.now }
        requires left { CasesSeen self.now cases.now }
        requires right { CasesSeen self.now others.now }
        ensures same { IfOk result (λ b. b ≡ spec.same_shape (union_of self.now ext key disc.now cases.now) (union_of self.now other_ext other_key other.now others.now)) }
        ensures so { IsKept self.now memo.new }
        ensures count { steps.new + length memo.old ≡ steps.old + length memo.new }
    {
        let even = same_kind_of_union(ext, key, other_ext, other_key);
        if !even {
            return Ok(false);
        }
        let same = self.same(memo, steps, levels, disc, other)?;
        if !same {
            return Ok(false);
        }
        let one = cases_of(self.alloc, cases)?;
        let two = cases_of(self.alloc, others)?;
        let left = one.as_slice();
        let right = two.as_slice();
        self.same_branches(memo, steps, levels, &Branches::Cases(left, right))
    }

    /// Whether members or cases are equal one by one.
    #[cycle(equal)]
    fn same_branches<L: Ledger>(
        &self,
        memo: &mut Memo,
        steps: &mut Steps<L>,
        levels: u32,
        branches: &Branches<'_, 'p>,
    ) -> Result<bool, OutOfMemory>
        requires so { IsKept self.now memo.old }
        requires seen { BranchesSeen self.now branches.now }
        ensures same { IfOk result (λ b. b ≡ beside.same_branches (λ t. shape_in self.now.pool.now t) branches.now) }
        ensures so { IsKept self.now memo.new }
        ensures count { steps.new + length memo.old ≡ steps.old + length memo.new }
    {
        let Some(count) = branches.count() else {
            return Ok(false);
        };
        for at in 0..count {
            let Some((left, right)) = branches.types_at(at) else {
                return Ok(false);
            };
            if !self.same(memo, steps, levels, left, right)? {
                return Ok(false);
            }
        }
        Ok(true)
    }
}
