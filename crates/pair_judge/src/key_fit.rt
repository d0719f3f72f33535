ghost use Rattle.std.specs.Prelude.{◌≡◌, ◌||◌, ◌&&◌, not, None, IfOk};
ghost use Rattle.pair_memo.specs.nodes.Views.{bare, part_view};
ghost use Rattle.pair_judge.specs.Judged.{Says, IsShort};
ghost use Rattle.pair_judge.specs.Questions.{IsSeen, NodeSeen, PartSeen, PartsSeen, StructureSeen, fits_at, part_shape, part_shapes, shape_at_node, shape_of, structure_of};
ghost use Rattle.xcdr_model.specs.Failure as failures;
ghost use Rattle.xcdr_model.specs.Keys as spec;
ghost use Rattle.xcdr_model.specs.Rules as rules;
ghost use Rattle.xt_shapes.specs.Keyable as keyable;
ghost use Rattle.xt_shapes.specs.NodeRules as nodes;

use crate::question::Question;
use crate::stops::{Stop, beneath, rule};
use node_judge::{
    any_key, holds_bound, is_discard, same_counted, same_dims, same_ext, structure_delimited,
    union_delimited, values_within,
};
use object_formats::{ObjectMember, TypeIdentifier};
use pair_memo::nodes::{Node, Part, members_of, node_of, part_at};
use xcdr_model::Rule;
use xt_lists::OutOfMemory;
use xt_shapes::{Ext, Step};

/// Whether the same ids are counted: those of key members, or all where none is a key.
fn same_keys(left: &[Part<'_>], right: &[Part<'_>]) -> bool
    ensures { result ≡ spec.same_counted (keyable.any_key (bare left.now)) (bare left.now) (keyable.any_key (bare right.now)) (bare right.now) }
{
    same_counted(any_key(left), left, any_key(right), right)
}

impl<'p> Question<'p> {
    fn is_structure(&self, ty: &'p TypeIdentifier) -> Result<bool, OutOfMemory>
        requires { IsSeen self.now ty.now }
        ensures { IfOk result (λ b. b ≡ spec.is_structure (shape_of self.now ty.now)) }
    {
        match node_of(self.pool, ty)? {
            Node::Struct { .. } => Ok(true),
            _ => Ok(false),
        }
    }

    /// Whether a longer or shorter value of the type can be told from what follows it.
    #[cycle(delimited)]
    pub(crate) fn delimited(&self, levels: u32, ty: &'p TypeIdentifier) -> Result<bool, OutOfMemory>
        requires { IsSeen self.now ty.now }
        ensures { IfOk result (λ b. b ≡ rules.delimited self.now.rep (shape_of self.now ty.now)) }
    {
        if levels == 0 {
            return Err(OutOfMemory);
        }
        match node_of(self.pool, ty)? {
            Node::Prim(_) | Node::Str(_) | Node::Enum { .. } | Node::Mask { .. } => Ok(true),
            Node::Seq { element, .. } => self.delimited(levels - 1, element),
            Node::Array { element, .. } => self.delimited(levels - 1, element),
            Node::Map { key, value, .. } => {
                if !self.delimited(levels - 1, key)? {
                    return Ok(false);
                }
                self.delimited(levels - 1, value)
            }
            Node::Struct { ext, .. } => Ok(structure_delimited(self.rep, ext)),
            Node::Union { ext, .. } => Ok(union_delimited(self.rep, ext)),
        }
    }

    /// Whether the reader's key type keeps the writer's keys apart.
    #[cycle(key_fit)]
    fn key_fit(
        &self,
        levels: u32,
        left: &'p TypeIdentifier,
        right: &'p TypeIdentifier,
    ) -> Result<bool, OutOfMemory>
        requires left { IsSeen self.now left.now }
        requires right { IsSeen self.now right.now }
        ensures { IfOk result (λ b. b ≡ spec.key_fit (shape_of self.now left.now) (shape_of self.now right.now)) }
    {
        if levels == 0 {
            return Err(OutOfMemory);
        }
        let one = node_of(self.pool, left)?;
        let two = node_of(self.pool, right)?;
        self.key_kinds(levels - 1, &one, &two)
    }

    #[cycle(key_fit)]
    fn key_kinds(&self, levels: u32, left: &Node<'p>, right: &Node<'p>) -> Result<bool, OutOfMemory>
        requires left { NodeSeen self.now left.now }
        requires right { NodeSeen self.now right.now }
        ensures { IfOk result (λ b. b ≡ spec.key_fit (shape_at_node self.now left.now) (shape_at_node self.now right.now)) }
    {
        match left {
            Node::Prim(prim) => match right {
                Node::Prim(other) => Ok(*prim == *other),
                _ => Ok(false),
            },
            Node::Str(bound) => match right {
                Node::Str(other) => Ok(holds_bound(*bound, *other)),
                _ => Ok(false),
            },
            Node::Enum { bits, literals, .. } => match right {
                Node::Enum {
                    bits: other,
                    literals: others,
                    ..
                } => Ok(*bits == *other && values_within(others, literals)),
                _ => Ok(false),
            },
            Node::Mask { bits, .. } => match right {
                Node::Mask { bits: other, .. } => Ok(*bits == *other),
                _ => Ok(false),
            },
            Node::Seq { bound, element, .. } => match right {
                Node::Seq {
                    bound: other,
                    element: right,
                    ..
                } => {
                    if !holds_bound(*bound, *other) {
                        return Ok(false);
                    }
                    self.key_fit(levels, element, right)
                }
                _ => Ok(false),
            },
            Node::Array { dims, element, .. } => match right {
                Node::Array {
                    dims: other,
                    element: right,
                    ..
                } => {
                    if !same_dims(dims, other) {
                        return Ok(false);
                    }
                    self.key_fit(levels, element, right)
                }
                _ => Ok(false),
            },
            Node::Map { .. } => Ok(false),
            Node::Struct { ext, base, own } => match right {
                Node::Struct {
                    ext: other,
                    base: right_base,
                    own: right,
                } => self.structure_fit(levels, *ext, base, own, *other, right_base, right),
                _ => Ok(false),
            },
            Node::Union { .. } => Ok(false),
        }
    }

    #[cycle(key_fit)]
    fn structure_fit(
        &self,
        levels: u32,
        ext: Ext,
        base: &'p TypeIdentifier,
        own: &'p [ObjectMember],
        other_ext: Ext,
        other: &'p TypeIdentifier,
        others: &'p [ObjectMember],
    ) -> Result<bool, OutOfMemory>
        requires left { StructureSeen self.now base.now own.now }
        requires right { StructureSeen self.now other.now others.now }
        ensures { IfOk result (λ b. b ≡ spec.key_fit (structure_of self.now ext base.now own.now) (structure_of self.now other_ext other.now others.now)) }
    {
        let even = same_ext(ext, other_ext);
        if !even {
            return Ok(false);
        }
        let one = members_of(self.alloc, self.pool, base, own)?;
        let two = members_of(self.alloc, self.pool, other, others)?;
        let left = one.as_slice();
        let right = two.as_slice();
        self.members_fit(levels, left, right)
    }

    /// Whether the same ids are counted, and the types of each counted member fit.
    #[cycle(key_fit)]
    #[tactic(auto, using(pair_memo::proofs::OfNodes::Heads::bare_rules))]
    fn members_fit(
        &self,
        levels: u32,
        left: &[Part<'p>],
        right: &[Part<'p>],
    ) -> Result<bool, OutOfMemory>
        requires left { PartsSeen self.now left.now }
        requires right { PartsSeen self.now right.now }
        ensures { IfOk result (λ b. let ms = (part_shapes self.now left.now) in let ns = (part_shapes self.now right.now) in b ≡ (spec.same_counted (keyable.any_key ms) ms (keyable.any_key ns) ns && spec.keys_fit (keyable.any_key ms) ms ns)) }
    {
        let even = same_keys(left, right);
        if !even {
            return Ok(false);
        }
        let keyed = any_key(left);
        self.keys_fit(levels, keyed, left, right)
    }

    #[cycle(key_fit)]
    fn keys_fit(
        &self,
        levels: u32,
        keyed: bool,
        left: &[Part<'p>],
        right: &[Part<'p>],
    ) -> Result<bool, OutOfMemory>
        requires left { PartsSeen self.now left.now }
        requires right { PartsSeen self.now right.now }
        ensures { IfOk result (λ b. b ≡ spec.keys_fit keyed (part_shapes self.now left.now) (part_shapes self.now right.now)) }
    {
        for part in left {
            if !self.counted_fits(levels, keyed, part, right)? {
                return Ok(false);
            }
        }
        Ok(true)
    }

    #[cycle(key_fit)]
    fn counted_fits(
        &self,
        levels: u32,
        keyed: bool,
        part: &Part<'p>,
        others: &[Part<'p>],
    ) -> Result<bool, OutOfMemory>
        requires part { PartSeen self.now part.now }
        requires others { PartsSeen self.now others.now }
        ensures { IfOk result (λ b. b ≡ (not (keyable.counted keyed (part_view part.now).0) || ((not (spec.is_structure (part_shape self.now part.now)) || nodes.is_discard part.now.tc) && fits_at self.now part.now others.now))) }
    {
        if !(part.key || !keyed) {
            return Ok(true);
        }
        if self.is_structure(part.ty)? && !is_discard(part.tc) {
            return Ok(false);
        }
        self.has_key_fit(levels, part, others)
    }

    #[cycle(key_fit)]
    fn has_key_fit(
        &self,
        levels: u32,
        part: &Part<'p>,
        others: &[Part<'p>],
    ) -> Result<bool, OutOfMemory>
        requires part { PartSeen self.now part.now }
        requires others { PartsSeen self.now others.now }
        ensures { IfOk result (λ b. b ≡ fits_at self.now part.now others.now) }
    {
        match part_at(others, part.id) {
            Some(other) => self.key_fit(levels, part.ty, other.ty),
            None => Ok(false),
        }
    }

    fn key_fits(
        &self,
        levels: u32,
        part: &Part<'p>,
        others: &[Part<'p>],
    ) -> Result<bool, OutOfMemory>
        requires part { PartSeen self.now part.now }
        requires others { PartsSeen self.now others.now }
        ensures { IfOk result (λ b. b ≡ (not part.now.key || fits_at self.now part.now others.now)) }
    {
        if !part.key {
            return Ok(true);
        }
        self.has_key_fit(levels, part, others)
    }

    /// The rule on a key member.
    fn key_rule(&self, levels: u32, part: &Part<'p>, others: &[Part<'p>]) -> Result<(), Stop>
        requires part { PartSeen self.now part.now }
        requires others { PartsSeen self.now others.now }
        ensures says { Says result (failures.step (Step.Member part.now.id) (failures.rule Rule.KeyFit (not part.now.key || fits_at self.now part.now others.now) None)) }
        ensures short { IsShort 2 result }
    {
        let fits = self.key_fits(levels, part, others)?;
        beneath(Step::Member(part.id), rule(Rule::KeyFit, fits))
    }

    fn key_failure(&self, levels: u32, left: &[Part<'p>], right: &[Part<'p>]) -> Result<(), Stop>
        requires left { PartsSeen self.now left.now }
        requires right { PartsSeen self.now right.now }
        ensures says { Says result (failures.key_failure (part_shapes self.now left.now) (part_shapes self.now right.now)) }
        ensures short { IsShort 2 result }
    {
        for part in left {
            self.key_rule(levels, part, right)?;
        }
        Ok(())
    }

    /// The rules on keys, which only the top pair has. They belong to its examination.
    #[tactic(auto, using(crate::proofs::Ends::says_rules, pair_memo::proofs::OfNodes::Heads::bare_rules))]
    pub(crate) fn top_rules(
        &self,
        top: bool,
        levels: u32,
        left: &[Part<'p>],
        right: &[Part<'p>],
    ) -> Result<(), Stop>
        requires left { PartsSeen self.now left.now }
        requires right { PartsSeen self.now right.now }
        ensures says { Says result (failures.top_rules top (part_shapes self.now left.now) (part_shapes self.now right.now)) }
        ensures short { IsShort 2 result }
    {
        if !top {
            return Ok(());
        }
        rule(Rule::KeySet, same_counted(true, left, true, right))?;
        self.key_failure(levels, left, right)
    }
}
