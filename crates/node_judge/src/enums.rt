ghost use Rattle.std.specs.Prelude.{◌≡◌, map};
ghost use Rattle.node_judge.specs.AtNode.{at_node};
ghost use Rattle.xcdr_model.specs.Failure as spec;

use crate::literals::{literal_sets, same_literal_names};
use crate::views::LiteralView;
use xcdr_model::Rule;
use xt_shapes::Ext;

/// The first rule of enumerations that fails.
#[tactic(auto, using(crate::proofs::Failing::step_rules))]
pub fn enum_rule<T: LiteralView>(
    ext: Ext,
    bits: u8,
    left: &[T],
    other_ext: Ext,
    other_bits: u8,
    right: &[T],
) -> Option<Rule>
    ensures { at_node result ≡ spec.enum_rules (ext, bits, map T.literal_of left.now) (other_ext, other_bits, map T.literal_of right.now) }
{
    if ext != other_ext {
        return Some(Rule::Extensibility);
    }
    if bits != other_bits {
        return Some(Rule::BitBound);
    }
    if !same_literal_names(left, right) {
        return Some(Rule::LiteralNames);
    }
    if !literal_sets(ext, left, right) {
        return Some(Rule::LiteralSet);
    }
    None
}
