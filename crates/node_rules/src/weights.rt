ghost use Rattle.std.specs.Prelude.{◌≡◌};
ghost use Rattle.xt_shapes.specs.NodeRules as node;
ghost use Rattle.type_trees.specs.Bridge.{type_shape};

use type_trees::XType;
use type_trees::sizes::capped_weight;

/// Whether `ty` weighs at most 128.
#[tactic(auto, using(crate::proofs::Limits::light_test))]
pub fn is_light(ty: &XType) -> bool
    ensures { result ≡ node.is_light (type_shape ty.now) }
{
    capped_weight(ty) <= 128
}
