ghost use Rattle.std.specs.Prelude.{◌≡◌};
ghost use Rattle.type_trees.specs.Bridge.{type_shape};
ghost use Rattle.xt_shapes.specs.NodeRules as node;

use type_trees::XType;
use xt_shapes::Prim;

pub fn is_float(prim: Prim) -> bool
    ensures { result ≡ node.is_float prim }
{
    matches!(prim, Prim::Float32 | Prim::Float64)
}

/// Whether a map may have the key.
#[tactic(auto, using(type_trees::proofs::Views::tree_rules))]
pub fn is_map_key(ty: &XType) -> bool
    ensures { result ≡ node.is_map_key (type_shape ty.now) }
{
    match ty {
        XType::Prim(prim) => !is_float(*prim),
        XType::Str(_) | XType::Enum(_) => true,
        XType::Mask(_)
        | XType::Seq(_)
        | XType::Array(_)
        | XType::Map(_)
        | XType::Struct(_)
        | XType::Union(_) => false,
        XType::Alias(kind) => is_map_key(&kind.ty),
    }
}

/// Whether a union may have the discriminator.
#[tactic(auto, using(type_trees::proofs::Views::tree_rules))]
pub fn is_discriminator(ty: &XType) -> bool
    ensures { result ≡ node.is_discriminator (type_shape ty.now) }
{
    match ty {
        XType::Prim(prim) => !is_float(*prim),
        XType::Enum(_) => true,
        XType::Str(_)
        | XType::Mask(_)
        | XType::Seq(_)
        | XType::Array(_)
        | XType::Map(_)
        | XType::Struct(_)
        | XType::Union(_) => false,
        XType::Alias(kind) => is_discriminator(&kind.ty),
    }
}
