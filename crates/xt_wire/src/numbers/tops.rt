ghost use Rattle.std.specs.Prelude.{◌≡◌};
ghost use Rattle.type_trees.specs.Bridge.{type_shape};
ghost use Rattle.xcdr_model.specs.Samples as spec;

use type_trees::XType;
use xt_shapes::Ext;

/// The extensibility of a structure or union behind aliases, which a sample's identifier tells; FINAL for any other type.
#[tactic(auto, using(type_trees::proofs::Views::tree_rules))]
pub fn top_of(ty: &XType) -> Ext
    ensures { result ≡ spec.top_ext (type_shape ty.now) }
{
    match ty {
        XType::Struct(kind) => kind.ext,
        XType::Union(kind) => kind.ext,
        XType::Alias(kind) => top_of(&kind.ty),
        XType::Prim(_)
        | XType::Str(_)
        | XType::Enum(_)
        | XType::Mask(_)
        | XType::Seq(_)
        | XType::Array(_)
        | XType::Map(_) => Ext::Final,
    }
}
