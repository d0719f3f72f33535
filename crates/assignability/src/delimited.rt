ghost use Rattle.std.specs.Prelude.{◌≡◌};
ghost use Rattle.xcdr_model.specs.Rules as spec;
ghost use Rattle.type_trees.specs.Bridge.{type_shape};

use node_judge::{structure_delimited, union_delimited};
use type_trees::XType;
use xt_shapes::Rep;

/// Whether a longer or shorter value of `ty` can be told from what follows it.
#[tactic(auto, using(type_trees::proofs::Views::tree_rules))]
pub(crate) fn delimited(rep: Rep, ty: &XType) -> bool
    ensures { result ≡ spec.delimited rep (type_shape ty.now) }
{
    match ty {
        XType::Prim(_) | XType::Str(_) | XType::Enum(_) | XType::Mask(_) => true,
        XType::Seq(kind) => delimited(rep, &kind.elem.ty),
        XType::Array(kind) => delimited(rep, &kind.elem.ty),
        XType::Map(kind) => delimited(rep, &kind.key.ty) && delimited(rep, &kind.value.ty),
        XType::Struct(kind) => structure_delimited(rep, kind.ext),
        XType::Union(kind) => union_delimited(rep, kind.ext),
        XType::Alias(kind) => delimited(rep, &kind.ty),
    }
}
