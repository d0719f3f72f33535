// Which parts stand behind a count of their octets (DDS-XTypes 1.3, 7.4.3.5).
ghost use Rattle.std.specs.Prelude.{◌≡◌};
ghost use Rattle.type_trees.specs.Bridge.{type_shape};
ghost use Rattle.xcdr_model.specs.Xcdr2Reading.{is_primitive};
ghost use Rattle.xcdr_steps.specs.two.Bounds.{framing, collection_framing, ext_framing, union_framing};

use type_trees::XType;
use xt_shapes::Ext;
use xt_wire::cursor::Framing;

#[tactic(auto, using(type_trees::proofs::Views::tree_rules))]
fn is_prim(ty: &XType) -> bool
    ensures { result ≡ is_primitive (type_shape ty.now) }
{
    match ty {
        XType::Prim(_) => true,
        XType::Alias(kind) => is_prim(&kind.ty),
        XType::Str(_)
        | XType::Enum(_)
        | XType::Mask(_)
        | XType::Seq(_)
        | XType::Array(_)
        | XType::Map(_)
        | XType::Struct(_)
        | XType::Union(_) => false,
    }
}

fn of_collection(plain: bool) -> Framing
    ensures { result ≡ collection_framing plain }
{
    if plain {
        Framing::Open
    } else {
        Framing::Filled
    }
}

fn of_ext(ext: Ext) -> Framing
    ensures { result ≡ ext_framing ext }
{
    match ext {
        Ext::Final => Framing::Open,
        Ext::Appendable => Framing::Passed,
        Ext::Mutable => Framing::Passed,
    }
}

fn of_union(ext: Ext) -> Framing
    ensures { result ≡ union_framing ext }
{
    match ext {
        Ext::Final => Framing::Open,
        Ext::Appendable => Framing::Passed,
        Ext::Mutable => Framing::Open,
    }
}

/// How the octets of a value of this type are bounded.
#[tactic(auto, using(type_trees::proofs::Views::tree_rules))]
pub fn framing_of(ty: &XType) -> Framing
    ensures { result ≡ framing (type_shape ty.now) }
{
    match ty {
        XType::Seq(kind) => of_collection(is_prim(&kind.elem.ty)),
        XType::Array(kind) => of_collection(is_prim(&kind.elem.ty)),
        XType::Map(kind) => of_collection(is_prim(&kind.key.ty) && is_prim(&kind.value.ty)),
        XType::Struct(kind) => of_ext(kind.ext),
        XType::Union(kind) => of_union(kind.ext),
        XType::Alias(kind) => framing_of(&kind.ty),
        XType::Prim(_) | XType::Str(_) | XType::Enum(_) | XType::Mask(_) => Framing::Open,
    }
}
