// Kinds of types.
ghost use Rattle.std.specs.Prelude.{◌≡◌};
ghost use Rattle.type_trees.specs.Bridge.{type_shape};
ghost use Rattle.xt_shapes.specs.Kinds as spec;

use type_trees::XType;
use xt_shapes::Prim;

fn prim_code(prim: Prim) -> u8
    ensures { result ≡ spec.prim_code prim }
{
    match prim {
        Prim::Boolean => 1,
        Prim::Byte => 2,
        Prim::Int8 => 3,
        Prim::Uint8 => 4,
        Prim::Int16 => 5,
        Prim::Uint16 => 6,
        Prim::Int32 => 7,
        Prim::Uint32 => 8,
        Prim::Int64 => 9,
        Prim::Uint64 => 10,
        Prim::Float32 => 11,
        Prim::Float64 => 12,
        Prim::Char8 => 13,
    }
}

/// The kind behind aliases, as a number.
#[tactic(auto, using(type_trees::proofs::Views::tree_rules))]
fn kind_code(ty: &XType) -> u8
    ensures { result ≡ spec.kind_code (type_shape ty.now) }
{
    match ty {
        XType::Prim(prim) => prim_code(*prim),
        XType::Str(_) => 14,
        XType::Enum(_) => 15,
        XType::Mask(_) => 16,
        XType::Seq(_) => 17,
        XType::Array(_) => 18,
        XType::Map(_) => 19,
        XType::Struct(_) => 20,
        XType::Union(_) => 21,
        XType::Alias(kind) => kind_code(&kind.ty),
    }
}

/// Whether two types are of one kind behind their aliases. Two primitives are only where they are the same.
pub(crate) fn same_kind(left: &XType, right: &XType) -> bool
    ensures { result ≡ spec.same_kind (type_shape left.now) (type_shape right.now) }
{
    kind_code(left) == kind_code(right)
}
