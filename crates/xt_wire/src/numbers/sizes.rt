//! How many octets numbers take.
ghost use Rattle.std.specs.Prelude.{◌≡◌};
ghost use Rattle.xt_shapes.specs.Sizes as spec;
ghost use Rattle.xcdr_model.specs.FixedSpelling as fixed;
ghost use Rattle.type_trees.specs.Bridge.{type_shape};
ghost use Rattle.xt_wire.specs.numbers.Units.{IsUnit, IsSize};

use type_trees::XType;
use xt_shapes::Prim;

/// The octets of a primitive (DDS-XTypes 1.3, 7.2.2.2 and 7.4): 1, 2, 4 or 8.
pub fn prim_size(prim: Prim) -> u32
    ensures size { result ≡ spec.size prim }
    ensures unit { IsUnit result }
{
    match prim {
        Prim::Boolean | Prim::Byte | Prim::Int8 | Prim::Uint8 | Prim::Char8 => 1,
        Prim::Int16 | Prim::Uint16 => 2,
        Prim::Int32 | Prim::Uint32 | Prim::Float32 => 4,
        Prim::Int64 | Prim::Uint64 | Prim::Float64 => 8,
    }
}

/// Whether the octets stand for a boolean, of which each is 0 or 1.
pub fn is_boolean(prim: Prim) -> bool
    ensures { result ≡ spec.is_boolean prim }
{
    match prim {
        Prim::Boolean => true,
        Prim::Byte | Prim::Int8 | Prim::Uint8 | Prim::Int16 | Prim::Uint16 | Prim::Int32 => false,
        Prim::Uint32 | Prim::Int64 | Prim::Uint64 => false,
        Prim::Float32 | Prim::Float64 | Prim::Char8 => false,
    }
}

/// The octets of an enumeration's holder, by its bits (7.2.2.4.1): 1, 2 or 4.
pub fn enum_size(bits: u8) -> u32
    ensures size { result ≡ spec.enum_size bits }
    ensures unit { IsUnit result }
{
    match bits {
        0..=8 => 1,
        9..=16 => 2,
        _ => 4,
    }
}

/// The octets of a bitmask's holder, by its bits (7.2.2.4.1): 1, 2, 4 or 8.
pub fn mask_size(bits: u8) -> u32
    ensures size { result ≡ spec.mask_size bits }
    ensures unit { IsUnit result }
{
    match bits {
        0..=8 => 1,
        9..=16 => 2,
        17..=32 => 4,
        _ => 8,
    }
}

/// The octets of a type whose values are numbers; 0 for any other type.
#[tactic(auto, using(type_trees::proofs::Views::tree_rules))]
pub fn scalar_size(ty: &XType) -> u32
    ensures size { result ≡ fixed.scalar_size (type_shape ty.now) }
    ensures unit { IsSize result }
{
    match ty {
        XType::Prim(prim) => prim_size(*prim),
        XType::Enum(kind) => enum_size(kind.bits),
        XType::Mask(kind) => mask_size(kind.bits),
        XType::Alias(kind) => scalar_size(&kind.ty),
        XType::Str(_)
        | XType::Seq(_)
        | XType::Array(_)
        | XType::Map(_)
        | XType::Struct(_)
        | XType::Union(_) => 0,
    }
}
