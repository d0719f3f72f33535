ghost use Rattle.std.specs.Prelude.{◌≡◌};
ghost use Rattle.std.specs.Option.{option_map};
ghost use Rattle.type_trees.specs.Bridge.{type_shape};
ghost use Rattle.xt_shapes.specs.Kinds as kind_of;
ghost use Rattle.type_trees.specs.Parts as spec;

use crate::types::{ArrayType, EnumType, MapType, MaskType, SeqType, StructType, UnionType, XType};
use xt_shapes::Prim;

/// What a type is behind its aliases, where it is of one kind; None where it is of one of the others.
macro_rules! behind {
    ($walk:ident($ty:ident), $kind:pat => $part:expr, no $($other:ident)*) => {
        match $ty {
            $kind => Some($part),
            XType::Alias(alias) => $walk(&alias.ty),
            $(XType::$other(_))|* => None,
        }
    };
}

/// The primitive, where `ty` is one behind its aliases.
#[tactic(auto, using(crate::proofs::Views::tree_rules))]
pub fn as_prim(ty: &XType) -> Option<Prim>
    ensures { result ≡ kind_of.as_prim (type_shape ty.now) }
{
    behind!(as_prim(ty), XType::Prim(kind) => *kind, no Str Enum Mask Seq Array Map Struct Union)
}

/// The string's bound, where `ty` is one behind its aliases.
#[tactic(auto, using(crate::proofs::Views::tree_rules))]
pub fn as_str(ty: &XType) -> Option<u32>
    ensures { result ≡ kind_of.as_str (type_shape ty.now) }
{
    behind!(as_str(ty), XType::Str(kind) => *kind, no Prim Enum Mask Seq Array Map Struct Union)
}

/// The enumeration, where `ty` is one behind its aliases.
#[tactic(auto, using(crate::proofs::Views::tree_rules))]
pub fn as_enum(ty: &XType) -> Option<&EnumType>
    ensures { option_map (λ kind. spec.enum_parts kind.now) result ≡ kind_of.as_enum (type_shape ty.now) }
{
    behind!(as_enum(ty), XType::Enum(kind) => &**kind, no Prim Str Mask Seq Array Map Struct Union)
}

/// The bitmask, where `ty` is one behind its aliases.
#[tactic(auto, using(crate::proofs::Views::tree_rules))]
pub fn as_mask(ty: &XType) -> Option<&MaskType>
    ensures { option_map (λ kind. spec.mask_parts kind.now) result ≡ kind_of.as_mask (type_shape ty.now) }
{
    behind!(as_mask(ty), XType::Mask(kind) => &**kind, no Prim Str Enum Seq Array Map Struct Union)
}

/// The sequence, where `ty` is one behind its aliases.
#[tactic(auto, using(crate::proofs::Views::tree_rules))]
pub fn as_seq(ty: &XType) -> Option<&SeqType>
    ensures { option_map (λ kind. spec.sequence_parts kind.now) result ≡ kind_of.as_sequence (type_shape ty.now) }
{
    behind!(as_seq(ty), XType::Seq(kind) => &**kind, no Prim Str Enum Mask Array Map Struct Union)
}

/// The array, where `ty` is one behind its aliases.
#[tactic(auto, using(crate::proofs::Views::tree_rules))]
pub fn as_array(ty: &XType) -> Option<&ArrayType>
    ensures { option_map (λ kind. spec.array_parts kind.now) result ≡ kind_of.as_array (type_shape ty.now) }
{
    behind!(as_array(ty), XType::Array(kind) => &**kind, no Prim Str Enum Mask Seq Map Struct Union)
}

/// The map, where `ty` is one behind its aliases.
#[tactic(auto, using(crate::proofs::Views::tree_rules))]
pub fn as_map(ty: &XType) -> Option<&MapType>
    ensures { option_map (λ kind. spec.map_parts kind.now) result ≡ kind_of.as_map (type_shape ty.now) }
{
    behind!(as_map(ty), XType::Map(kind) => &**kind, no Prim Str Enum Mask Seq Array Struct Union)
}

/// The structure, where `ty` is one behind its aliases.
#[tactic(auto, using(crate::proofs::Views::tree_rules))]
pub fn as_struct(ty: &XType) -> Option<&StructType>
    ensures { option_map (λ kind. spec.structure_parts kind.now) result ≡ kind_of.as_structure (type_shape ty.now) }
{
    behind!(as_struct(ty), XType::Struct(kind) => &**kind, no Prim Str Enum Mask Seq Array Map Union)
}

/// The union, where `ty` is one behind its aliases.
#[tactic(auto, using(crate::proofs::Views::tree_rules))]
pub fn as_union(ty: &XType) -> Option<&UnionType>
    ensures { option_map (λ kind. spec.union_parts kind.now) result ≡ kind_of.as_union (type_shape ty.now) }
{
    behind!(as_union(ty), XType::Union(kind) => &**kind, no Prim Str Enum Mask Seq Array Map Struct)
}
