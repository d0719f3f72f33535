//! The types that samples have at the top.

ghost use Rattle.std.specs.Prelude.{◌≡◌};
ghost use Rattle.type_trees.specs.Bridge.{type_shape};
ghost use Rattle.type_trees.specs.samples.Tops as spec;

use crate::{XType, as_struct, as_union};

/// Whether samples may have the type at the top: behind aliases it is a structure or a union.
pub fn is_top(ty: &XType) -> bool
    ensures { result ≡ spec.is_top (type_shape ty.now) }
{
    as_struct(ty).is_some() || as_union(ty).is_some()
}
