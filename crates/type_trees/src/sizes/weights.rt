ghost use Rattle.std.specs.Prelude.{◌≡◌, ◌≤◌, min};
ghost use Rattle.xt_shapes.specs.Shape.{product};
ghost use Rattle.xt_shapes.specs.Weight as spec;
ghost use Rattle.type_trees.specs.Bridge.{type_shape, members_shape, cases_shape};

use crate::{Case, Member, XType};

/// One more than the greatest weight, and the greatest number of nodes, that a valid type has.
pub const TOO_MANY: u64 = 65_537;

pub(crate) fn capped(count: u64) -> u64
    ensures { result ≡ min 65537 count }
{
    count.min(TOO_MANY)
}

/// How many elements an array of these dimensions has, or the last number of a `u64` where they are more.
#[tactic(auto, using(crate::proofs::OfSizes::Capped::capped_step))]
pub fn elements_of(dims: &[u32]) -> u64
    ensures { result ≡ min 18446744073709551615 (product dims.now) }
{
    let mut count: u64 = 1;
    for dim in dims {
        count = count.saturating_mul(u64::from(*dim));
    }
    count
}

#[cycle(capped)]
#[tactic(auto, using(crate::proofs::Views::tree_rules))]
fn capped_weights(members: &[Member]) -> u64
    ensures { result ≡ min 65537 (spec.weights (members_shape members.now)) }
{
    let mut sum = 0;
    for member in members {
        sum = capped(sum + capped_weight(&member.ty));
    }
    sum
}

#[cycle(capped)]
#[tactic(auto, using(crate::proofs::Views::tree_rules))]
fn capped_greatest(cases: &[Case]) -> u64
    ensures { result ≡ min 65537 (spec.greatest (cases_shape cases.now)) }
{
    let mut greatest = 0;
    for case in cases {
        greatest = capped_weight(&case.ty).max(greatest);
    }
    greatest
}

/// The weight of `ty`, or `TOO_MANY` where it is that or more. It takes any type, valid or not.
#[cycle(capped)]
#[tactic(auto, using(crate::proofs::Views::tree_rules, crate::proofs::OfSizes::Capped::product_rules))]
pub fn capped_weight(ty: &XType) -> u64
    ensures { result ≡ min 65537 (spec.weight (type_shape ty.now)) }
{
    match ty {
        XType::Prim(_)
        | XType::Str(_)
        | XType::Enum(_)
        | XType::Mask(_)
        | XType::Seq(_)
        | XType::Map(_) => 1,
        XType::Array(kind) => capped(
            1 + capped(elements_of(kind.dims.as_slice())) * capped_weight(&kind.elem.ty),
        ),
        XType::Struct(kind) => capped(1 + capped_weights(kind.members.as_slice())),
        XType::Union(kind) => capped(2 + capped_greatest(kind.cases.as_slice())),
        XType::Alias(kind) => capped_weight(&kind.ty),
    }
}

/// How many parts a value of `ty` has at most where its sequences and maps are empty.
///
/// It is 1 for a primitive, string, enumeration, bitmask, sequence or map; 1 plus the number of elements times the element's
/// weight for an array; 1 plus the members' weights for a structure; 2 plus the greatest weight of a case for a union; and an
/// alias has its type's. The condition is part of validity rule V16.
pub fn weight(ty: &XType) -> u64
    requires { spec.weight (type_shape ty.now) ≤ 65536 }
    ensures { result ≡ spec.weight (type_shape ty.now) }
{
    capped_weight(ty)
}
