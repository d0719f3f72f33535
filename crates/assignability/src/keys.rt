ghost use Rattle.std.specs.Prelude.{◌≡◌, ◌&&◌};
ghost use Rattle.assignability.specs.Views.{counted_fits};
ghost use Rattle.xcdr_model.specs.Keys as spec;
ghost use Rattle.xt_shapes.specs.Keyable as keyable;
ghost use Rattle.xt_shapes.specs.Lists.{is_some_and};
ghost use Rattle.type_trees.specs.Bridge.{type_shape, members_shape, member_head};
ghost use Rattle.xt_shapes.specs.Select.{shape_at};

use node_judge::{any_key, holds_bound, is_discard, same_counted, same_dims, values_within};
use type_trees::{
    Member, XType, as_array, as_enum, as_mask, as_prim, as_seq, as_str, as_struct, member_at,
};

fn is_structure(ty: &XType) -> bool
    ensures { result ≡ spec.is_structure (type_shape ty.now) }
{
    match as_struct(ty) {
        Some(_) => true,
        None => false,
    }
}

#[cycle(key_fit)]
pub(crate) fn has_key_fit(member: &Member, others: &[Member]) -> bool
    ensures { result ≡ is_some_and (shape_at (members_shape others.now) member.now.id) (λ u. spec.key_fit (type_shape member.now.ty) u) }
{
    match member_at(others, member.id) {
        Some(other) => key_fit(&member.ty, &other.ty),
        None => false,
    }
}

#[cycle(key_fit)]
fn counted_fits(keyed: bool, member: &Member, others: &[Member]) -> bool
    ensures { result ≡ counted_fits keyed (member_head member.now) (type_shape member.now.ty) (members_shape others.now) }
{
    if !(member.key || !keyed) {
        return true;
    }
    if is_structure(&member.ty) && !is_discard(member.tc) {
        return false;
    }
    has_key_fit(member, others)
}

#[cycle(key_fit)]
#[tactic(auto, using(type_trees::proofs::Views::tree_rules))]
fn keys_fit(keyed: bool, members: &[Member], others: &[Member]) -> bool
    ensures { result ≡ spec.keys_fit keyed (members_shape members.now) (members_shape others.now) }
{
    for member in members {
        if !counted_fits(keyed, member, others) {
            return false;
        }
    }
    true
}

/// Whether the same ids are counted, and the types of each counted member fit.
#[cycle(key_fit)]
#[tactic(auto, using(crate::proofs::Heads::head_rules))]
fn members_fit(left: &[Member], right: &[Member]) -> bool
    ensures { let ms = members_shape left.now in let ns = members_shape right.now in result ≡ (spec.same_counted (keyable.any_key ms) ms (keyable.any_key ns) ns && spec.keys_fit (keyable.any_key ms) ms ns) }
{
    let keyed = any_key(left);
    same_counted(keyed, left, any_key(right), right) && keys_fit(keyed, left, right)
}

/// Whether the reader's key type keeps the writer's keys apart.
#[cycle(key_fit)]
#[tactic(auto, using(type_trees::proofs::Views::tree_rules))]
pub(crate) fn key_fit(left: &XType, right: &XType) -> bool
    ensures { result ≡ spec.key_fit (type_shape left.now) (type_shape right.now) }
{
    match left {
        XType::Prim(prim) => match as_prim(right) {
            Some(other) => *prim == other,
            None => false,
        },
        XType::Str(bound) => match as_str(right) {
            Some(other) => holds_bound(*bound, other),
            None => false,
        },
        XType::Enum(kind) => match as_enum(right) {
            Some(other) => kind.bits == other.bits
                && values_within(other.literals.as_slice(), kind.literals.as_slice()),
            None => false,
        },
        XType::Mask(kind) => match as_mask(right) {
            Some(other) => kind.bits == other.bits,
            None => false,
        },
        XType::Seq(kind) => match as_seq(right) {
            Some(other) => holds_bound(kind.bound, other.bound)
                && key_fit(&kind.elem.ty, &other.elem.ty),
            None => false,
        },
        XType::Array(kind) => match as_array(right) {
            Some(other) => same_dims(kind.dims.as_slice(), other.dims.as_slice())
                && key_fit(&kind.elem.ty, &other.elem.ty),
            None => false,
        },
        XType::Map(_) => false,
        XType::Struct(kind) => match as_struct(right) {
            Some(other) => kind.ext == other.ext
                && members_fit(kind.members.as_slice(), other.members.as_slice()),
            None => false,
        },
        XType::Union(_) => false,
        XType::Alias(kind) => key_fit(&kind.ty, right),
    }
}
