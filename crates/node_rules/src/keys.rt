ghost use Rattle.std.specs.Prelude.{◌≡◌};
ghost use Rattle.type_trees.specs.Bridge.{type_shape, members_shape};
ghost use Rattle.xt_shapes.specs.Keyable as spec;
ghost use Rattle.xt_shapes.specs.Shape.{heads};
ghost use Rattle.xt_shapes.specs.NodeRules as node;

use type_trees::{Member, XType};
use xt_shapes::Try;

#[tactic(auto, using(type_trees::proofs::Views::tree_rules))]
fn any_key(members: &[Member]) -> bool
    ensures { result ≡ spec.any_key (members_shape members.now) }
{
    for member in members {
        if member.key {
            return true;
        }
    }
    false
}

/// Whether `ty` is, behind its aliases, a primitive, string, enumeration or bitmask.
#[tactic(auto, using(type_trees::proofs::Views::tree_rules))]
fn is_leaf(ty: &XType) -> bool
    ensures { result ≡ spec.is_leaf (type_shape ty.now) }
{
    match ty {
        XType::Prim(_) | XType::Str(_) | XType::Enum(_) | XType::Mask(_) => true,
        XType::Seq(_) | XType::Array(_) | XType::Map(_) | XType::Struct(_) | XType::Union(_) => {
            false
        }
        XType::Alias(kind) => is_leaf(&kind.ty),
    }
}

/// Whether each counted member is keyable and not optional. The counted members are the key members, or all where not `keyed`.
#[cycle(keyable)]
#[tactic(auto, using(type_trees::proofs::Views::tree_rules))]
pub fn counted_keyable(keyed: bool, members: &[Member]) -> bool
    ensures { result ≡ spec.counted_keyable keyed (members_shape members.now) }
{
    for member in members {
        if (!keyed || member.key) && (member.optional || !keyable(&member.ty)) {
            return false;
        }
    }
    true
}

/// Whether a key member may have the type.
#[cycle(keyable)]
#[tactic(auto, using(type_trees::proofs::Views::tree_rules))]
pub fn keyable(ty: &XType) -> bool
    ensures { result ≡ spec.keyable (type_shape ty.now) }
{
    match ty {
        XType::Prim(_) | XType::Str(_) | XType::Enum(_) | XType::Mask(_) => true,
        XType::Seq(kind) => is_leaf(&kind.elem.ty),
        XType::Array(kind) => is_leaf(&kind.elem.ty),
        XType::Map(_) | XType::Union(_) => false,
        XType::Struct(kind) => {
            counted_keyable(any_key(kind.members.as_slice()), kind.members.as_slice())
        }
        XType::Alias(kind) => keyable(&kind.ty),
    }
}

/// Whether each key member has Discard.
#[tactic(auto, using(type_trees::proofs::Views::tree_rules))]
pub fn keys_discard(members: &[Member]) -> bool
    ensures { result ≡ node.keys_discard (heads (members_shape members.now)) }
{
    for member in members {
        if member.key && member.tc != Try::Discard {
            return false;
        }
    }
    true
}
