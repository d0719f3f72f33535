ghost use Rattle.std.specs.Prelude.{◌≡◌, option_map};
ghost use Rattle.type_trees.specs.View.{tree, val, body_val, members_tree, slots_val};
ghost use Rattle.dynamic_data.specs.Reach as spec;

use json_values::is_named;
use type_trees::{Member, Slot, Value, XType};
use xt_lists::Text;

#[cycle(get)]
#[tactic(auto, using(type_trees::proofs::Views::val_rules, type_trees::proofs::Views::tree_rules))]
fn get_slot<'a>(member: &Member, slot: &'a Slot, names: &[Text]) -> Option<&'a Value>
    ensures { option_map (λ v. val v.now) result ≡ spec.body_at (spec.reached (tree member.now.ty) names.now) (body_val slot.now) }
{
    match slot {
        Slot::Absent => None,
        Slot::Present(value) => get(&member.ty, value, names),
    }
}

#[cycle(get)]
fn get_member<'a>(
    members: &[Member],
    name: &[u8],
    slots: &'a [Slot],
    names: &[Text],
) -> Option<&'a Value>
    ensures { option_map (λ v. val v.now) result ≡ spec.member_reached (members_tree members.now) name.now names.now (slots_val slots.now) }
{
    for at in 0..members.len() {
        if at >= slots.len() {
            return None;
        }
        let member = &members[at];
        if is_named(&member.name, name) {
            return get_slot(member, &slots[at], names);
        }
    }
    None
}

#[cycle(get)]
#[tactic(auto, using(type_trees::proofs::Views::val_rules, type_trees::proofs::Views::tree_rules))]
fn get_inside<'a>(
    members: &[Member],
    name: &[u8],
    value: &'a Value,
    names: &[Text],
) -> Option<&'a Value>
    ensures { option_map (λ v. val v.now) result ≡ spec.slots_at (spec.member_reached (members_tree members.now) name.now names.now) (val value.now) }
{
    match value {
        Value::Struct(slots) => get_member(members, name, slots.as_slice(), names),
        Value::Int(_) | Value::Str(_) | Value::List(_) | Value::Map(_) | Value::Union(_) => None,
    }
}

/// The value that names of members reach through structures. None where a name is no member of
/// the structure that is reached, its slot is absent, or no structure is reached.
#[cycle(get)]
#[tactic(auto, using(type_trees::proofs::Views::val_rules, type_trees::proofs::Views::tree_rules))]
pub fn get<'a>(ty: &XType, value: &'a Value, names: &[Text]) -> Option<&'a Value>
    ensures { option_map (λ v. val v.now) result ≡ spec.reached (tree ty.now) names.now (val value.now) }
{
    match ty {
        XType::Alias(kind) => get(&kind.ty, value, names),
        XType::Struct(kind) => if names.is_empty() {
            Some(value)
        } else {
            get_inside(
                kind.members.as_slice(),
                names[0].octets(),
                value,
                &names[1..],
            )
        },
        XType::Prim(_)
        | XType::Str(_)
        | XType::Enum(_)
        | XType::Mask(_)
        | XType::Seq(_)
        | XType::Array(_)
        | XType::Map(_)
        | XType::Union(_) => if names.is_empty() { Some(value) } else { None },
    }
}
