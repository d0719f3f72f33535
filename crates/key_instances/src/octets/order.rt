//! The counted members of a structure, by rising id.
ghost use Rattle.std.specs.Prelude.{◌≡◌, ◌<◌, length, IfSome};
ghost use Rattle.std.specs.Option.{option_map};
ghost use Rattle.type_trees.specs.Bridge.{members_shape, member_head};
ghost use Rattle.xt_shapes.specs.Keyable as spec;
ghost use Rattle.key_instances.specs.octets.Orders.{IsNext, comes_first};

use type_trees::Member;

/// Whether one of the members is a key.
#[tactic(auto, using(type_trees::proofs::Views::tree_rules))]
pub(crate) fn has_key(members: &[Member]) -> bool
    ensures { result ≡ spec.any_key (members_shape members.now) }
{
    for member in members {
        if member.key {
            return true;
        }
    }
    false
}

/// A counted member: its place and its id.
#[derive(Clone, Copy, PartialEq, Eq)]
pub(crate) struct Counted {
    pub(crate) at: usize,
    pub(crate) id: u32,
}

/// Whether a member is counted, has no id before `from`, and has one before the other's.
fn comes_first(keyed: bool, member: &Member, from: u64, other: Option<Counted>) -> bool
    ensures { result ≡ comes_first keyed (member_head member.now) from (option_map (λ c. c.id) other) }
{
    if keyed && !member.key || u64::from(member.id) < from {
        return false;
    }
    match other {
        Some(other) => member.id < other.id,
        None => true,
    }
}

/// The counted member with the least id from `from` on: the key members are counted, or all where not `keyed`. It takes no memory.
pub(crate) fn next_counted(keyed: bool, members: &[Member], from: u64) -> Option<Counted>
    ensures next { IsNext keyed (members_shape members.now) from result }
    ensures within { IfSome result (λ c. c.at < length members.now) }
{
    let mut next: Option<Counted> = None;
    let mut at = members.len();
    'members: while at > 0 {
        at -= 1;
        if comes_first(keyed, &members[at], from, next) {
            next = Some(Counted {
                at,
                id: members[at].id,
            });
        }
    }
    next
}
