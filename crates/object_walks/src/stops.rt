ghost use Rattle.std.specs.Prelude.{◌≡◌, []};
ghost use Rattle.object_walks.specs.Walking.{IsBeneath, IsShort};

use type_rules::TypeFault;
use type_trees::{HashId, Path};
use xt_lists::OutOfMemory;
use xt_shapes::Step;

/// Why a walk ends.
#[derive(Drop)]
pub(crate) enum Stop {
    /// The pool lacks the identifier.
    Missing(HashId),
    /// The identifier is met inside itself.
    Recursive(HashId),
    /// A node breaks a rule of valid types.
    AtNode(TypeFault),
    /// The whole type breaks the rule.
    OfWhole(u8),
    OutOfMemory,
}

impl From<OutOfMemory> for Stop {
    ghost use Rattle.object_walks.specs.declared.stops.Stop.TheVariants as stops;

    ghost from_gives = { λ _ stop. stop ≡ stops.OutOfMemory };

    fn from(_: OutOfMemory) -> Stop {
        Stop::OutOfMemory
    }
}

/// The rule fails at the node where the walk is.
pub(crate) fn at_node(rule: u8) -> Stop
    ensures { result ≡ Stop.AtNode (record { rule = rule; node = [] }) }
{
    Stop::AtNode(TypeFault {
        rule,
        node: Path::empty(),
    })
}

/// The stop, a step further from the top.
pub(crate) fn beneath(step: Step, stop: Stop) -> Stop
    requires { IsShort 15 stop }
    ensures { IsBeneath step stop result }
{
    match stop {
        Stop::AtNode(TypeFault { rule, mut node }) => {
            node.push_front(step);
            Stop::AtNode(TypeFault { rule, node })
        }
        other => other,
    }
}
