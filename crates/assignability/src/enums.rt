ghost use Rattle.std.specs.Prelude.{◌≡◌, ◌<◌, length, IfSome};
ghost use Rattle.assignability.specs.Views.{failure_view};
ghost use Rattle.type_trees.specs.Parts.{enum_parts};
ghost use Rattle.xcdr_model.specs.Failure as spec;

use crate::verdict::{Failure, here};
use node_judge::enum_rule;
use type_trees::EnumType;

pub(crate) fn enum_failure(left: &EnumType, right: &EnumType) -> Option<Failure>
    ensures value { failure_view result ≡ spec.enum_rules (enum_parts left.now) (enum_parts right.now) }
    ensures short { IfSome result (λ f. length f.path < 1) }
{
    match enum_rule(
        left.ext,
        left.bits,
        left.literals.as_slice(),
        right.ext,
        right.bits,
        right.literals.as_slice(),
    ) {
        None => None,
        Some(rule) => Some(here(rule)),
    }
}
