ghost use Rattle.std.specs.Prelude.{◌≡◌, IfOk};
ghost use Rattle.type_trees.specs.View.{body_val};
ghost use Rattle.type_trees.specs.Bridge.{type_shape};
ghost use Rattle.settled_parts.specs.Settling.{settled_slot, slot_of, slot_default_of, IsSettled};

use std::alloc::Global;
use type_trees::{Slot, Value, XType};
use type_values::default_value;
use xt_lists::OutOfMemory;
use xt_shapes::Try;

/// What is built of a part.
#[derive(Debug, Drop)]
pub enum Built {
    /// A value, or the absence of an optional member.
    Got(Slot),
    /// A value that was shortened to its bound.
    Over(Value),
    /// None.
    Failed,
}

/// What a sample is to its reader.
#[derive(Debug, Drop)]
pub enum Outcome {
    Sample(Value),
    /// No value can be constructed.
    Discarded,
    /// A member that must be understood is unknown to the reader.
    MustUnderstand,
}

/// The default at a place: absent where it is optional.
#[tactic(auto, using(type_trees::proofs::Views::val_rules))]
pub fn default_slot(alloc: Global, optional: bool, ty: &XType) -> Result<Slot, OutOfMemory>
    ensures { IfOk result (λ s. body_val s ≡ slot_default_of optional (type_shape ty.now)) }
{
    if optional {
        return Ok(Slot::Absent);
    }
    Ok(Slot::Present(default_value(alloc, ty)?))
}

/// Settles what was built at a place (TryConstruct, DDS-XTypes 1.3, 7.2.2.7) into Got or Failed. What is got stays. What is over
/// its bound is got shortened under Trim, becomes the default under UseDefault and fails under Discard. What failed becomes the
/// default under UseDefault, and else stays. The default at an optional place is Absent. OutOfMemory comes where memory for the
/// default is wanting; `built` is dropped.
#[tactic(auto, using(type_trees::proofs::Views::val_rules))]
#[inline(always)]
pub fn settle(
    alloc: Global,
    tc: Try,
    optional: bool,
    ty: &XType,
    built: Built,
) -> Result<Built, OutOfMemory>
    ensures settled { IfOk result IsSettled }
    ensures value { IfOk result (λ b. slot_of b ≡ settled_slot tc optional (type_shape ty.now) built) }
{
    match (built, tc) {
        (Built::Got(slot), _) => Ok(Built::Got(slot)),
        (Built::Over(value), Try::Trim) => Ok(Built::Got(Slot::Present(value))),
        (Built::Over(_), Try::UseDefault) => Ok(Built::Got(default_slot(alloc, optional, ty)?)),
        (Built::Over(_), Try::Discard) => Ok(Built::Failed),
        (Built::Failed, Try::UseDefault) => Ok(Built::Got(default_slot(alloc, optional, ty)?)),
        (Built::Failed, Try::Trim) => Ok(Built::Failed),
        (Built::Failed, Try::Discard) => Ok(Built::Failed),
    }
}
