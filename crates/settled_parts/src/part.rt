ghost use Rattle.std.specs.Prelude.{◌≡◌, IfOk, ◌||◌, false};
ghost use Rattle.type_trees.specs.Bridge.{type_shape};
ghost use Rattle.type_trees.specs.View.{val};
ghost use Rattle.xt_shapes.specs.Vals.{int};
ghost use Rattle.xcdr_model.specs.Projection as model;
ghost use Rattle.xcdr_model.specs.Samples.{outcome_of};
ghost use Rattle.settled_parts.specs.Settling.{outcome_val};
ghost use Rattle.settled_parts.specs.Parts.{part_of, settled_of, settled_part, built_from, slot_from_built};

use crate::settling::{Built, Outcome, settle};
use std::alloc::Global;
use type_trees::{Slot, Value, XType};
use xt_lists::OutOfMemory;
use xt_shapes::Try;

/// A value, a value that was shortened to its bound, or none.
#[derive(Debug, Drop)]
pub enum Made {
    Got(Value),
    Over(Value),
    Failed,
}

/// What is built of a part, and whether a member that must be understood and that the reader lacks came in it.
#[derive(Debug, Drop)]
pub struct Part {
    pub made: Made,
    pub unseen: bool,
}

/// The slot that a part is settled to, none where it failed.
#[derive(Debug, Drop)]
pub struct Settled {
    pub slot: Option<Slot>,
    pub unseen: bool,
}

impl Part {
    /// A value, with nothing unseen.
    #[inline(always)]
    pub fn got(value: Value) -> Part
        ensures { part_of result ≡ (model.got (val value), false) }
    {
        Part {
            made: Made::Got(value),
            unseen: false,
        }
    }

    /// The value of a primitive, an enumeration or a bitmask.
    #[tactic(auto, using(type_trees::proofs::Views::val_rules))]
    #[inline(always)]
    pub fn number(number: i128) -> Part
        ensures { part_of result ≡ (model.got (int number), false) }
    {
        Part::got(Value::Int(number))
    }

    /// None, with nothing unseen.
    pub fn failed() -> Part
        ensures { part_of result ≡ (model.failed, false) }
    {
        Part {
            made: Made::Failed,
            unseen: false,
        }
    }

    /// The same part; something in it is unseen also where `unseen` says so.
    #[inline(always)]
    pub fn with_unseen(self, unseen: bool) -> Part
        ensures { part_of result ≡ ((part_of self).0, (part_of self).1 || unseen) }
    {
        Part {
            made: self.made,
            unseen: self.unseen || unseen,
        }
    }
}

#[inline(always)]
fn built(made: Made) -> Built
    ensures { result ≡ built_from made }
{
    match made {
        Made::Got(value) => Built::Got(Slot::Present(value)),
        Made::Over(value) => Built::Over(value),
        Made::Failed => Built::Failed,
    }
}

#[inline(always)]
fn slot(built: Built) -> Option<Slot>
    ensures { result ≡ slot_from_built built }
{
    match built {
        Built::Got(slot) => Some(slot),
        Built::Over(_) => None,
        Built::Failed => None,
    }
}

/// Settles a part that came by the setting of its place, as `settle` does.
#[tactic(auto, using(type_trees::proofs::Views::val_rules, crate::proofs::PartSteps::part_rules))]
#[inline(always)]
pub fn settle_part(
    alloc: Global,
    tc: Try,
    optional: bool,
    ty: &XType,
    part: Part,
) -> Result<Settled, OutOfMemory>
    ensures { IfOk result (λ s. settled_of s ≡ settled_part tc optional (type_shape ty.now) (part_of part)) }
{
    let unseen = part.unseen;
    let built = settle(alloc, tc, optional, ty, built(part.made))?;
    Ok(Settled {
        slot: slot(built),
        unseen,
    })
}

/// What a whole is to its reader: MustUnderstand where something that must be understood is unseen, else Discarded where no value
/// was got, else the sample.
pub fn outcome(part: Part) -> Outcome
    ensures { outcome_val result ≡ outcome_of (part_of part) }
{
    if part.unseen {
        return Outcome::MustUnderstand;
    }
    match part.made {
        Made::Got(value) => Outcome::Sample(value),
        Made::Over(_) => Outcome::Discarded,
        Made::Failed => Outcome::Discarded,
    }
}
