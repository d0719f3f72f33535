// A union: its discriminator and the case that is selected.
ghost use Rattle.std.specs.Prelude.{◌≡◌, cond, IfOk};
ghost use Rattle.std.specs.Option.{option_map};
ghost use Rattle.type_trees.specs.Bridge.{type_shape, case_head};
ghost use Rattle.type_trees.specs.View.{val, body_val};
ghost use Rattle.xt_shapes.specs.Vals.{int, union_of};
ghost use Rattle.xcdr_model.specs.Projection as model;
ghost use Rattle.settled_parts.specs.Parts.{part_of};
ghost use Rattle.try_construct.specs.Items.{value_in};
ghost use Rattle.try_construct.specs.Unions.{case_of};

use settled_parts::{Made, Part, is_value, settle_part};
use std::alloc::Global;
use type_trees::{Case, Slot, UnionValue, Value, XType, as_enum};
use xt_lists::OutOfMemory;

/// What stands for a union's case.
#[derive(Debug, Drop)]
pub enum SettledCase {
    /// No case is selected.
    NoCase,
    /// The reader or the writer alone selects a case.
    OneSided,
    /// The value that the case is settled to, none where it failed, and whether something in it is unseen.
    Settled { value: Option<Value>, unseen: bool },
}

/// Whether the discriminator can be constructed: an enumeration wants a literal of that value.
#[tactic(auto, using(type_trees::proofs::Views::tree_rules))]
pub fn fits_disc(disc: &XType, number: i128) -> bool
    ensures { model.disc_built (type_shape disc.now) number ≡ cond result (model.got (int number)) model.failed }
{
    match as_enum(disc) {
        Some(kind) => is_value(kind.literals.as_slice(), number),
        None => true,
    }
}

fn present_value(slot: Option<Slot>) -> Option<Value>
    ensures { option_map val result ≡ value_in (option_map body_val slot) }
{
    match slot {
        Some(Slot::Present(value)) => Some(value),
        Some(Slot::Absent) => None,
        None => None,
    }
}

/// Settles what was built of a case by the case's setting.
#[tactic(auto, using(crate::proofs::ItemSteps::settle_rules))]
pub fn settle_case(alloc: Global, case: &Case, part: Part) -> Result<SettledCase, OutOfMemory>
    ensures { IfOk result (λ s. case_of s ≡ model.settled_case (case_head case.now) (type_shape case.now.ty) (part_of part)) }
{
    let settled = settle_part(alloc, case.tc, false, &case.ty, part)?;
    Ok(SettledCase::Settled {
        value: present_value(settled.slot),
        unseen: settled.unseen,
    })
}

#[tactic(auto, using(type_trees::proofs::Views::val_rules))]
fn union_part(alloc: Global, disc: i128, body: Slot, unseen: bool) -> Result<Part, OutOfMemory>
    ensures { IfOk result (λ p. part_of p ≡ (model.got (union_of disc (body_val body)), unseen)) }
{
    let union = Box::new(alloc, UnionValue { disc, body })?;
    Ok(Part {
        made: Made::Got(Value::Union(union)),
        unseen,
    })
}

#[tactic(auto, using(type_trees::proofs::Views::val_rules))]
fn settled_union(
    alloc: Global,
    disc: i128,
    value: Option<Value>,
    unseen: bool,
) -> Result<Part, OutOfMemory>
    ensures { IfOk result (λ p. part_of p ≡ (model.body_built disc (model.settled_body (option_map val value)), unseen)) }
{
    match value {
        Some(value) => union_part(alloc, disc, Slot::Present(value), unseen),
        None => Ok(Part {
            made: Made::Failed,
            unseen,
        }),
    }
}

fn is_unseen(case: &SettledCase) -> bool
    ensures { result ≡ (case_of case.now).1 }
{
    match case {
        SettledCase::NoCase => false,
        SettledCase::OneSided => false,
        SettledCase::Settled { value: _, unseen } => *unseen,
    }
}

/// The union of a discriminator and its case; `fits` says whether the discriminator can be constructed. None where it can't, where
/// one side alone selects a case (this profile's own), or where the case failed.
#[tactic(auto, using(type_trees::proofs::Views::val_rules))]
pub fn whole_union(
    alloc: Global,
    fits: bool,
    disc: i128,
    case: SettledCase,
) -> Result<Part, OutOfMemory>
    ensures { IfOk result (λ p. part_of p ≡ model.whole_union (cond fits (model.got (int disc)) model.failed) disc (case_of case)) }
{
    if !fits {
        return Ok(Part {
            made: Made::Failed,
            unseen: is_unseen(&case),
        });
    }
    match case {
        SettledCase::NoCase => union_part(alloc, disc, Slot::Absent, false),
        SettledCase::OneSided => Ok(Part::failed()),
        SettledCase::Settled { value, unseen } => settled_union(alloc, disc, value, unseen),
    }
}
