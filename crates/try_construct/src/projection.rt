ghost use Rattle.std.specs.Prelude.{◌≡◌, IfOk, IsTrue};
ghost use Rattle.projection_laws.specs.Premises.{IsValid, IsYes};
ghost use Rattle.settled_parts.specs.Settling.{outcome_val};
ghost use Rattle.type_trees.specs.samples.Tops.{is_top};
ghost use Rattle.try_construct.specs.Typed.{IsTyped};
ghost use Rattle.type_trees.specs.Bridge.{type_shape};
ghost use Rattle.type_trees.specs.View.{val};
ghost use Rattle.xcdr_model.specs.declared.verdict.Policy.{Policy};
ghost use Rattle.xcdr_model.specs.Samples.{projection};
ghost use Rattle.xt_shapes.specs.declared.leaves.Rep.{Rep};
ghost use Rattle.xt_shapes.specs.Typing.{has_type};

use crate::projected::project_part;
use settled_parts::{Outcome, outcome};
use shape_laws::{premises_hold, projection_typed};
use std::alloc::Global;
use type_rules::shape_keeps_rules;
use type_trees::{Value, XType};
use xt_lists::OutOfMemory;

/// What a reader of the type `t1` makes of a value of the type `t2` (DDS-XTypes 1.3, 7.2.4.1). The types need not be assignable:
/// different kinds fail. It is MustUnderstand where a member that must be understood is unknown to the reader, else Discarded where
/// no value can be constructed, else the sample.
///
/// Conditions: both types are valid, the value has the type `t2`, and both types are structures or unions. OutOfMemory comes where
/// memory is wanting.
pub fn project(alloc: Global, t1: &XType, t2: &XType, value: &Value) -> Result<Outcome, OutOfMemory>
    requires reader { IsValid t1.now }
    requires writer { IsValid t2.now }
    requires typed { IsTrue (has_type (type_shape t2.now) (val value.now)) }
    requires reader_top { IsTrue (is_top (type_shape t1.now)) }
    requires writer_top { IsTrue (is_top (type_shape t2.now)) }
    ensures outcome { IfOk result (λ o. outcome_val o ≡ projection (type_shape t1.now) (type_shape t2.now) (val value.now)) }
    ensures typed { (policy : Policy) (rep : Rep) → IsYes policy rep t1.now t2.now → IfOk result (λ o. IsTyped (type_shape t1.now) o) }
{
    shape_keeps_rules();
    premises_hold();
    projection_typed();
    let part = project_part(alloc, t1, t2, value)?;
    Ok(outcome(part))
}
