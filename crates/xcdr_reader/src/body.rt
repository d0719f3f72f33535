// The values of bodies.
ghost use Rattle.std.specs.Prelude.{◌≡◌, IfOk};
ghost use Rattle.type_trees.specs.Bridge.{type_shape};
ghost use Rattle.projection_laws.specs.Premises.{IsValid};
ghost use Rattle.try_construct.specs.Guides.{IsGuide};
ghost use Rattle.settled_parts.specs.Settling.{outcome_val};
ghost use Rattle.xt_wire.specs.cursor.Decoding.{Decodes};
ghost use Rattle.xt_wire.specs.cursor.Outcomes.{ComesTyped, ComesLight};
ghost use Rattle.xt_shapes.specs.declared.leaves.Rep.TheVariants.{Xcdr1, Xcdr2};
ghost use Rattle.xcdr_reader.specs.Bodies.{value_outcome, nothing_left, behind_union, value_end};

use crate::decode::read_part;
use crate::modes::Mode;
use settled_parts::{Outcome, outcome};
use std::alloc::Global;
use try_construct::Guide;
use type_rules::shape_keeps_rules;
use type_trees::XType;
use xcdr_model::Why;
use xcdr_steps::again::{Peeking, Rereading};
use xt_shapes::Rep;
use xt_wire::cursor::{Cursor, DecodeFault};

// Where octets of the region are left the value is malformed (Trailing).
fn end_region<C: Cursor>(cursor: &C) -> Result<(), DecodeFault>
    ensures { Decodes (λ u. u) (λ o s. nothing_left s) (C.state cursor.now) (C.state cursor.now) result }
{
    let at = cursor.place();
    if at < cursor.region_end() {
        return Err(DecodeFault::Malformed {
            at,
            why: Why::Trailing,
        });
    }
    Ok(())
}

#[tactic(auto, using(type_trees::proofs::Views::tree_rules))]
fn end_behind<C: Cursor>(cursor: &C, reader: &XType) -> Result<(), DecodeFault>
    ensures { Decodes (λ u. u) (λ o s. behind_union (type_shape reader.now) s) (C.state cursor.now) (C.state cursor.now) result }
{
    match reader {
        XType::Union(_) => end_region(cursor),
        XType::Alias(kind) => end_behind(cursor, &kind.ty),
        XType::Prim(_)
        | XType::Str(_)
        | XType::Enum(_)
        | XType::Mask(_)
        | XType::Seq(_)
        | XType::Array(_)
        | XType::Map(_)
        | XType::Struct(_) => Ok(()),
    }
}

fn end_value<C: Cursor>(cursor: &C, rep: Rep, reader: &XType) -> Result<(), DecodeFault>
    ensures { Decodes (λ u. u) (value_end rep (type_shape reader.now)) (C.state cursor.now) (C.state cursor.now) result }
{
    match rep {
        Rep::Xcdr1 => end_behind(cursor, reader),
        Rep::Xcdr2 => Ok(()),
    }
}

// Reads one value with a cursor that gives octets again.
fn read_value<C: Peeking>(
    alloc: Global,
    rep: Rep,
    reader: &XType,
    guide: &Guide,
    cursor: &mut C,
) -> Result<Outcome, DecodeFault>
    requires valid { IsValid reader.now }
    requires guide { IsGuide (type_shape reader.now) guide.now }
    ensures { Decodes outcome_val (value_outcome rep (type_shape reader.now)) (C.state cursor.old) (C.state cursor.new) result }
{
    shape_keeps_rules();
    shape_laws::premises_hold();
    let part = read_part(alloc, reader, guide, Mode::of(rep), cursor)?;
    end_value(cursor, rep, reader)?;
    Ok(outcome(part))
}

/// Reads one value of the reader's type in that representation, at any place of the cursor's region; what is left behind the value is no
/// fault, except behind a union in XCDR1, whose case has the rest of the region (Trailing). No writer's type is known (DDS-XTypes 1.3, 7.4.1
/// and 7.4.2). A value that comes out has the reader's type, and at most the type's weight and 128 nodes for each octet that was read.
#[tactic(auto, using(try_construct::proofs::GuideSteps::nothing_guides))]
pub fn decode_value<C: Cursor>(
    alloc: Global,
    rep: Rep,
    reader: &XType,
    cursor: &mut C,
) -> Result<Outcome, DecodeFault>
    requires { IsValid reader.now }
    ensures typed { IfOk result (λ x. ComesTyped (type_shape reader.now) (C.state cursor.old) (outcome_val x)) }
    ensures light { IfOk result (λ x. ComesLight (type_shape reader.now) (C.state cursor.old) (C.state cursor.new) (outcome_val x)) }
    ensures value { Decodes outcome_val (value_outcome rep (type_shape reader.now)) (C.state cursor.old) (C.state cursor.new) result }
{
    let guide = Guide::nothing(alloc);
    decode_guided(alloc, rep, reader, &guide, cursor)
}

/// Reads one value as `decode_value` does, with the same faults. By the type's guide (`Guide::of(alloc, reader)`) literals of enumerations and
/// labels of unions are found in a number of steps that is logarithmic in how many there are.
pub fn decode_guided<C: Cursor>(
    alloc: Global,
    rep: Rep,
    reader: &XType,
    guide: &Guide,
    cursor: &mut C,
) -> Result<Outcome, DecodeFault>
    requires valid { IsValid reader.now }
    requires guide { IsGuide (type_shape reader.now) guide.now }
    ensures typed { IfOk result (λ x. ComesTyped (type_shape reader.now) (C.state cursor.old) (outcome_val x)) }
    ensures light { IfOk result (λ x. ComesLight (type_shape reader.now) (C.state cursor.old) (C.state cursor.new) (outcome_val x)) }
    ensures value { Decodes outcome_val (value_outcome rep (type_shape reader.now)) (C.state cursor.old) (C.state cursor.new) result }
{
    shape_keeps_rules();
    shape_laws::value_typed();
    shape_laws::value_nodes_bound();
    let mut again = Rereading::new(cursor);
    read_value(alloc, rep, reader, guide, &mut again)
}

/// Reads one value in XCDR1, as `decode_value` does.
pub fn decode1<C: Cursor>(
    alloc: Global,
    reader: &XType,
    cursor: &mut C,
) -> Result<Outcome, DecodeFault>
    requires { IsValid reader.now }
    ensures typed { IfOk result (λ x. ComesTyped (type_shape reader.now) (C.state cursor.old) (outcome_val x)) }
    ensures light { IfOk result (λ x. ComesLight (type_shape reader.now) (C.state cursor.old) (C.state cursor.new) (outcome_val x)) }
    ensures value { Decodes outcome_val (value_outcome Xcdr1 (type_shape reader.now)) (C.state cursor.old) (C.state cursor.new) result }
{
    decode_value(alloc, Rep::Xcdr1, reader, cursor)
}

/// Reads one value in XCDR2, as `decode_value` does.
pub fn decode2<C: Cursor>(
    alloc: Global,
    reader: &XType,
    cursor: &mut C,
) -> Result<Outcome, DecodeFault>
    requires { IsValid reader.now }
    ensures typed { IfOk result (λ x. ComesTyped (type_shape reader.now) (C.state cursor.old) (outcome_val x)) }
    ensures light { IfOk result (λ x. ComesLight (type_shape reader.now) (C.state cursor.old) (C.state cursor.new) (outcome_val x)) }
    ensures value { Decodes outcome_val (value_outcome Xcdr2 (type_shape reader.now)) (C.state cursor.old) (C.state cursor.new) result }
{
    decode_value(alloc, Rep::Xcdr2, reader, cursor)
}
