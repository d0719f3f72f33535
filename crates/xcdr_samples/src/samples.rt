// Whole samples.
ghost use Rattle.std.specs.Prelude.{◌≡◌, IfOk, OnOk};
ghost use Rattle.xt_shapes.specs.declared.leaves.Rep.TheVariants.{Xcdr1, Xcdr2};
ghost use Rattle.type_trees.specs.Bridge.{type_shape};
ghost use Rattle.projection_laws.specs.Premises.{IsValid};
ghost use Rattle.try_construct.specs.Guides.{IsGuide};
ghost use Rattle.settled_parts.specs.Settling.{outcome_val};
ghost use Rattle.xt_wire.specs.cursor.Decoding.{Decodes};
ghost use Rattle.xt_wire.specs.cursor.Outcomes.{ComesTyped, ComesLight};
ghost use Rattle.xcdr_samples.specs.Samples.{sample_outcome};

use crate::frames::{close_sample, open_sample};
use settled_parts::Outcome;
use std::alloc::Global;
use try_construct::Guide;
use type_rules::shape_keeps_rules;
use type_trees::XType;
use xcdr_reader::decode_guided;
use xt_shapes::Rep;
use xt_wire::cursor::{Cursor, DecodeFault};
use xt_wire::numbers::top_of;

/// Reads the sample that the cursor's region is, in that representation and by the reader's type alone (DDS-XTypes 1.3, 7.4.1, 7.4.2 and
/// 7.6.3.1.2): the identifier's two octets, two of options, the body, and as many octets of padding as the low two bits of the last option
/// octet count.
///
/// Ok took all of the region, and region, origin and order are as before. The sample is Malformed exactly where the definition of samples
/// has a fault, with the first one and its place: Encapsulation at the region's first octet where fewer than four are there or the
/// identifier is not that of the representation and the type's extensibility, and at the third where more padding is counted than octets are
/// there; a fault of the body as `decode_value` has it, with numbers in the order that the identifier tells and places aligned from the
/// body's first octet; Trailing at the first octet of the body that is left behind the value. ReadFault comes only where the cursor's count
/// of faults rose. After a fault the cursor stands at some place of its old region that is not before the old one. A value that comes out has
/// the reader's type, and at most the type's weight and 128 nodes for each octet of the region.
#[tactic(auto, using(try_construct::proofs::GuideSteps::nothing_guides))]
pub fn read_sample<C: Cursor>(
    alloc: Global,
    rep: Rep,
    reader: &XType,
    cursor: &mut C,
) -> Result<Outcome, DecodeFault>
    requires { IsValid reader.now }
    ensures whole { OnOk result ((C.state cursor.new).place ≡ (C.state cursor.old).region_end) }
    ensures typed { IfOk result (λ x. ComesTyped (type_shape reader.now) (C.state cursor.old) (outcome_val x)) }
    ensures light { IfOk result (λ x. ComesLight (type_shape reader.now) (C.state cursor.old) (C.state cursor.new) (outcome_val x)) }
    ensures value { Decodes outcome_val (sample_outcome rep (type_shape reader.now)) (C.state cursor.old) (C.state cursor.new) result }
{
    let guide = Guide::nothing(alloc);
    read_guided(alloc, rep, reader, &guide, cursor)
}

/// Reads the sample that the cursor's region is, as `read_sample` does, with the same faults. By the type's guide (`Guide::of(alloc, reader)`)
/// literals of enumerations and labels of unions are found in a number of steps that is logarithmic in how many there are.
pub fn read_guided<C: Cursor>(
    alloc: Global,
    rep: Rep,
    reader: &XType,
    guide: &Guide,
    cursor: &mut C,
) -> Result<Outcome, DecodeFault>
    requires valid { IsValid reader.now }
    requires guide { IsGuide (type_shape reader.now) guide.now }
    ensures whole { OnOk result ((C.state cursor.new).place ≡ (C.state cursor.old).region_end) }
    ensures typed { IfOk result (λ x. ComesTyped (type_shape reader.now) (C.state cursor.old) (outcome_val x)) }
    ensures light { IfOk result (λ x. ComesLight (type_shape reader.now) (C.state cursor.old) (C.state cursor.new) (outcome_val x)) }
    ensures value { Decodes outcome_val (sample_outcome rep (type_shape reader.now)) (C.state cursor.old) (C.state cursor.new) result }
{
    shape_keeps_rules();
    shape_laws::sample_typed();
    shape_laws::sample_nodes_bound();
    shape_laws::body_is_value();
    let sample = open_sample(cursor, rep, top_of(reader))?;
    let outcome = decode_guided(alloc, rep, reader, guide, cursor)?;
    close_sample(cursor, sample)?;
    Ok(outcome)
}

/// Reads the sample that the cursor's region is in XCDR1, as `read_sample` does.
pub fn read_sample1<C: Cursor>(
    alloc: Global,
    reader: &XType,
    cursor: &mut C,
) -> Result<Outcome, DecodeFault>
    requires { IsValid reader.now }
    ensures whole { OnOk result ((C.state cursor.new).place ≡ (C.state cursor.old).region_end) }
    ensures typed { IfOk result (λ x. ComesTyped (type_shape reader.now) (C.state cursor.old) (outcome_val x)) }
    ensures light { IfOk result (λ x. ComesLight (type_shape reader.now) (C.state cursor.old) (C.state cursor.new) (outcome_val x)) }
    ensures value { Decodes outcome_val (sample_outcome Xcdr1 (type_shape reader.now)) (C.state cursor.old) (C.state cursor.new) result }
{
    read_sample(alloc, Rep::Xcdr1, reader, cursor)
}

/// Reads the sample that the cursor's region is in XCDR2, as `read_sample` does.
pub fn read_sample2<C: Cursor>(
    alloc: Global,
    reader: &XType,
    cursor: &mut C,
) -> Result<Outcome, DecodeFault>
    requires { IsValid reader.now }
    ensures whole { OnOk result ((C.state cursor.new).place ≡ (C.state cursor.old).region_end) }
    ensures typed { IfOk result (λ x. ComesTyped (type_shape reader.now) (C.state cursor.old) (outcome_val x)) }
    ensures light { IfOk result (λ x. ComesLight (type_shape reader.now) (C.state cursor.old) (C.state cursor.new) (outcome_val x)) }
    ensures value { Decodes outcome_val (sample_outcome Xcdr2 (type_shape reader.now)) (C.state cursor.old) (C.state cursor.new) result }
{
    read_sample(alloc, Rep::Xcdr2, reader, cursor)
}
