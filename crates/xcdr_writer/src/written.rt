//! Samples written in XCDR1 and XCDR2 (DDS-XTypes 1.3, 7.4.1, 7.4.2 and 7.6.3.1.2): their size, and the octets of values.

ghost use Rattle.std.specs.Prelude.{◌≡◌, ◌≤◌, OnOk, OnErr};
ghost use Rattle.xt_shapes.specs.declared.leaves.Rep.TheVariants.{Xcdr1, Xcdr2};
ghost use Rattle.xt_outside.specs.Outside.{HasCause, AppendsAll, AppendsPrefix};
ghost use Rattle.xcdr_model.specs.FixedSpelling.{fixed, fixed1};
ghost use Rattle.xcdr_model.specs.SampleSpelling.{sample_size, fixed_sample};
ghost use Rattle.type_trees.specs.Bridge.{type_shape};
ghost use Rattle.type_trees.specs.View.{val};
ghost use Rattle.xt_wire.specs.writer.Writing.{Puts, PutsWithin};
ghost use Rattle.xcdr_writer.specs.Samples.{sized};

use type_trees::{Value, XType};
use xt_outside::{Failed, Sink};
use xt_shapes::{Order, Rep};
use xt_wire::writer::Writer;

/// The number of octets of the whole sample of `value` in XCDR1, with its encapsulation and final padding; None exactly where they are
/// more than 1,048,576. It takes no memory.
pub fn size1(ty: &XType, value: &Value) -> Option<u32>
    ensures { result ≡ sized (sample_size Xcdr1 (type_shape ty.now) (val value.now)) }
{
    crate::size_of_sample(Rep::Xcdr1, ty, value)
}

/// The number of octets of the whole sample of `value` in XCDR2, with its encapsulation and final padding; None exactly where they are more
/// than 1,048,576. It takes no memory.
pub fn size2(ty: &XType, value: &Value) -> Option<u32>
    ensures { result ≡ sized (sample_size Xcdr2 (type_shape ty.now) (val value.now)) }
{
    crate::size_of_sample(Rep::Xcdr2, ty, value)
}

/// Writes the one fixed spelling of `value` in XCDR1, at the writer's place and in its order, without encapsulation: members in
/// declared order and zero padding. An optional member is one parameter, empty where it is absent, and a MUTABLE structure is a list of
/// parameters for the members that are present, with its end. A parameter has the short header where that holds its id and length, and
/// its content is aligned from an origin of its own.
///
/// The condition is that `size1` is Some. A refused call wrote a beginning of the spelling, and comes only where the sink's count of
/// faults rose; the writer's origin is as before. It takes no memory.
pub fn encode1<K: Sink>(ty: &XType, value: &Value, out: &mut Writer<K>) -> Result<(), Failed>
    requires { sample_size Xcdr1 (type_shape ty.now) (val value.now) ≤ 1048576 }
    ensures { Puts (fixed1 out.old.order (type_shape ty.now) (val value.now)) out.old out.new result }
{
    crate::encode(Rep::Xcdr1, ty, value, out)
}

/// Writes the one fixed spelling of `value` in XCDR2, at the writer's place and in its order, without encapsulation: members in
/// declared order, zero padding, and length codes 0 to 3 for members that are numbers of 1, 2, 4 or 8 octets, else 4.
///
/// The condition is that `size2` is Some. A refused call wrote a beginning of the spelling, and comes only where the sink's count of
/// faults rose. It takes no memory.
pub fn encode2<K: Sink>(ty: &XType, value: &Value, out: &mut Writer<K>) -> Result<(), Failed>
    requires { sample_size Xcdr2 (type_shape ty.now) (val value.now) ≤ 1048576 }
    ensures { Puts (fixed out.old.order (type_shape ty.now) (val value.now)) out.old out.new result }
{
    crate::encode(Rep::Xcdr2, ty, value, out)
}

/// Writes the one fixed spelling of `value` in XCDR2, at the writer's place and in its order, as `encode2` does, but of any value whose
/// spelling there has fewer than 4,294,967,296 octets. Of a longer one some octets are written, of which nothing is said.
///
/// A refused call wrote a beginning of the spelling, and comes only where the sink's count of faults rose. It takes no memory.
pub fn encode_value<K: Sink>(ty: &XType, value: &Value, out: &mut Writer<K>) -> Result<(), Failed>
    ensures { PutsWithin 4294967296 (fixed out.old.order (type_shape ty.now) (val value.now)) out.old out.new result }
{
    crate::encode_value(Rep::Xcdr2, ty, value, out)
}

/// Writes the sample of `value` in XCDR1: the encapsulation, its body, and zeros up to a multiple of 4, which the last option octet
/// counts.
///
/// The condition is that `size1` is Some. A refused call wrote a beginning of the sample, and comes only where the sink's count of
/// faults rose. It takes no memory.
pub fn write_sample1<K: Sink>(
    ty: &XType,
    value: &Value,
    order: Order,
    sink: &mut K,
) -> Result<(), Failed>
    requires { sample_size Xcdr1 (type_shape ty.now) (val value.now) ≤ 1048576 }
    ensures whole { OnOk result (AppendsAll (K.taken sink.old) (K.taken sink.new) (fixed_sample Xcdr1 order (type_shape ty.now) (val value.now))) }
    ensures prefix { OnErr result (AppendsPrefix (K.taken sink.old) (K.taken sink.new) (fixed_sample Xcdr1 order (type_shape ty.now) (val value.now))) }
    ensures same { K.name sink.new ≡ K.name sink.old }
    ensures cause { HasCause (K.faults sink.old) (K.faults sink.new) result }
{
    crate::write_sample(Rep::Xcdr1, ty, value, order, sink)
}

/// Writes the sample of `value` in XCDR2: the encapsulation, its body, and zeros up to a multiple of 4, which the last option octet counts.
///
/// The condition is that `size2` is Some. A refused call wrote a beginning of the sample, and comes only where the sink's count of
/// faults rose. It takes no memory.
pub fn write_sample2<K: Sink>(
    ty: &XType,
    value: &Value,
    order: Order,
    sink: &mut K,
) -> Result<(), Failed>
    requires { sample_size Xcdr2 (type_shape ty.now) (val value.now) ≤ 1048576 }
    ensures whole { OnOk result (AppendsAll (K.taken sink.old) (K.taken sink.new) (fixed_sample Xcdr2 order (type_shape ty.now) (val value.now))) }
    ensures prefix { OnErr result (AppendsPrefix (K.taken sink.old) (K.taken sink.new) (fixed_sample Xcdr2 order (type_shape ty.now) (val value.now))) }
    ensures same { K.name sink.new ≡ K.name sink.old }
    ensures cause { HasCause (K.faults sink.old) (K.faults sink.new) result }
{
    crate::write_sample(Rep::Xcdr2, ty, value, order, sink)
}
