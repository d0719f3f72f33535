//! Sizes of samples, and values as octets (DDS-XTypes 1.3, 7.4.2 and 7.6.3.1.2).
ghost use Rattle.std.specs.Prelude.{◌≡◌, ◌≤◌, ◌*◌, ◌++◌, replicate};
ghost use Rattle.xt_shapes.specs.declared.leaves.Order.TheVariants.{Little};
ghost use Rattle.xcdr_model.specs.FixedSpelling.{fixed_of};
ghost use Rattle.std.specs.Prelude.{OnOk, OnErr};
ghost use Rattle.xt_outside.specs.Outside.{HasCause, AppendsAll, AppendsPrefix};
ghost use Rattle.xcdr_model.specs.SampleSpelling.{sample_size, fixed_sample, final_padding, identifier, order_bit};
ghost use Rattle.xcdr_model.specs.Samples.{row_of};
ghost use Rattle.type_trees.specs.Bridge.{type_shape};
ghost use Rattle.type_trees.specs.View.{val};
ghost use Rattle.xt_wire.specs.writer.Writing.{Puts};
ghost use Rattle.xcdr_writer.specs.Samples.{sized};

use crate::encoding::encode_value;
use crate::ends::end_of_value;
use type_trees::{Value, XType};
use xt_outside::{Failed, Sink, write_whole};
use xt_shapes::{Ext, Order, Rep};
use xt_wire::numbers::{half_identifier, top_of};
use xt_wire::writer::Writer;

/// The number of octets of the whole sample of `value` in that representation, with its encapsulation and final padding; None exactly
/// where they are more than 1,048,576. It takes no memory.
pub fn size_of_sample(rep: Rep, ty: &XType, value: &Value) -> Option<u32>
    ensures { result ≡ sized (sample_size rep (type_shape ty.now) (val value.now)) }
{
    let end = end_of_value(rep, ty, value, 0);
    let octets = 4 + end + (4 - end % 4) % 4;
    if octets <= 1_048_576 {
        Some(octets as u32)
    } else {
        None
    }
}

/// Writes the one fixed spelling of `value` in that representation, at the writer's place and in its order, without encapsulation:
/// members in declared order, zero padding, and the shortest header that a member's type or length allows.
///
/// The condition is that `size_of_sample` is Some. A refused call wrote a beginning of the spelling, and comes only where the sink's count of
/// faults rose. It takes no memory.
pub fn encode<K: Sink>(
    rep: Rep,
    ty: &XType,
    value: &Value,
    out: &mut Writer<K>,
) -> Result<(), Failed>
    requires { sample_size rep (type_shape ty.now) (val value.now) ≤ 1048576 }
    ensures { Puts (fixed_of rep out.old.order (type_shape ty.now) (val value.now)) out.old out.new result }
{
    encode_value(rep, ty, value, out)
}

fn little_bit(order: Order) -> u8
    ensures bit { result ≡ order_bit order }
    ensures most { result ≤ 1 }
{
    match order {
        Order::Big => 0,
        Order::Little => 1,
    }
}

/// The second octet of the encapsulation identifier of big-endian samples; that of little-endian ones is one more.
fn big_identifier(rep: Rep, ext: Ext) -> u8
    ensures row { result ≡ 2 * row_of rep ext }
    ensures most { result ≤ 10 }
{
    2 * half_identifier(rep, ext)
}

/// The second octet of the encapsulation identifier; the first is 0.
pub fn identifier_of(rep: Rep, ty: &XType, order: Order) -> u8
    ensures { result ≡ identifier rep (type_shape ty.now) order }
{
    big_identifier(rep, top_of(ty)) + little_bit(order)
}

/// The number of zeros behind the body.
fn padding_of(rep: Rep, ty: &XType, value: &Value) -> u8
    requires { sample_size rep (type_shape ty.now) (val value.now) ≤ 1048576 }
    ensures padding { result ≡ final_padding (fixed_of rep Little (type_shape ty.now) (val value.now) 0) }
    ensures most { result ≤ 3 }
{
    ((4 - end_of_value(rep, ty, value, 0) % 4) % 4) as u8
}

/// Writes the body where the writer begins.
fn write_value<K: Sink>(
    rep: Rep,
    ty: &XType,
    value: &Value,
    out: &mut Writer<K>,
) -> Result<(), Failed>
    requires size { sample_size rep (type_shape ty.now) (val value.now) ≤ 1048576 }
    requires place { out.old.place ≡ 0 }
    requires origin { out.old.origin ≡ 0 }
    ensures whole { OnOk result (AppendsAll out.old.taken out.new.taken (fixed_of rep out.old.order (type_shape ty.now) (val value.now) 0)) }
    ensures prefix { OnErr result (AppendsPrefix out.old.taken out.new.taken (fixed_of rep out.old.order (type_shape ty.now) (val value.now) 0)) }
    ensures same { out.new.name ≡ out.old.name }
    ensures cause { HasCause out.old.faults out.new.faults result }
{
    encode(rep, ty, value, out)
}

/// Writes the body through a writer of its own, which gives the sink back.
fn write_body<K: Sink>(
    rep: Rep,
    ty: &XType,
    value: &Value,
    order: Order,
    sink: &mut K,
) -> Result<(), Failed>
    requires { sample_size rep (type_shape ty.now) (val value.now) ≤ 1048576 }
    ensures whole { OnOk result (AppendsAll (K.taken sink.old) (K.taken sink.new) (fixed_of rep order (type_shape ty.now) (val value.now) 0)) }
    ensures prefix { OnErr result (AppendsPrefix (K.taken sink.old) (K.taken sink.new) (fixed_of rep order (type_shape ty.now) (val value.now) 0)) }
    ensures same { K.name sink.new ≡ K.name sink.old }
    ensures cause { HasCause (K.faults sink.old) (K.faults sink.new) result }
{
    let mut out = Writer::new(&mut *sink, order);
    let result = write_value(rep, ty, value, &mut out);
    let _sink = out.end();
    result
}

fn write_zeros<K: Sink>(count: u8, sink: &mut K) -> Result<(), Failed>
    requires { count ≤ 3 }
    ensures whole { OnOk result (AppendsAll (K.taken sink.old) (K.taken sink.new) (replicate count 0)) }
    ensures prefix { OnErr result (AppendsPrefix (K.taken sink.old) (K.taken sink.new) (replicate count 0)) }
    ensures same { K.name sink.new ≡ K.name sink.old }
    ensures cause { HasCause (K.faults sink.old) (K.faults sink.new) result }
{
    let zeros = [0u8; 4];
    write_whole(sink, &zeros[..usize::from(count)])
}

/// Writes the body, and so many zeros.
fn write_padded<K: Sink>(
    rep: Rep,
    ty: &XType,
    value: &Value,
    order: Order,
    padding: u8,
    sink: &mut K,
) -> Result<(), Failed>
    requires size { sample_size rep (type_shape ty.now) (val value.now) ≤ 1048576 }
    requires padding { padding ≤ 3 }
    ensures whole { OnOk result (AppendsAll (K.taken sink.old) (K.taken sink.new) (fixed_of rep order (type_shape ty.now) (val value.now) 0 ++ replicate padding 0)) }
    ensures prefix { OnErr result (AppendsPrefix (K.taken sink.old) (K.taken sink.new) (fixed_of rep order (type_shape ty.now) (val value.now) 0 ++ replicate padding 0)) }
    ensures same { K.name sink.new ≡ K.name sink.old }
    ensures cause { HasCause (K.faults sink.old) (K.faults sink.new) result }
{
    write_body(rep, ty, value, order, sink)?;
    write_zeros(padding, sink)
}

/// Writes the sample of `value` in that representation: the encapsulation, its body, and zeros up to a multiple of 4, which the last option octet counts.
///
/// The condition is that `size_of_sample` is Some. A refused call wrote a beginning of the sample, and comes only where the sink's count of
/// faults rose. It takes no memory.
pub fn write_sample<K: Sink>(
    rep: Rep,
    ty: &XType,
    value: &Value,
    order: Order,
    sink: &mut K,
) -> Result<(), Failed>
    requires { sample_size rep (type_shape ty.now) (val value.now) ≤ 1048576 }
    ensures whole { OnOk result (AppendsAll (K.taken sink.old) (K.taken sink.new) (fixed_sample rep order (type_shape ty.now) (val value.now))) }
    ensures prefix { OnErr result (AppendsPrefix (K.taken sink.old) (K.taken sink.new) (fixed_sample rep order (type_shape ty.now) (val value.now))) }
    ensures same { K.name sink.new ≡ K.name sink.old }
    ensures cause { HasCause (K.faults sink.old) (K.faults sink.new) result }
{
    let padding = padding_of(rep, ty, value);
    write_whole(sink, &[0, identifier_of(rep, ty, order), 0, padding])?;
    write_padded(rep, ty, value, order, padding, sink)
}
