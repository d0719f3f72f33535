//! Samples that are written.
ghost use Rattle.std.specs.Prelude.{◌≡◌, ◌≤◌};
ghost use Rattle.type_trees.specs.Bridge.{type_shape};
ghost use Rattle.type_trees.specs.View.{val};
ghost use Rattle.xcdr_model.specs.SampleSpelling.{sample_size};
ghost use Rattle.xcdr_writer.specs.Samples.{sized};

use crate::answers::Answer;
use crate::cases::Case;
use crate::trouble::Trouble;
use crate::values::{type_of, value_of};
use std::alloc::Global;
use type_trees::{Value, XType};
use xcdr_writer::written::{
    encode_value, encode1, encode2, size1, size2, write_sample1, write_sample2,
};
use xt_io::{Failed, MemSink, Sink};
use xt_lists::{OutOfMemory, Text};
use xt_shapes::{Order, Rep};
use xt_wire::writer::Writer;

fn order_named(word: &str) -> Result<Order, Trouble> {
    match word {
        "big" => Ok(Order::Big),
        "little" => Ok(Order::Little),
        _ => Err(Trouble::Words),
    }
}

pub fn rep_of(word: &str) -> Result<Rep, Trouble> {
    match word {
        "xcdr1" => Ok(Rep::Xcdr1),
        "xcdr2" => Ok(Rep::Xcdr2),
        _ => Err(Trouble::Words),
    }
}

/// The representation and the order that the words name: XCDR2 where they name an order alone.
fn form_of(words: &str) -> Result<(Rep, Order), Trouble> {
    match words.split_once(' ') {
        None => Ok((Rep::Xcdr2, order_named(words)?)),
        Some((rep, order)) => Ok((rep_of(rep)?, order_named(order)?)),
    }
}

fn size_by(rep: Rep, ty: &XType, value: &Value) -> Option<u32>
    ensures { result ≡ sized (sample_size rep (type_shape ty.now) (val value.now)) }
{
    match rep {
        Rep::Xcdr1 => size1(ty, value),
        Rep::Xcdr2 => size2(ty, value),
    }
}

fn write_by<K: Sink>(
    rep: Rep,
    ty: &XType,
    value: &Value,
    order: Order,
    sink: &mut K,
) -> Result<(), Failed>
    requires { sample_size rep (type_shape ty.now) (val value.now) ≤ 1048576 }
{
    match rep {
        Rep::Xcdr1 => write_sample1(ty, value, order, sink),
        Rep::Xcdr2 => write_sample2(ty, value, order, sink),
    }
}

fn encode_by<K: Sink>(
    rep: Rep,
    ty: &XType,
    value: &Value,
    out: &mut Writer<K>,
) -> Result<(), Failed>
    requires { sample_size rep (type_shape ty.now) (val value.now) ≤ 1048576 }
{
    match rep {
        Rep::Xcdr1 => encode1(ty, value, out),
        Rep::Xcdr2 => encode2(ty, value, out),
    }
}

/// The sample of a value, over a sink that takes at most five octets a call. None where it is too large.
pub fn sample_octets(
    alloc: Global,
    rep: Rep,
    ty: &XType,
    value: &Value,
    order: Order,
) -> Result<Option<Vec<u8>>, Trouble> {
    let Some(size) = size_by(rep, ty, value) else {
        return Ok(None);
    };
    let mut sink = MemSink::new(alloc, 5, &[]);
    if write_by(rep, ty, value, order, &mut sink).is_err() {
        return Err(Trouble::OutOfMemory);
    }
    if sink.octets().len() as u64 != u64::from(size) {
        return Err(Trouble::Size);
    }
    Ok(Some(Vec::from_slice(alloc, sink.octets())?))
}

/// What is written in hexadecimal, where it isn't too large.
pub fn hex_of(alloc: Global, octets: Option<Vec<u8>>) -> Result<Answer, Trouble> {
    match octets {
        Some(octets) => Ok(Answer::Text(hex::encode(alloc, octets.as_slice())?)),
        None => Ok(Answer::Word("too large")),
    }
}

/// The octets that the value is written as, in the order that the words name.
pub fn sample_written(alloc: Global, words: &str, case: &Case<'_>) -> Result<Answer, Trouble> {
    let (rep, order) = form_of(words)?;
    let ty = type_of(alloc, case.ty)?;
    let value = value_of(alloc, &ty, case.value)?;
    hex_of(alloc, sample_octets(alloc, rep, &ty, &value, order)?)
}

fn body_told(
    alloc: Global,
    rep: Rep,
    ty: &XType,
    value: &Value,
    order: Order,
) -> Result<Answer, Trouble> {
    if size_by(rep, ty, value).is_none() {
        return Ok(Answer::Word("too large"));
    }
    let mut out = Writer::new(MemSink::new(alloc, 5, &[]), order);
    if encode_by(rep, ty, value, &mut out).is_err() {
        return Err(Trouble::OutOfMemory);
    }
    let body = out.end();
    if rep == Rep::Xcdr2 && !is_encoded_as(alloc, ty, value, order, body.octets()) {
        return Ok(Answer::Word("two bodies"));
    }
    Ok(Answer::Text(hex::encode(alloc, body.octets())?))
}

/// The body that the value is written as.
pub fn body_written(alloc: Global, words: &str, case: &Case<'_>) -> Result<Answer, Trouble> {
    let (rep, order) = form_of(words)?;
    let ty = type_of(alloc, case.ty)?;
    let value = value_of(alloc, &ty, case.value)?;
    body_told(alloc, rep, &ty, &value, order)
}

/// Whether `encode_value` writes this body too.
fn is_encoded_as(alloc: Global, ty: &XType, value: &Value, order: Order, body: &[u8]) -> bool {
    let mut out = Writer::new(MemSink::new(alloc, 5, &[]), order);
    encode_value(ty, value, &mut out).is_ok() && out.end().octets() == body
}

/// Whether a sink that fails at this call refuses the sample. A beginning of it is written then, else the whole: None where neither is.
fn is_refused(
    alloc: Global,
    rep: Rep,
    ty: &XType,
    value: &Value,
    order: Order,
    call: u64,
    whole: &[u8],
) -> Option<bool> {
    if size_by(rep, ty, value).is_none() {
        return None;
    }
    let fails = [call];
    let mut sink = MemSink::new(alloc, 3, &fails);
    if write_by(rep, ty, value, order, &mut sink).is_ok() {
        return if sink.octets() == whole {
            Some(false)
        } else {
            None
        };
    }
    if sink.faults() == 1 && whole.starts_with(sink.octets()) {
        return Some(true);
    }
    None
}

/// In how many calls these octets are written, where a sink that fails at any of them refuses the sample.
fn calls_told(
    alloc: Global,
    rep: Rep,
    ty: &XType,
    value: &Value,
    order: Order,
    whole: &[u8],
) -> Result<Answer, Trouble> {
    for calls in 0..1_000u64 {
        match is_refused(alloc, rep, ty, value, order, calls + 1, whole) {
            Some(true) => {}
            Some(false) => return Ok(Answer::count(alloc, calls)?),
            None => return Ok(Answer::Word("other octets")),
        }
    }
    Err(Trouble::Words)
}

/// In how many calls the sample is written, of three octets at most. A sink that fails at any of them refuses it.
pub fn sample_faults(alloc: Global, words: &str, case: &Case<'_>) -> Result<Answer, Trouble> {
    let (rep, order) = form_of(words)?;
    let ty = type_of(alloc, case.ty)?;
    let value = value_of(alloc, &ty, case.value)?;
    match sample_octets(alloc, rep, &ty, &value, order)? {
        Some(whole) => calls_told(alloc, rep, &ty, &value, order, whole.as_slice()),
        None => Ok(Answer::Word("too large")),
    }
}

/// A text of so many octets.
fn text_of(alloc: Global, count: u32) -> Result<Text, OutOfMemory> {
    let block = [b'x'; 1024];
    let mut text = Text::new(alloc);
    for _ in 0..count / 1024 {
        text.append(&block)?;
    }
    text.append(&block[..(count % 1024) as usize])?;
    Ok(text)
}

/// The size of the sample of a text of as many octets as the words say.
pub fn text_size(alloc: Global, words: &str, case: &Case<'_>) -> Result<Answer, Trouble> {
    let Ok(count) = words.parse::<u32>() else {
        return Err(Trouble::Words);
    };
    let ty = type_of(alloc, case.ty)?;
    let text = Box::new(alloc, Value::Str(text_of(alloc, count)?))?;
    match size2(&ty, &text) {
        Some(size) => Ok(Answer::count(alloc, u64::from(size))?),
        None => Ok(Answer::Word("too large")),
    }
}
