//! Samples that are read.
ghost use Rattle.std.specs.Prelude.{◌≡◌, None};
ghost use Rattle.type_trees.specs.View.{tree};
ghost use Rattle.type_rules.specs.Valid.{type_fault};

use crate::answers::Answer;
use crate::cases::Case;
use crate::trouble::Trouble;
use crate::values::{json_of, type_of};
use crate::writing::{hex_of, rep_of, sample_octets};
use settled_parts::Outcome;
use std::alloc::Global;
use try_construct::Guide;
use type_trees::{Value, XType};
use xcdr_reader::{decode_guided, decode1, decode2};
use xcdr_samples::{read_guided, read_sample1, read_sample2};
use xt_io::{BundleReader, Kind, MemSink, MemSource, write_record};
use xt_shapes::{Order, Rep};
use xt_wire::cursor::{Cursor, DecodeFault, SliceCursor};
use xt_wire::streams::StreamCursor;

/// The most octets of a record.
const MOST_OCTETS: usize = 1_048_576;

/// What an outcome says.
pub fn told(alloc: Global, ty: &XType, outcome: &Outcome) -> Result<Answer, Trouble>
    requires { type_fault (tree ty.now) ≡ None }
{
    match outcome {
        Outcome::Sample(value) => Ok(Answer::read(alloc, json_of(alloc, ty, value)?.as_str())?),
        Outcome::Discarded => Ok(Answer::Word("discarded")),
        Outcome::MustUnderstand => Ok(Answer::Word("must-understand")),
    }
}

fn answer_of(
    alloc: Global,
    ty: &XType,
    answer: Result<Outcome, DecodeFault>,
) -> Result<Answer, Trouble>
    requires { type_fault (tree ty.now) ≡ None }
{
    match answer {
        Ok(outcome) => told(alloc, ty, &outcome),
        Err(fault) => Ok(Answer::unread(alloc, fault)?),
    }
}

/// The octets of hexadecimal digits, between which blanks may stand.
pub fn octets_of(alloc: Global, text: &str) -> Result<Vec<u8>, Trouble> {
    let mut digits = String::new(alloc);
    for word in text.split_whitespace() {
        digits.push_str(word)?;
    }
    Ok(hex::decode(alloc, digits.as_str())?)
}

/// The representation that the words name: XCDR2 where they name none.
pub fn rep_named(words: &str) -> Result<Rep, Trouble> {
    if words.is_empty() {
        return Ok(Rep::Xcdr2);
    }
    rep_of(words)
}

/// Reads the sample that a cursor's region is.
fn sample_of<C: Cursor>(
    alloc: Global,
    rep: Rep,
    ty: &XType,
    cursor: &mut C,
) -> Result<Outcome, DecodeFault>
    requires { type_fault (tree ty.now) ≡ None }
{
    match rep {
        Rep::Xcdr1 => read_sample1(alloc, ty, cursor),
        Rep::Xcdr2 => read_sample2(alloc, ty, cursor),
    }
}

/// A record with these octets.
fn record_of(alloc: Global, payload: &[u8]) -> Result<MemSink, Trouble> {
    if payload.len() > MOST_OCTETS {
        return Err(Trouble::Words);
    }
    let mut bundle = MemSink::new(alloc, 4_096, &[]);
    match write_record(&mut bundle, Kind::Sample, payload) {
        Ok(()) => Ok(bundle),
        Err(_) => Err(Trouble::OutOfMemory),
    }
}

/// A cursor over the first record, whose source gives at most so many octets in a call.
fn cursor_over(bundle: &[u8], most: usize) -> Option<StreamCursor<MemSource<'_>>> {
    let mut reader = BundleReader::new(MemSource::new(bundle, most, &[]));
    match reader.next_head() {
        Ok(Some(head)) => Some(StreamCursor::new(reader, head.length)),
        Ok(None) | Err(_) => None,
    }
}

/// Reads the sample from a record whose source gives at most so many octets in a call.
fn streamed(
    alloc: Global,
    rep: Rep,
    ty: &XType,
    payload: &[u8],
    most: usize,
) -> Result<Answer, Trouble>
    requires { type_fault (tree ty.now) ≡ None }
{
    let bundle = record_of(alloc, payload)?;
    let mut cursor = cursor_over(bundle.octets(), most).ok_or(Trouble::Words)?;
    let outcome = sample_of(alloc, rep, ty, &mut cursor);
    if is_at_the_end(cursor.end()) {
        return answer_of(alloc, ty, outcome);
    }
    Err(Trouble::Words)
}

/// Whether a bundle ends behind what was read of it.
fn is_at_the_end(reader: BundleReader<MemSource<'_>>) -> bool {
    let mut reader = reader;
    reader.next_head() == Ok(None)
}

/// Whether the sample is read as this answer from a record whose source gives at most so many octets in a call.
fn is_streamed(
    alloc: Global,
    rep: Rep,
    ty: &XType,
    payload: &[u8],
    most: usize,
    answer: &str,
) -> Result<bool, Trouble>
    requires { type_fault (tree ty.now) ≡ None }
{
    let other = streamed(alloc, rep, ty, payload, most)?;
    Ok(other.as_str() == answer)
}

/// Whether the sample is read as this answer from records whose sources give at most 1, 2, 3 and 7 octets in a call.
fn is_read_from_each(
    alloc: Global,
    rep: Rep,
    ty: &XType,
    payload: &[u8],
    answer: &str,
) -> Result<bool, Trouble>
    requires { type_fault (tree ty.now) ≡ None }
{
    for most in [1, 2, 3, 7] {
        if !is_streamed(alloc, rep, ty, payload, most, answer)? {
            return Ok(false);
        }
    }
    Ok(true)
}

/// What the octets are read as by a guide of the type.
fn guided(alloc: Global, rep: Rep, ty: &XType, payload: &[u8]) -> Result<Answer, Trouble>
    requires { type_fault (tree ty.now) ≡ None }
{
    let guide = Guide::of(alloc, ty);
    let mut cursor = SliceCursor::new(payload);
    let outcome = read_guided(alloc, rep, ty, &guide, &mut cursor);
    answer_of(alloc, ty, outcome)
}

/// What the octets are read as by a cursor over memory, where cursors over streams and a guide of the type say the same.
fn payload_read(alloc: Global, rep: Rep, ty: &XType, payload: &[u8]) -> Result<Answer, Trouble>
    requires { type_fault (tree ty.now) ≡ None }
{
    let mut cursor = SliceCursor::new(payload);
    let answer = answer_of(alloc, ty, sample_of(alloc, rep, ty, &mut cursor))?;
    if guided(alloc, rep, ty, payload)?.as_str() != answer.as_str() {
        return Ok(Answer::Word("another answer by a guide"));
    }
    if is_read_from_each(alloc, rep, ty, payload, answer.as_str())? {
        return Ok(answer);
    }
    Ok(Answer::Word("another answer from a stream"))
}

/// What the octets are read as by a cursor over memory, where a guide of the type and cursors over streams of 1, 2, 3 and 7 octets a call say
/// the same.
pub fn sample_read(alloc: Global, words: &str, case: &Case<'_>) -> Result<Answer, Trouble> {
    let rep = rep_named(words)?;
    let ty = type_of(alloc, case.ty)?;
    let payload = octets_of(alloc, case.octets)?;
    payload_read(alloc, rep, &ty, payload.as_slice())
}

/// Reads the body at the front of a cursor's region, little-endian.
fn body_of<C: Cursor>(
    alloc: Global,
    rep: Rep,
    ty: &XType,
    cursor: &mut C,
) -> Result<Outcome, DecodeFault>
    requires { type_fault (tree ty.now) ≡ None }
{
    cursor.set_order(Order::Little);
    match rep {
        Rep::Xcdr1 => decode1(alloc, ty, cursor),
        Rep::Xcdr2 => decode2(alloc, ty, cursor),
    }
}

/// Whether exactly these octets are left of a record behind the body at its front, whose source gives at most so many octets in a call.
fn is_left(
    alloc: Global,
    rep: Rep,
    ty: &XType,
    payload: &[u8],
    most: usize,
    left: &[u8],
) -> Result<bool, Trouble>
    requires { type_fault (tree ty.now) ≡ None }
{
    let bundle = record_of(alloc, payload)?;
    let mut cursor = cursor_over(bundle.octets(), most).ok_or(Trouble::Words)?;
    let is_read = body_of(alloc, rep, ty, &mut cursor).is_ok();
    let mut reader = cursor.end();
    match reader.payload(alloc) {
        Ok(rest) => Ok(is_read && rest.octets() == left),
        Err(_) => Ok(false),
    }
}

/// What a body is read as by a guide of the type.
fn body_guided(alloc: Global, rep: Rep, ty: &XType, body: &[u8]) -> Result<Answer, Trouble>
    requires { type_fault (tree ty.now) ≡ None }
{
    let guide = Guide::of(alloc, ty);
    let mut cursor = SliceCursor::new(body);
    cursor.set_order(Order::Little);
    let outcome = decode_guided(alloc, rep, ty, &guide, &mut cursor);
    answer_of(alloc, ty, outcome)
}

/// What the octets are read as by `decode1` or `decode2`, little-endian, without an encapsulation, where a guide of the type says the same.
/// Where a value is read, a cursor over a stream leaves the octets behind it too.
pub fn body_read(alloc: Global, words: &str, case: &Case<'_>) -> Result<Answer, Trouble> {
    let rep = rep_named(words)?;
    let ty = type_of(alloc, case.ty)?;
    let body = octets_of(alloc, case.octets)?;
    body_told(alloc, rep, &ty, body.as_slice())
}

fn body_told(alloc: Global, rep: Rep, ty: &XType, body: &[u8]) -> Result<Answer, Trouble>
    requires { type_fault (tree ty.now) ≡ None }
{
    let mut cursor = SliceCursor::new(body);
    let outcome = body_of(alloc, rep, ty, &mut cursor);
    let (_, left) = body.split_at((cursor.place() as usize).min(body.len()));
    let is_read = outcome.is_ok();
    let answer = answer_of(alloc, ty, outcome)?;
    if body_guided(alloc, rep, ty, body)?.as_str() != answer.as_str() {
        return Ok(Answer::Word("another answer by a guide"));
    }
    if is_read && !is_left(alloc, rep, ty, body, 3, left)? {
        return Ok(Answer::Word("other octets are left of a stream"));
    }
    Ok(answer)
}

/// The order that the last bit of a payload's second octet names.
fn order_of(payload: &[u8]) -> Order {
    match payload {
        [_, identifier, ..] if identifier % 2 == 0 => Order::Big,
        _ => Order::Little,
    }
}

/// `same` where the sample that the octets are read as is written as these octets again, or else what is written.
pub fn sample_again(alloc: Global, words: &str, case: &Case<'_>) -> Result<Answer, Trouble> {
    let rep = rep_named(words)?;
    let ty = type_of(alloc, case.ty)?;
    let payload = octets_of(alloc, case.octets)?;
    let payload = payload.as_slice();
    let mut cursor = SliceCursor::new(payload);
    match sample_of(alloc, rep, &ty, &mut cursor) {
        Ok(Outcome::Sample(value)) => written_again(alloc, rep, &ty, &value, payload),
        _ => Ok(Answer::Word("no sample")),
    }
}

fn written_again(
    alloc: Global,
    rep: Rep,
    ty: &XType,
    value: &Value,
    payload: &[u8],
) -> Result<Answer, Trouble> {
    match sample_octets(alloc, rep, ty, value, order_of(payload))? {
        Some(written) if written.as_slice() == payload => Ok(Answer::Word("same")),
        written => hex_of(alloc, written),
    }
}
