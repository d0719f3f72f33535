// The Note of a stream.
ghost use Rattle.std.specs.Prelude.{◌≡◌, take, drop, length, IfOk};
ghost use Rattle.xt_recorder.specs.Streams as spec;

use std::alloc::Global;
use type_trees::HashId;
use xt_lists::{OutOfMemory, Text};
use xt_shapes::Rep;

fn rep_text(rep: Rep) -> &'static str
    ensures { result.now ≡ spec.rep_text rep }
{
    match rep {
        Rep::Xcdr1 => "xcdr1",
        Rep::Xcdr2 => "xcdr2",
    }
}

/// Each hash has 14 octets.
pub(crate) fn has_hash(id: &HashId)
    ensures { length id.now.hash ≡ 14 }
{
    let _hash: &[u8] = &id.hash;
}

/// The payload of the Note that says the type and the representation of the samples after it: 43 octets.
pub fn stream_text(alloc: Global, id: &HashId, rep: Rep) -> Result<Text, OutOfMemory>
    ensures { IfOk result (λ text. text ≡ spec.stream_text id.now rep) }
{
    let rep = rep_text(rep);
    let text = format!(in alloc; "stream {id} {rep}")?;
    Text::from_octets(alloc, text.as_bytes())
}

fn rep_of(text: &[u8]) -> Option<Rep>
    ensures { result ≡ spec.rep_of text.now }
{
    if text == b"xcdr1".as_slice() {
        return Some(Rep::Xcdr1);
    }
    if text == b"xcdr2".as_slice() {
        return Some(Rep::Xcdr2);
    }
    None
}

// The octets behind the first so many.
fn behind(octets: &[u8], count: usize) -> &[u8]
    ensures { result.now ≡ drop count octets.now }
{
    &octets[count.min(octets.len())..]
}

// The first so many octets, or as many as there are.
fn first(octets: &[u8], count: usize) -> &[u8]
    ensures { result.now ≡ take count octets.now }
{
    &octets[..count.min(octets.len())]
}

/// The identifier and the representation, where the payload is exactly a stream's text.
pub(crate) fn stream_of(alloc: Global, payload: &[u8]) -> Result<Option<(HashId, Rep)>, OutOfMemory>
    ensures { IfOk result (λ found. found ≡ spec.stream_of payload.now) }
{
    let Some(id) = HashId::from_digits(first(behind(payload, 7), 30)) else {
        return Ok(None);
    };
    let Some(rep) = rep_of(behind(payload, 38)) else {
        return Ok(None);
    };
    let text = stream_text(alloc, &id, rep)?;
    if payload == text.octets() {
        return Ok(Some((id, rep)));
    }
    Ok(None)
}
