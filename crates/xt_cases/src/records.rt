//! The lines of a case that give records or octets.

use crate::forms::Form;
use crate::trouble::Trouble;
use std::alloc::Global;
use xt_io::Kind;
use xt_lists::Text;

/// What the octets of a line are made into.
#[derive(Clone, Copy)]
enum Role {
    /// The record of this kind.
    Record(Kind),
    /// Nothing more: they are no whole record.
    Octets,
}

/// What a line of this word gives, and how.
fn given_by(word: &str) -> Option<(Role, Form)> {
    match word {
        "idl" => Some((Role::Record(Kind::Idl), Form::Plain)),
        "json" => Some((Role::Record(Kind::Json), Form::Plain)),
        "note" => Some((Role::Record(Kind::Note), Form::Plain)),
        "text" => Some((Role::Octets, Form::Plain)),
        "idl-escaped" => Some((Role::Record(Kind::Idl), Form::Escaped)),
        "json-escaped" => Some((Role::Record(Kind::Json), Form::Escaped)),
        "note-escaped" => Some((Role::Record(Kind::Note), Form::Escaped)),
        "text-escaped" => Some((Role::Octets, Form::Escaped)),
        "sample" => Some((Role::Record(Kind::Sample), Form::Hexadecimal)),
        "object" => Some((Role::Record(Kind::Object), Form::Hexadecimal)),
        "raw" => Some((Role::Octets, Form::Hexadecimal)),
        _ => None,
    }
}

/// Appends the record that a word and a text stand for, or octets alone. False where they stand for none.
pub fn append(alloc: Global, into: &mut Text, word: &str, text: &str) -> Result<bool, Trouble> {
    if word == "samples" {
        return append_samples(alloc, into, text);
    }
    let Some((role, form)) = given_by(word) else {
        return Ok(false);
    };
    let Some(octets) = form.read(alloc, text)? else {
        return Ok(false);
    };
    match role {
        Role::Record(kind) => append_record(into, kind, octets.octets()),
        Role::Octets => {
            into.append(octets.octets())?;
            Ok(true)
        }
    }
}

/// Appends a line and its line feed. False where the text has no such escapes.
pub fn append_line(
    alloc: Global,
    into: &mut Text,
    word: &str,
    text: &str,
) -> Result<bool, Trouble> {
    let form = if word == "line" {
        Form::Plain
    } else {
        Form::Escaped
    };
    let Some(octets) = form.read(alloc, text)? else {
        return Ok(false);
    };
    into.append(octets.octets())?;
    into.push(b'\n')?;
    Ok(true)
}

/// Appends so many samples, each with these octets and its number behind them, as four octets in little-endian order. False where the text
/// is no number and octets in hexadecimal.
fn append_samples(alloc: Global, into: &mut Text, text: &str) -> Result<bool, Trouble> {
    let (count, octets) = text.split_once(' ').unwrap_or((text, ""));
    let Ok(count) = count.parse::<u32>() else {
        return Ok(false);
    };
    let Some(octets) = Form::Hexadecimal.read(alloc, octets)? else {
        return Ok(false);
    };
    for number in 0..count {
        let mut payload = Text::from_octets(alloc, octets.octets())?;
        payload.append(&number.to_le_bytes())?;
        if !append_record(into, Kind::Sample, payload.octets())? {
            return Ok(false);
        }
    }
    Ok(true)
}

/// Appends a record: its kind, its length and its payload. False where its length has no 32 bits.
fn append_record(into: &mut Text, kind: Kind, payload: &[u8]) -> Result<bool, Trouble> {
    let Ok(length) = u32::try_from(payload.len()) else {
        return Ok(false);
    };
    into.push(kind.octet())?;
    into.append(&length.to_be_bytes())?;
    into.append(payload)?;
    Ok(true)
}
