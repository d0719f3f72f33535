//! Calls on parts of what the others take: names, values that are too long, annotations, TypeObjects, records and instances.
use crate::answers::Answer;
use crate::cases::Case;
use crate::samples::octets_of;
use crate::trouble::Trouble;
use crate::values::{given_value, json_told, type_of, value_of};
use key_instances::{Instances, PutFault};
use settled_parts::{Built, settle};
use std::alloc::Global;
use type_object::{read_object, references};
use type_trees::{HashId, Slot, hash_id, name_hash};
use xt_annotations::{NoteFault, read_note};
use xt_io::{BundleReader, Kind, SureSource};
use xt_lists::Text;
use xt_shapes::Try;

/// The most octets of a text with an annotation.
const MOST_TEXT: usize = 1_048_576;

/// The most keys that instances may have.
const MOST_KEYS: u32 = 65_536;

/// The hash of a name, and the member id that it gives.
pub fn hashed(alloc: Global, name: &str) -> Result<Answer, Trouble> {
    let hash = hex::encode(alloc, &name_hash(name.as_bytes()))?;
    let id = hash_id(name.as_bytes());
    Ok(Answer::Text(format!(in alloc; "{hash} {id}")?))
}

fn try_of(word: &str) -> Result<Try, Trouble> {
    match word {
        "discard" => Ok(Try::Discard),
        "use-default" => Ok(Try::UseDefault),
        "trim" => Ok(Try::Trim),
        _ => Err(Trouble::Words),
    }
}

/// What becomes of the value where it was shortened to its bound, in a member that isn't optional.
pub fn settled(alloc: Global, word: &str, case: &Case<'_>) -> Result<Answer, Trouble> {
    let tried = try_of(word)?;
    let ty = type_of(alloc, case.ty)?;
    let value = value_of(alloc, &ty, case.value)?;
    match settle(
        alloc,
        tried,
        false,
        &ty,
        Built::Over(Box::into_inner(value)),
    )? {
        Built::Got(Slot::Present(value)) => json_told(alloc, &ty, &value),
        Built::Got(Slot::Absent) => Ok(Answer::Word("absent")),
        Built::Over(_) => Ok(Answer::Word("over")),
        Built::Failed => Ok(Answer::Word("failed")),
    }
}

/// The annotation at the front of a text, and the place behind it; or the place and the rule that it breaks.
pub fn noted(alloc: Global, text: &str) -> Result<Answer, Trouble> {
    let octets = text.as_bytes();
    if octets.is_empty() || octets[0] != b'@' || MOST_TEXT < octets.len() {
        return Err(Trouble::Words);
    }
    match read_note(alloc, octets, 0) {
        Ok(noted) => {
            let note = &noted.placed.note;
            Ok(Answer::Text(format!(in alloc; "{note:?} to {}", noted.end)?))
        }
        Err(NoteFault::Refused(refused)) => {
            Ok(Answer::Text(format!(in alloc; "{} A{}", refused.at, refused.rule)?))
        }
        Err(NoteFault::OutOfMemory) => Err(Trouble::OutOfMemory),
    }
}

/// The identifiers that an object refers to.
pub fn referred(alloc: Global, digits: &str) -> Result<Answer, Trouble> {
    let octets = octets_of(alloc, digits)?;
    let Ok(object) = read_object(alloc, octets.as_slice()) else {
        return Ok(Answer::Word("no object"));
    };
    ids_told(alloc, references(alloc, &object)?.as_slice())
}

/// Identifiers, with a blank between them.
fn ids_told(alloc: Global, ids: &[HashId]) -> Result<Answer, Trouble> {
    let mut text = String::new(alloc);
    for id in ids {
        let one = format!(in alloc; "{id} ")?;
        text.push_str(one.as_str())?;
    }
    if text.is_empty() {
        return Ok(Answer::Word("none"));
    }
    Ok(Answer::Text(String::from_str(alloc, text.as_str().trim_end())?))
}

fn kind_word(kind: Kind) -> &'static str {
    match kind {
        Kind::Object => "object",
        Kind::Sample => "sample",
        Kind::Idl => "idl",
        Kind::Json => "json",
        Kind::Note => "note",
    }
}

/// The kind, place and length of the first record, and its payload or why there is none.
pub fn headed(alloc: Global, digits: &str) -> Result<Answer, Trouble> {
    let octets = octets_of(alloc, digits)?;
    let mut reader = BundleReader::new(SureSource::new(octets.as_slice()));
    let Ok(Some(head)) = reader.next_head() else {
        return Ok(Answer::Word("no head"));
    };
    let kind = kind_word(head.kind);
    let payload = match reader.payload(alloc) {
        Ok(payload) => hex::encode(alloc, payload.octets())?,
        Err(fault) => format!(in alloc; "{fault:?}")?,
    };
    Ok(Answer::Text(format!(in alloc; "{kind} at {} length {}: {payload}", head.at, head.length)?))
}

/// What becomes of the value under a key.
fn put_under(
    alloc: Global,
    cache: &mut Instances,
    key: &str,
    case: &Case<'_>,
) -> Result<&'static str, Trouble> {
    let value = given_value(alloc, case)?;
    match cache.put(
        Text::from_octets(alloc, key.as_bytes())?,
        Box::into_inner(value),
    ) {
        Ok(()) => Ok("taken "),
        Err(PutFault::Full) => Ok("full "),
        Err(PutFault::OutOfMemory) => Err(Trouble::OutOfMemory),
    }
}

/// What becomes of the value under one key after another, where there may be so many keys and one value of each.
pub fn put_each(alloc: Global, words: &str, case: &Case<'_>) -> Result<Answer, Trouble> {
    let (most, keys) = words.split_once(' ').unwrap_or((words, ""));
    let Ok(most) = most.parse::<u32>() else {
        return Err(Trouble::Words);
    };
    if most == 0 || MOST_KEYS < most {
        return Err(Trouble::Words);
    }
    let mut cache = Instances::new(alloc, 1, most)?;
    let mut told = String::new(alloc);
    for key in keys.split_whitespace() {
        told.push_str(put_under(alloc, &mut cache, key, case)?)?;
    }
    Ok(Answer::Text(String::from_str(alloc, told.as_str().trim_end())?))
}
