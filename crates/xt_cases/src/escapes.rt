//! Texts with escapes.

use std::alloc::Global;
use xt_lists::{OutOfMemory, Text};

/// The octets of a text with escapes: `\n`, `\t`, `\r`, `\\`, and `\x` with two hexadecimal digits. None where a backslash begins none of these.
pub fn unescaped(alloc: Global, text: &str) -> Result<Option<Text>, OutOfMemory> {
    let mut octets = Text::new(alloc);
    let mut is_plain = true;
    for part in text.split("\\") {
        if is_plain {
            octets.append(part.as_bytes())?;
            is_plain = false;
        } else if part.is_empty() {
            octets.push(b'\\')?;
            is_plain = true;
        } else if !append_escape(&mut octets, part.as_bytes())? {
            return Ok(None);
        }
    }
    Ok(if is_plain { None } else { Some(octets) })
}

/// Appends what stands behind a backslash, up to the next. False where it begins no escape.
fn append_escape(into: &mut Text, part: &[u8]) -> Result<bool, OutOfMemory> {
    let (octet, rest) = match part {
        [b'n', rest @ ..] => (Some(b'\n'), rest),
        [b't', rest @ ..] => (Some(b'\t'), rest),
        [b'r', rest @ ..] => (Some(b'\r'), rest),
        [b'x', high, low, rest @ ..] => (octet_of(*high, *low), rest),
        _ => (None, part),
    };
    let Some(octet) = octet else {
        return Ok(false);
    };
    into.push(octet)?;
    into.append(rest)?;
    Ok(true)
}

fn octet_of(high: u8, low: u8) -> Option<u8> {
    let digits = [high, low];
    let mut octets = [0u8];
    match hex::decode_to_slice(&digits[..], &mut octets) {
        Ok(()) => Some(octets[0]),
        Err(_) => None,
    }
}
