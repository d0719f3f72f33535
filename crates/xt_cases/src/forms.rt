//! How lines give octets, and parts of a line that stand for many octets.

use crate::escapes::unescaped;
use crate::trouble::Trouble;
use std::alloc::Global;
use xt_lists::Text;

/// The most octets that a line gives where a part of it is repeated.
const MOST_OCTETS: usize = 16_777_216;

/// How a line gives octets.
#[derive(Clone, Copy)]
pub enum Form {
    /// As they stand.
    Plain,
    /// As a text with escapes.
    Escaped,
    Hexadecimal,
}

impl Form {
    /// What begins a part that is repeated, if there may be one.
    fn opening(self) -> Option<&'static str> {
        match self {
            Form::Plain => None,
            Form::Escaped => Some("\\("),
            Form::Hexadecimal => Some("("),
        }
    }

    /// The octets of a text without repeated parts. None where it has not this form.
    fn read_once(self, alloc: Global, text: &str) -> Result<Option<Text>, Trouble> {
        match self {
            Form::Plain => Ok(Some(Text::from_octets(alloc, text.as_bytes())?)),
            Form::Escaped => Ok(unescaped(alloc, text)?),
            Form::Hexadecimal => match hex::decode(alloc, text) {
                Ok(octets) => Ok(Some(Text::from_vec(octets))),
                Err(_) => Ok(None),
            },
        }
    }

    /// The octets that a text gives. None where it has not this form, or a repeated part gives too many.
    pub fn read(self, alloc: Global, text: &str) -> Result<Option<Text>, Trouble> {
        let Some(opening) = self.opening() else {
            return self.read_once(alloc, text);
        };
        let Some((front, parts)) = text.split_once(opening) else {
            return self.read_once(alloc, text);
        };
        let Some(mut octets) = self.read_once(alloc, front)? else {
            return Ok(None);
        };
        for part in parts.split(opening) {
            if !self.append_part(alloc, &mut octets, part)? {
                return Ok(None);
            }
        }
        Ok(Some(octets))
    }

    /// Appends what stands behind an opening, up to the next: `COUNT*TEXT)`, and a text that comes once. False where it is not so.
    fn append_part(self, alloc: Global, into: &mut Text, part: &str) -> Result<bool, Trouble> {
        let Some((repeated, behind)) = part.split_once(')') else {
            return Ok(false);
        };
        let Some((count, text)) = repeated.split_once('*') else {
            return Ok(false);
        };
        let (Ok(count), Some(octets), Some(behind)) = (
            count.parse::<usize>(),
            self.read_once(alloc, text)?,
            self.read_once(alloc, behind)?,
        ) else {
            return Ok(false);
        };
        if !has_room(into, count, octets.len()) {
            return Ok(false);
        }
        for turn in 0..count {
            into.append(octets.octets())?;
        }
        into.append(behind.octets())?;
        Ok(true)
    }
}

/// Whether there are octets to be repeated, and no more than a line may give.
fn has_room(into: &Text, count: usize, size: usize) -> bool {
    match size.checked_mul(count) {
        Some(more) => size > 0 && more <= MOST_OCTETS.saturating_sub(into.len()),
        None => false,
    }
}
