//! What is wanted of a run, and how what came differs from it.

use crate::forms::Form;
use crate::records::{append, append_line};
use crate::trouble::Trouble;
use std::alloc::Global;
use xt_lists::{Row, Text};

/// The most octets that are told, and how many of them may stand before the first that differs.
const MOST_TOLD: usize = 160;

const MOST_BEFORE: usize = 60;

/// How a run ends: its output and its exit status, and where it is told, what the client's link took, and what each link of a door took,
/// door by door. A client connects once at most, whatever comes.
pub struct Outcome {
    pub output: Text,
    pub sent: Option<Text>,
    pub held: Row<Text>,
    pub connections: u64,
    pub status: u8,
}

// By hand, so that it is one step wherever one is let go.
impl Drop for Outcome {
    fn drop(self) {
        let Outcome {
            output: _,
            sent: _,
            held: _,
            connections: _,
            status: _,
        } = self;
    }
}

/// What was wanted and what came, in print.
#[derive(Drop)]
pub struct Difference {
    pub wanted: String,
    pub came: String,
}

impl Outcome {
    pub fn new(alloc: Global) -> Outcome {
        Outcome {
            output: Text::new(alloc),
            sent: None,
            held: Row::new(alloc),
            connections: 0,
            status: 0,
        }
    }

    /// Takes a line of an outcome. False where it is none.
    pub fn take(&mut self, alloc: Global, word: &str, text: &str) -> Result<bool, Trouble> {
        match word {
            "line" | "line-escaped" => append_line(alloc, &mut self.output, word, text),
            "out" => {
                let (word, text) = text.split_once(' ').unwrap_or((text, ""));
                append(alloc, &mut self.output, word, text)
            }
            "sent" => {
                self.sent = Form::Hexadecimal.read(alloc, text)?;
                Ok(self.sent.is_some())
            }
            "held" => self.take_held(alloc, text),
            _ => Ok(self.take_status(text)),
        }
    }

    fn take_held(&mut self, alloc: Global, text: &str) -> Result<bool, Trouble> {
        let Some(octets) = Form::Hexadecimal.read(alloc, text)? else {
            return Ok(false);
        };
        self.held.push(octets)?;
        Ok(true)
    }

    fn take_status(&mut self, text: &str) -> bool {
        match text.parse::<u8>() {
            Ok(status) => {
                self.status = status;
                true
            }
            Err(_) => false,
        }
    }

    /// How the outcome that came differs from this one, which is wanted.
    pub fn difference(&self, alloc: Global, came: &Outcome) -> Result<Option<Difference>, Trouble> {
        if came.connections > 1 {
            return Ok(Some(other_connections(alloc, came.connections)?));
        }
        if self.status != came.status || self.output.octets() != came.output.octets() {
            return Ok(Some(self.other_output(alloc, came)?));
        }
        if let Some(sent) = &self.sent {
            let difference = other_sent(alloc, sent, came.sent.as_ref())?;
            if difference.is_some() {
                return Ok(difference);
            }
        }
        if self.held.as_slice().is_empty() {
            return Ok(None);
        }
        other_held(alloc, self.held.as_slice(), came.held.as_slice())
    }

    fn other_output(&self, alloc: Global, came: &Outcome) -> Result<Difference, Trouble> {
        let told = other_octets(alloc, "output", self.output.octets(), came.output.octets())?;
        let (wanted, other) = (told.wanted, told.came);
        Ok(Difference {
            wanted: format!(in alloc; "status {}, {wanted}", self.status)?,
            came: format!(in alloc; "status {}, {other}", came.status)?,
        })
    }
}

fn other_connections(alloc: Global, came: u64) -> Result<Difference, Trouble> {
    Ok(Difference {
        wanted: String::from_str(alloc, "one connection at most")?,
        came: format!(in alloc; "{came}")?,
    })
}

fn other_sent(
    alloc: Global,
    wanted: &Text,
    came: Option<&Text>,
) -> Result<Option<Difference>, Trouble> {
    let Some(came) = came else {
        return Ok(Some(Difference {
            wanted: String::from_str(alloc, "a link")?,
            came: String::from_str(alloc, "none")?,
        }));
    };
    if came.octets() == wanted.octets() {
        return Ok(None);
    }
    let told = other_octets(alloc, "sent", wanted.octets(), came.octets())?;
    Ok(Some(told))
}

fn other_held(
    alloc: Global,
    wanted: &[Text],
    came: &[Text],
) -> Result<Option<Difference>, Trouble> {
    if wanted.len() != came.len() {
        return Ok(Some(Difference {
            wanted: format!(in alloc; "{} links held", wanted.len())?,
            came: format!(in alloc; "{}", came.len())?,
        }));
    }
    for (wanted, came) in wanted.iter().zip(came.iter()) {
        if wanted.octets() != came.octets() {
            let told = other_octets(alloc, "held", wanted.octets(), came.octets())?;
            return Ok(Some(told));
        }
    }
    Ok(None)
}

/// Tells the octets from a little before the first that differs.
fn other_octets(
    alloc: Global,
    what: &str,
    wanted: &[u8],
    came: &[u8],
) -> Result<Difference, Trouble> {
    let from = first_difference(came, wanted).saturating_sub(MOST_BEFORE);
    let wanted = text_told(alloc, wanted, from)?;
    let came = text_told(alloc, came, from)?;
    Ok(Difference {
        wanted: format!(in alloc; "{what} from {from} `{wanted}`")?,
        came: format!(in alloc; "{what} from {from} `{came}`")?,
    })
}

/// How many first octets are the same.
fn first_difference(given: &[u8], wanted: &[u8]) -> usize {
    let mut at = 0usize;
    for (given, wanted) in given.iter().zip(wanted.iter()) {
        if *given != *wanted {
            return at;
        }
        at = at.saturating_add(1);
    }
    at
}

/// Some octets in print, from this place on.
fn text_told(alloc: Global, octets: &[u8], from: usize) -> Result<String, Trouble> {
    let mut text = String::new(alloc);
    for octet in octets.iter().skip(from).take(MOST_TOLD) {
        match *octet {
            b'\n' => text.push_str("\\n")?,
            b' '..=b'~' => text.push(char::from(*octet))?,
            other => write!(text, "\\x{other:02x}")?,
        }
    }
    Ok(text)
}
