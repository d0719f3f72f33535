//! A case: the words and the input of a run, and the output and the status that are wanted.

use crate::faults::{Fault, FaultKind, FaultyRuns, Places, is_behind_all, is_owed, outcome_at};
use crate::nets::Outside;
use crate::outcomes::Outcome;
use crate::records::append;
use crate::trouble::Trouble;
use std::alloc::Global;
use xt_lists::{Row, Text, Word};

/// The words, the input and the net of a run, and what is wanted of it, also where something goes wrong. Where it is told how many octets
/// the source gives or the sink takes in a call, it is run so alone.
pub struct Case {
    pub name: String,
    pub words: Row<Word>,
    pub input: Text,
    pub net: Outside,
    pub source: Option<usize>,
    pub sink: Option<usize>,
    pub outcome: Outcome,
    pub faulty: Row<FaultyRuns>,
}

// By hand, so that it is one step wherever one is let go.
impl Drop for Case {
    fn drop(self) {
        let Case {
            name: _,
            words: _,
            input: _,
            net: _,
            source: _,
            sink: _,
            outcome: _,
            faulty: _,
        } = self;
    }
}

/// The parts of a case. What stands before its first line is a part too.
#[derive(Clone, Copy, PartialEq, Eq)]
enum Part {
    Front,
    Name,
    Words,
    Input,
    Net,
    Width,
    Output,
    Taken,
    Status,
    Places,
}

/// The part that a line of this word is of. A word that isn't known is found out where its record is made.
fn part_of(word: &str) -> Part {
    match word {
        "case" => Part::Name,
        "words" => Part::Words,
        "link" | "door" | "turn" | "net-fails" => Part::Net,
        "source" | "sink" => Part::Width,
        "line" | "line-escaped" | "out" => Part::Output,
        "sent" | "held" => Part::Taken,
        "status" => Part::Status,
        "cut" | "source-fails" | "sink-fails" | "link-fails" => Part::Places,
        _ => Part::Input,
    }
}

/// Whether only the words, the input and the net stand before.
fn is_given(before: Part) -> bool {
    matches!(before, Part::Words | Part::Input | Part::Net)
}

/// Whether an outcome may begin behind this part.
fn is_before_outcome(before: Part) -> bool {
    is_given(before) || matches!(before, Part::Width | Part::Places)
}

/// Whether a line of the next part may stand behind one of the part before.
fn may_follow(before: Part, next: Part) -> bool {
    match next {
        Part::Front => false,
        Part::Name => before == Part::Front,
        Part::Words => before == Part::Name,
        Part::Input => matches!(before, Part::Words | Part::Input),
        Part::Net => is_given(before),
        Part::Width => is_given(before) || before == Part::Width,
        Part::Output => is_before_outcome(before) || before == Part::Output,
        Part::Taken | Part::Status => {
            is_before_outcome(before) || matches!(before, Part::Output | Part::Taken)
        }
        Part::Places => before == Part::Status,
    }
}

impl Case {
    fn new(alloc: Global) -> Case {
        Case {
            name: String::new(alloc),
            words: Row::new(alloc),
            input: Text::new(alloc),
            net: Outside::new(alloc),
            source: None,
            sink: None,
            outcome: Outcome::new(alloc),
            faulty: Row::new(alloc),
        }
    }

    /// The case of a run of lines, or None where they are comments alone.
    pub fn parse(alloc: Global, block: &str) -> Result<Option<Box<Case>>, Trouble> {
        let mut case = Box::new(alloc, Case::new(alloc))?;
        let mut part = Part::Front;
        for line in block.lines() {
            if line.is_empty() || line.starts_with("#") {
                continue;
            }
            part = match case.take(alloc, part, line)? {
                Some(next) => next,
                None => return Err(Trouble::Line(String::from_str(alloc, line)?)),
            };
        }
        match part {
            Part::Front => Ok(None),
            Part::Status => Ok(Some(case)),
            _ => Err(Trouble::Unfinished(String::from_str(alloc, case.name.as_str())?)),
        }
    }

    /// Takes a line that comes behind this part, and tells which part it is of. None where it is no line that may stand there.
    fn take(&mut self, alloc: Global, before: Part, line: &str) -> Result<Option<Part>, Trouble> {
        let (word, text) = line.split_once(' ').unwrap_or((line, ""));
        let part = part_of(word);
        if !may_follow(before, part) {
            return Ok(None);
        }
        let taken = match part {
            Part::Front => false,
            Part::Name => self.take_name(alloc, text)?,
            Part::Words => self.take_words(alloc, text)?,
            Part::Input => append(alloc, &mut self.input, word, text)?,
            Part::Net => self.net.take(alloc, word, text)?,
            Part::Width => self.take_width(word, text),
            Part::Output | Part::Taken | Part::Status => self.take_outcome(alloc, word, text)?,
            Part::Places => self.take_places(alloc, word, text)?,
        };
        Ok(if taken { Some(part) } else { None })
    }

    fn take_name(&mut self, alloc: Global, text: &str) -> Result<bool, Trouble> {
        self.name = String::from_str(alloc, text)?;
        Ok(!text.is_empty())
    }

    fn take_words(&mut self, alloc: Global, text: &str) -> Result<bool, Trouble> {
        for word in text.split_whitespace() {
            self.words.push(Word::from_octets(alloc, word.as_bytes())?)?;
        }
        Ok(true)
    }

    fn take_width(&mut self, word: &str, text: &str) -> bool {
        let width = text.parse::<usize>().ok();
        if word == "source" {
            self.source = width;
        } else {
            self.sink = width;
        }
        width.is_some()
    }

    /// Takes a line of the outcome that was begun last.
    fn take_outcome(&mut self, alloc: Global, word: &str, text: &str) -> Result<bool, Trouble> {
        match self.faulty.items().last_mut() {
            Some(faulty) => faulty.outcome.take(alloc, word, text),
            None => self.outcome.take(alloc, word, text),
        }
    }

    /// Begins the outcome of the runs in which something goes wrong at these places, which are behind all others of their kind. Where a call
    /// of a link fails by the case itself, no others fail in turn.
    fn take_places(&mut self, alloc: Global, word: &str, text: &str) -> Result<bool, Trouble> {
        let (Some(kind), Some(places)) = (FaultKind::parse(word), Places::parse(text)) else {
            return Ok(false);
        };
        if !is_behind_all(self.faulty.as_slice(), kind, places) {
            return Ok(false);
        }
        if kind == FaultKind::Link && self.net.has_failing_link() {
            return Ok(false);
        }
        let outcome = Outcome::new(alloc);
        self.faulty.push(FaultyRuns {
            kind,
            places,
            outcome,
        })?;
        Ok(true)
    }

    /// The octets of the input that a run with this fault is given.
    pub fn input_under(&self, fault: Option<Fault>) -> &[u8] {
        let octets = self.input.octets();
        match Fault::call(fault, FaultKind::Cut) {
            Some(place) => &octets[..octets.len().min(place as usize)],
            None => octets,
        }
    }

    /// What is wanted of a run with this fault: what is told of its place if it came about, and else the outcome without a fault. None where
    /// nothing is told of a fault that came about, or where one had to that did not.
    pub fn wanted(&self, fault: Option<Fault>, came_about: bool) -> Option<&Outcome> {
        match fault {
            None => Some(&self.outcome),
            Some(fault) if came_about => outcome_at(self.faulty.as_slice(), fault),
            Some(fault) if is_owed(self.faulty.as_slice(), fault) => None,
            Some(_) => Some(&self.outcome),
        }
    }
}
