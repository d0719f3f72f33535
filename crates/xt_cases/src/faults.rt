//! What goes wrong in a run, at one place after another.

use crate::outcomes::Outcome;
use std::alloc::Global;
use xt_lists::{OutOfMemory, Row};

/// What can go wrong in a run.
#[derive(Clone, Copy, PartialEq, Eq)]
pub enum FaultKind {
    /// The input ends behind so many octets.
    Cut,
    /// The source's call of this number fails.
    Source,
    /// The sink's call of this number fails.
    Sink,
    /// Each link's call of this number fails.
    Link,
}

impl FaultKind {
    pub const ALL: [FaultKind; 4] = [
        FaultKind::Cut,
        FaultKind::Source,
        FaultKind::Sink,
        FaultKind::Link,
    ];

    /// The kind of the places that a word begins.
    pub fn parse(word: &str) -> Option<FaultKind> {
        match word {
            "cut" => Some(FaultKind::Cut),
            "source-fails" => Some(FaultKind::Source),
            "sink-fails" => Some(FaultKind::Sink),
            "link-fails" => Some(FaultKind::Link),
            _ => None,
        }
    }

    pub fn word(self) -> &'static str {
        match self {
            FaultKind::Cut => "cut",
            FaultKind::Source => "source-fails",
            FaultKind::Sink => "sink-fails",
            FaultKind::Link => "link-fails",
        }
    }

    /// An input may be cut before its first octet. Calls are counted from 1.
    pub fn first_place(self) -> u64 {
        match self {
            FaultKind::Cut => 0,
            FaultKind::Source | FaultKind::Sink | FaultKind::Link => 1,
        }
    }
}

/// What goes wrong in a run: the number of octets that are left of the input, or of the call that fails.
#[derive(Clone, Copy)]
pub struct Fault {
    pub kind: FaultKind,
    pub place: u64,
}

impl Fault {
    /// The call that fails by a fault of this kind.
    pub fn call(fault: Option<Fault>, kind: FaultKind) -> Option<u64> {
        match fault {
            Some(fault) if fault.kind == kind => Some(fault.place),
            _ => None,
        }
    }
}

/// The list of calls, as far as there are any.
pub fn list_of(alloc: Global, calls: &[Option<u64>]) -> Result<Row<u64>, OutOfMemory> {
    let mut list = Row::new(alloc);
    for call in calls {
        if let Some(number) = *call {
            list.push(number)?;
        }
    }
    Ok(list)
}

/// Places from the first to the last, or to the end of the run.
#[derive(Clone, Copy)]
pub struct Places {
    pub first: u64,
    pub last: Option<u64>,
}

impl Places {
    /// `FIRST`, `FIRST-LAST` or `FIRST-`
    pub fn parse(text: &str) -> Option<Places> {
        let (first, last) = text.split_once('-').unwrap_or((text, text));
        let first = first.parse::<u64>().ok()?;
        if last.is_empty() {
            return Some(Places { first, last: None });
        }
        let last = last.parse::<u64>().ok()?;
        let last = Some(last);
        Some(Places { first, last })
    }

    fn contains(self, place: u64) -> bool {
        self.first <= place && self.last.is_none_or(|last| place <= last)
    }

    /// Whether this place or a later one is told to be there. Those from a first on may be none.
    fn reaches(self, place: u64) -> bool {
        match self.last {
            Some(last) => last >= place,
            None => self.first > place,
        }
    }

    /// Whether these places end before the others begin.
    fn is_before(self, others: Places) -> bool {
        self.last.is_some_and(|last| last < others.first)
    }
}

/// What is wanted where something goes wrong at these places.
#[derive(Drop)]
pub struct FaultyRuns {
    pub kind: FaultKind,
    pub places: Places,
    pub outcome: Outcome,
}

/// What is wanted of the run with this fault.
pub fn outcome_at(runs: &[FaultyRuns], fault: Fault) -> Option<&Outcome> {
    for faulty in runs {
        if faulty.kind == fault.kind && faulty.places.contains(fault.place) {
            return Some(&faulty.outcome);
        }
    }
    None
}

/// Whether this place or a later one has to be there: it is the first of its kind, or is told to be there.
pub fn is_owed(runs: &[FaultyRuns], fault: Fault) -> bool {
    for faulty in runs {
        if faulty.kind == fault.kind && faulty.places.reaches(fault.place) {
            return true;
        }
    }
    fault.place == fault.kind.first_place()
}

/// Whether any places of this kind are told.
pub fn has_kind(runs: &[FaultyRuns], kind: FaultKind) -> bool {
    for faulty in runs {
        if faulty.kind == kind {
            return true;
        }
    }
    false
}

/// Whether the places are behind all that are told of this kind.
pub fn is_behind_all(runs: &[FaultyRuns], kind: FaultKind, places: Places) -> bool {
    for faulty in runs {
        if faulty.kind == kind && !faulty.places.is_before(places) {
            return false;
        }
    }
    true
}
