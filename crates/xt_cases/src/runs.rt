//! A case run over a source and a sink in memory, of several widths, and with each fault that it tells of.

use crate::cases::Case;
use crate::faults::{Fault, FaultKind, has_kind, list_of};
use crate::nets::{Links, has_failed_link, held_by, sent_over};
use crate::outcomes::{Difference, Outcome};
use crate::trouble::Trouble;
use std::alloc::Global;
use std::thread::Threads;
use xt_io::{MemNet, MemSink, MemSource};
use xt_tool::xt;

/// A width that no case reaches.
const ALL: usize = usize::MAX;

/// The most octets that the source gives in a read, and that the sink takes in a write.
#[derive(Clone, Copy)]
struct Widths {
    read: usize,
    write: usize,
}

const WIDTHS: [Widths; 6] = [
    Widths { read: 1, write: 1 },
    Widths {
        read: 2,
        write: ALL,
    },
    Widths { read: 3, write: 1 },
    Widths {
        read: 7,
        write: ALL,
    },
    Widths {
        read: ALL,
        write: 1,
    },
    Widths {
        read: ALL,
        write: ALL,
    },
];

/// A run of a case: its widths, and what goes wrong in it.
#[derive(Clone, Copy)]
struct Run<'c> {
    case: &'c Case,
    widths: Widths,
    fault: Option<Fault>,
}

/// Which run of a case ended otherwise than was wanted, and how.
#[derive(Drop)]
pub struct Failure {
    pub run: String,
    pub difference: Difference,
}

/// How a run ended. A fault may not have come about, as there was no such octet or call.
#[derive(Drop)]
struct Ran {
    failure: Option<Failure>,
    came_about: bool,
}

/// The first failure of a case, over the widths that it tells, or else over all.
pub fn first_failure<R: Threads + Sync>(
    rt: &R,
    alloc: Global,
    case: &Case,
) -> Result<Option<Failure>, Trouble> {
    if case.source.is_some() || case.sink.is_some() {
        let read = case.source.unwrap_or(ALL);
        let write = case.sink.unwrap_or(ALL);
        return run_over(rt, alloc, case, Widths { read, write });
    }
    for widths in WIDTHS {
        let failure = run_over(rt, alloc, case, widths)?;
        if failure.is_some() {
            return Ok(failure);
        }
    }
    Ok(None)
}

/// The first failure at these widths, without a fault or with one.
fn run_over<R: Threads + Sync>(
    rt: &R,
    alloc: Global,
    case: &Case,
    widths: Widths,
) -> Result<Option<Failure>, Trouble> {
    let fault = None;
    let run = Run {
        case,
        widths,
        fault,
    };
    let ran = run.end(rt, alloc)?;
    if ran.failure.is_some() {
        return Ok(ran.failure);
    }
    for kind in FaultKind::ALL {
        let failure = run_faults(rt, alloc, run, kind)?;
        if failure.is_some() {
            return Ok(failure);
        }
    }
    Ok(None)
}

/// The first failure with a fault of this kind, where the case tells of any: at each place in turn, up to the first that there is not.
fn run_faults<R: Threads + Sync>(
    rt: &R,
    alloc: Global,
    run: Run<'_>,
    kind: FaultKind,
) -> Result<Option<Failure>, Trouble> {
    if !has_kind(run.case.faulty.as_slice(), kind) {
        return Ok(None);
    }
    for place in kind.first_place()..u64::MAX {
        let fault = Some(Fault { kind, place });
        let ran = Run { fault, ..run }.end(rt, alloc)?;
        if ran.failure.is_some() || !ran.came_about {
            return Ok(ran.failure);
        }
    }
    Ok(None)
}

impl<'c> Run<'c> {
    /// Runs the case, and compares how it ended with what is wanted.
    fn end<R: Threads + Sync>(self, rt: &R, alloc: Global) -> Result<Ran, Trouble> {
        let reads = list_of(alloc, &[Fault::call(self.fault, FaultKind::Source)])?;
        let writes = list_of(alloc, &[Fault::call(self.fault, FaultKind::Sink)])?;
        let mut net = self.case.net.net(alloc, self.links())?;
        self.end_over(rt, alloc, reads.as_slice(), writes.as_slice(), &mut net)
    }

    /// Runs the case over a source and a sink that fail at these calls, and over a net.
    fn end_over<R: Threads + Sync>(
        self,
        rt: &R,
        alloc: Global,
        reads: &[u64],
        writes: &[u64],
        net: &mut MemNet,
    ) -> Result<Ran, Trouble> {
        let given = self.case.input_under(self.fault);
        let mut input = MemSource::new(given, self.widths.read, reads);
        let mut output = MemSink::new(alloc, self.widths.write, writes);
        let words = self.case.words.as_slice();
        let status = xt(rt, alloc, words, &mut input, &mut output, net) as u8;
        let came_about = self.came_about(&input, &output, net);
        let came = outcome_of(alloc, status, output.octets(), net)?;
        let failure = self.failure(alloc, &came, came_about)?;
        Ok(Ran {
            failure,
            came_about,
        })
    }

    fn links(self) -> Links {
        Links {
            most: self.widths.read,
            fails: Fault::call(self.fault, FaultKind::Link),
        }
    }

    /// Whether the fault came about.
    fn came_about(self, input: &MemSource<'_>, output: &MemSink<'_>, net: &MemNet) -> bool {
        let Some(fault) = self.fault else {
            return false;
        };
        match fault.kind {
            FaultKind::Cut => self.case.input_under(self.fault).len() < self.case.input.len(),
            FaultKind::Source => input.faults() > 0,
            FaultKind::Sink => output.faults() > 0,
            FaultKind::Link => has_failed_link(net),
        }
    }

    /// What is wrong with the outcome that came.
    fn failure(
        self,
        alloc: Global,
        came: &Outcome,
        came_about: bool,
    ) -> Result<Option<Failure>, Trouble> {
        let difference = match self.case.wanted(self.fault, came_about) {
            Some(wanted) => wanted.difference(alloc, came)?,
            None => Some(other_place(alloc, came_about)?),
        };
        let Some(difference) = difference else {
            return Ok(None);
        };
        let run = self.told(alloc)?;
        Ok(Some(Failure { run, difference }))
    }

    /// The run in print.
    fn told(self, alloc: Global) -> Result<String, Trouble> {
        let read = width_told(alloc, self.widths.read)?;
        let write = width_told(alloc, self.widths.write)?;
        let told = format!(in alloc; "source {read}, sink {write}")?;
        let Some(fault) = self.fault else {
            return Ok(told);
        };
        let word = fault.kind.word();
        Ok(format!(in alloc; "{told}, {word} {}", fault.place)?)
    }
}

/// How a run ended with this status and output.
fn outcome_of(
    alloc: Global,
    status: u8,
    output: &[u8],
    net: &MemNet,
) -> Result<Box<Outcome>, Trouble> {
    let mut came = Box::new(alloc, Outcome::new(alloc))?;
    came.output.append(output)?;
    came.sent = sent_over(alloc, net)?;
    came.held = held_by(alloc, net)?;
    came.connections = net.connections();
    came.status = status;
    Ok(came)
}

/// A place of which nothing is told, or of which something is though there is none.
fn other_place(alloc: Global, came_about: bool) -> Result<Difference, Trouble> {
    let (wanted, came) = if came_about {
        ("nothing told of this place", "a run at it")
    } else {
        ("this place", "a run that ends before it")
    };
    Ok(Difference {
        wanted: String::from_str(alloc, wanted)?,
        came: String::from_str(alloc, came)?,
    })
}

fn width_told(alloc: Global, width: usize) -> Result<String, Trouble> {
    if width == ALL {
        return Ok(String::from_str(alloc, "all")?);
    }
    Ok(format!(in alloc; "{width}")?)
}
