//! Runs the whole program over cases that are read from standard input. It prints those that fail, each with what was wanted and what came,
//! and at last how many there were and how many of them failed. `stdin` has the cases, and says how they are written.
#![tactic(auto)]

mod cases;
mod escapes;
mod faults;
mod forms;
mod nets;
mod outcomes;
mod records;
mod runs;
mod trouble;

use cases::Case;
use runs::{Failure, first_failure};
use std::alloc::Global;
use std::io;
use std::process::ExitCode;
use std::thread::Threads;
use trouble::Trouble;

fn report(rt: &impl Print, name: &str, failure: &Failure) -> io::Result<()> {
    println!(rt; "failed {name}: {}", failure.run)?;
    println!(rt; "  wanted: {}", failure.difference.wanted)?;
    println!(rt; "  came:   {}", failure.difference.came)
}

/// Runs the cases of a text, one after another. An empty line ends a case.
fn run_all<R: Print + Threads + Sync>(rt: &R, alloc: Global, text: &str) -> Result<(), Trouble> {
    let (mut cases, mut failed) = (0u64, 0u64);
    for block in text.split("\n\n") {
        let Some(case) = Case::parse(alloc, block)? else {
            continue;
        };
        cases = cases.saturating_add(1);
        if let Some(failure) = first_failure(rt, alloc, &case)? {
            failed = failed.saturating_add(1);
            report(rt, case.name.as_str(), &failure)?;
        }
    }
    println!(rt; "{cases} cases, {failed} failed")?;
    Ok(())
}

fn main(rt: HostRuntime) -> ExitCode {
    let ended = match io::read_to_string(rt.alloc(), rt.reader()) {
        Ok(text) => run_all(&rt, rt.alloc(), text.as_str()),
        Err(error) => Err(Trouble::from(error)),
    };
    match ended {
        Ok(()) => ExitCode::SUCCESS,
        Err(trouble) => {
            let _ = eprintln!(rt; "{trouble}");
            ExitCode::FAILURE
        }
    }
}
