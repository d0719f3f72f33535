//! Runs the public calls over cases that are read from standard input, and prints a line for each case: `ok` and its name, or what
//! came where something else was wanted. Types are IDL texts and values are JSON. `stdin` has the cases, and says how they are written.
#![tactic(auto)]

mod answers;
mod calls;
mod cases;
mod parts;
mod plain;
mod samples;
mod trouble;
mod values;
mod writing;

use calls::answer;
use cases::Case;
use std::alloc::{AllocError, Global};
use std::io;

/// What is wrong with a case, if anything, once all its lines were run.
type Verdict = Option<String>;

/// Runs the call of a line `CALL = WANTED`, and tells what came in place of what was wanted.
fn run_line(
    alloc: Global,
    case: &Case<'_>,
    call: &str,
    wanted: &str,
) -> Result<Verdict, AllocError> {
    match answer(alloc, call, case) {
        Ok(answer) => compared(alloc, call, answer.as_str(), wanted),
        Err(trouble) => {
            let told = format!(in alloc; "{trouble}")?;
            compared(alloc, call, told.as_str(), wanted)
        }
    }
}

fn compared(alloc: Global, call: &str, came: &str, wanted: &str) -> Result<Verdict, AllocError> {
    if came == wanted {
        return Ok(None);
    }
    Ok(Some(format!(in alloc; "{call}: {came}, not {wanted}")?))
}

fn report(rt: &impl Print, name: &str, verdict: &Verdict) -> io::Result<()> {
    match verdict {
        None => println!(rt; "ok {name}"),
        Some(wrong) => println!(rt; "{name}: {wrong}"),
    }
}

/// Runs the cases of a text, one after another.
fn run(rt: &impl Print, alloc: Global, text: &str) -> io::Result<()> {
    let mut case = Case::new();
    let mut verdict = None;
    for line in text.lines() {
        if let Some(name) = line.strip_prefix("case ") {
            if !case.name.is_empty() {
                report(rt, case.name, &verdict)?;
            }
            case = Case::named(name);
            verdict = None;
            continue;
        }
        if case.takes(line) || verdict.is_some() {
            continue;
        }
        verdict = match line.split_once(" = ") {
            Some((call, wanted)) => run_line(alloc, &case, call, wanted)?,
            None => Some(format!(in alloc; "no line of a case: {line}")?),
        };
    }
    if case.name.is_empty() {
        return Ok(());
    }
    report(rt, case.name, &verdict)
}

fn main(rt: HostRuntime) -> io::Result<()> {
    let text = io::read_to_string(rt.alloc(), rt.reader())?;
    run(&rt, rt.alloc(), text.as_str())
}
