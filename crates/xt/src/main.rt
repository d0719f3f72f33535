//! Types, samples and JSON values of DDS-XTypes on the command line: a bundle on standard input, lines or records on standard
//! output.
#![tactic(auto)]

use std::alloc::Global;
use std::env;
use std::io::{BufReader, ErrorKind};
use std::process::ExitCode;
use std::rt::Env;
use xt_io::{ReadSource, TcpNet, WriteSink};
use xt_lists::{OutOfMemory, Row, Word};
use xt_tool::{Status, xt};

// The octets of standard input that are read in one call.
const BLOCK: usize = 65_536;

// The words behind the program's name. Arguments that are no UTF-8 are no words.
fn words_of(rt: &(impl Env + AllocGlobal)) -> Result<Row<Word>, OutOfMemory> {
    let alloc = rt.alloc();
    let mut words = Row::new(alloc);
    match env::args(rt) {
        Ok(given) => {
            for word in given.skip(1) {
                words.push(Word::from_octets(alloc, word.as_bytes())?)?;
            }
        }
        Err(error) if error.kind() == ErrorKind::OutOfMemory => return Err(OutOfMemory),
        Err(_) => {}
    }
    Ok(words)
}

fn main(rt: HostRuntime) -> ExitCode {
    let Ok(words) = words_of(&rt) else {
        return ExitCode::from(Status::OutOfMemory as u8);
    };
    let Ok(stdin) = BufReader::with_capacity(rt.alloc(), BLOCK, rt.stdin()) else {
        return ExitCode::from(Status::OutOfMemory as u8);
    };
    let mut input = ReadSource::new(stdin);
    let mut output = WriteSink::new(rt.stdout());
    let mut net = TcpNet::new(&rt);
    let status = xt(
        &rt,
        rt.alloc(),
        words.as_slice(),
        &mut input,
        &mut output,
        &mut net,
    );
    ExitCode::from(status as u8)
}
