ghost use Rattle.std.specs.Prelude.{◌≡◌, ◌≤◌, ◌+◌, None, IfErr, IfOk, length};
ghost use Rattle.tool_runs.specs.output.Runs.{MayGo, StopsBundle, StopsReading, turns_left};
ghost use Rattle.tool_runs.specs.front.Fronts as spec;
ghost use Rattle.tool_runs.specs.front.Reading.{AreWithin, FrontIs};

use crate::output::{Halt, Next, Stop, next_of, payload_of, refuse_bundle, refuse_fault};
use std::alloc::Global;
use xt_io::{BundleReader, Item, Kind, RecordFault, Source};
use xt_lists::Row;

const MOST_OCTETS: u64 = 67_108_864;

/// The records of a front, and what begins the body.
#[derive(Debug, Drop)]
pub struct Front {
    pub records: Row<Item>,
    pub next: Next,
}

fn is_front(kind: Kind) -> bool
    ensures { result ≡ spec.is_front kind }
{
    match kind {
        Kind::Object | Kind::Idl => true,
        Kind::Sample | Kind::Json | Kind::Note => false,
    }
}

fn begins_body(fault: RecordFault) -> bool
    ensures { result ≡ spec.begins_body fault }
{
    match fault {
        RecordFault::Truncated { kind, .. } | RecordFault::TooLong { kind, .. } => !is_front(kind),
        RecordFault::UnknownKind { .. }
        | RecordFault::TooMany { .. }
        | RecordFault::ReadFault
        | RecordFault::OutOfMemory => false,
    }
}

/// Reads the front of a bundle: its leading records of types, whole. What follows them begins the body.
pub fn read_front<S: Source>(alloc: Global, reader: &mut BundleReader<S>) -> Result<Front, Stop>
    requires { reader.old.fault ≡ None }
    ensures front { FrontIs reader.old.ahead result reader.new }
    ensures within { IfOk result (λ front. AreWithin front.records) }
    ensures ready { IfOk result (λ front. MayGo front.next reader.new) }
    ensures cause { IfErr result StopsBundle }
    ensures few { IfOk result (λ front. length front.records + turns_left front.next reader.new.may_follow ≤ reader.old.may_follow) }
    ensures stops { StopsReading reader.old.faults reader.new.faults result }
    ensures same { reader.new.name ≡ reader.old.name }
{
    let mut records = Row::new(alloc);
    let mut total: u64 = 0;
    'records: loop {
        match next_of(reader)? {
            Next::Record(head) => {
                if !is_front(head.kind) {
                    let next = Next::Record(head);
                    return Ok(Front { records, next });
                }
                let payload = match payload_of(alloc, head, reader) {
                    Ok(payload) => payload,
                    Err(stop) => return Err(stop),
                };
                total += payload.len() as u64;
                if MOST_OCTETS < total {
                    return Err(refuse_bundle(alloc, head.at, b"too-long"));
                }
                records.push(Item {
                    kind: head.kind,
                    at: head.at,
                    payload,
                })?;
            }
            Next::Broken(fault) => {
                if begins_body(fault) {
                    let next = Next::Broken(fault);
                    return Ok(Front { records, next });
                }
                return Err(refuse_fault(alloc, fault));
            }
            Next::End => {
                let next = Next::End;
                return Ok(Front { records, next });
            }
        }
    }
}
