//! A cursor over a payload gives what a cursor over the same octets in memory gives, whatever way the source cuts them, and
//! stops where the source fails or its input ends.
use std::alloc::Global;
use std::test::Fail;
use xt_io::BundleReader;
use xt_lists::{OutOfMemory, Text};
use xt_outside::{Kind, MemSource, RecordFault, Source};
use xt_wire::cursor::{Cursor, CutFault, SliceCursor};
use xt_wire::streams::StreamCursor;

// A record of 16 octets, and one behind it.
const BUNDLE: &[u8] = b"\x02\x00\x00\x00\x10abcdefghijklmnop\x05\x00\x00\x00\x02qr";

#[derive(Clone, Copy)]
enum Step {
    Take(usize),
    Pass(u64),
    Align,
}

// The last calls are too long.
const STEPS: [Step; 9] = [
    Step::Take(1),
    Step::Align,
    Step::Take(2),
    Step::Pass(1),
    Step::Take(5),
    Step::Align,
    Step::Pass(5),
    Step::Take(4),
    Step::Take(1),
];

fn note(outcome: Result<(), CutFault>, trace: &mut Text) -> Result<(), OutOfMemory> {
    match outcome {
        Ok(()) => trace.append(b"+"),
        Err(CutFault::Short { at }) => trace.append(&[b'-', u8::try_from(at).unwrap_or(255)]),
        Err(CutFault::Fault) => trace.append(b"!"),
    }
}

fn go<C: Cursor>(cursor: &mut C, step: Step, trace: &mut Text) -> Result<(), OutOfMemory> {
    let mut octets = [0u8; 8];
    let outcome = match step {
        Step::Take(count) => cursor.take(&mut octets[..count.min(8)]),
        Step::Pass(count) => cursor.pass(count),
        Step::Align => cursor.align(4, 8),
    };
    trace.append(&octets)?;
    trace.append(&[u8::try_from(cursor.place()).unwrap_or(255)])?;
    note(outcome, trace)
}

// What each call gave, and where the cursor stood after it.
fn run<C: Cursor>(alloc: Global, cursor: &mut C) -> Result<Text, OutOfMemory> {
    let mut trace = Text::new(alloc);
    for step in STEPS {
        go(cursor, step, &mut trace)?;
    }
    Ok(trace)
}

fn first_payload<S: Source + Drop>(source: S) -> Option<StreamCursor<S>> {
    let mut reader = BundleReader::new(source);
    match reader.next_head() {
        Ok(Some(head)) => Some(StreamCursor::new(reader, head.length)),
        Ok(None) => None,
        Err(_) => None,
    }
}

// What a cursor over the payload gives whose source gives at most so many octets in a call.
fn streamed(alloc: Global, most: usize) -> Option<Text> {
    let mut cursor = first_payload(MemSource::new(BUNDLE, most, &[]))?;
    run(alloc, &mut cursor).ok()
}

fn is_streamed(alloc: Global, most: usize, told: &Text) -> bool {
    match streamed(alloc, most) {
        Some(read) => read.octets() == told.octets(),
        None => false,
    }
}

#[test]
fn however_the_octets_are_cut(rt: HostRuntime) {
    let alloc = rt.alloc();
    let Ok(told) = run(alloc, &mut SliceCursor::new(&BUNDLE[5..21])) else {
        panic!(rt; "memory was wanting");
    };
    for most in [1, 2, 3, 7, 64] {
        assert!(rt; is_streamed(alloc, most, &told));
    }
}

#[test]
fn a_payload_that_is_cut(rt: HostRuntime) -> Result<(), Fail> {
    let mut octets = [0u8; 12];
    let mut cursor = first_payload(MemSource::new(&BUNDLE[..15], 3, &[])).ok_or("no head")?;
    assert!(rt; cursor.take(&mut octets[..8]) == Ok(()));
    assert!(rt;
        cursor.take(&mut octets[..3]) == Err(CutFault::Fault)
            && cursor.pass(1) == Err(CutFault::Fault)
    );
    let cut = RecordFault::Truncated {
        at: 0,
        kind: Kind::Sample,
    };
    assert!(rt; cursor.end().next_head() == Err(cut));
    Ok(())
}

#[test]
fn a_source_that_fails(rt: HostRuntime) -> Result<(), Fail> {
    let mut octets = [0u8; 12];
    let mut cursor = first_payload(MemSource::new(BUNDLE, 7, &[4])).ok_or("no head")?;
    assert!(rt; cursor.take(&mut octets) == Err(CutFault::Fault) && cursor.place() == 7);
    let mut next = [0u8; 2];
    assert!(rt; cursor.take(&mut next) == Ok(()) && next == *b"hi");
    assert!(rt; cursor.end().next_head() == Err(RecordFault::ReadFault));
    Ok(())
}

// Whether the payload that follows is this.
fn gives(alloc: Global, reader: &mut BundleReader<MemSource<'_>>, octets: &[u8]) -> bool {
    match reader.payload(alloc) {
        Ok(payload) => payload.octets() == octets,
        Err(_) => false,
    }
}

// Whether the record that follows has this payload.
fn brings(alloc: Global, reader: &mut BundleReader<MemSource<'_>>, octets: &[u8]) -> bool {
    match reader.next_item(alloc) {
        Ok(Some(item)) => item.payload.octets() == octets,
        Ok(None) | Err(_) => false,
    }
}

// Exactly the octets after the place are left.
#[test]
fn the_rest_is_left(rt: HostRuntime) -> Result<(), Fail> {
    let mut octets = [0u8; 3];
    let mut cursor = first_payload(MemSource::new(BUNDLE, 2, &[])).ok_or("no head")?;
    assert!(rt; cursor.take(&mut octets) == Ok(()));
    let mut reader = cursor.end();
    assert!(rt; gives(rt.alloc(), &mut reader, b"defghijklmnop"));
    assert!(rt; brings(rt.alloc(), &mut reader, b"qr"));
    Ok(())
}
