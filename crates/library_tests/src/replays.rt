//! A stream, replayed over a reader's type of which no identifier is given.
use crate::objects::COLOR;
use assignability::Verdict;
use object_walks::resolve;
use settled_parts::Outcome;
use std::alloc::Global;
use type_object::Pool;
use type_rules::check_type;
use type_trees::samples::is_top;
use type_trees::{Slot, Value, XType};
use xt_io::{Item, Kind};
use xt_lists::{OutOfMemory, Text};
use xt_recorder::{ReplayFault, Replayed, Replayer};

// A replayer over this type, where it is valid and a top.
fn replayer_of(alloc: Global, ty: XType, pool: Pool) -> Option<Box<Replayer>> {
    if check_type(&ty).is_err() || !is_top(&ty) {
        return None;
    }
    Box::new(alloc, Replayer::new(ty, pool)).ok()
}

// A replayer over the object's type, which is judged as a type.
fn replayer(alloc: Global) -> Option<Box<Replayer>> {
    let mut pool = Pool::new(alloc);
    let id = pool.add(&COLOR).ok()?;
    match resolve(alloc, &pool, &id) {
        Ok(ty) => replayer_of(alloc, ty, pool),
        Err(_) => None,
    }
}

fn item(alloc: Global, kind: Kind, octets: &[u8]) -> Result<Item, OutOfMemory> {
    Ok(Item {
        kind,
        at: 0,
        payload: Text::from_octets(alloc, octets)?,
    })
}

// Whether the value is a structure of 5 alone.
fn is_five(value: &Value) -> bool {
    match value {
        Value::Struct(slots) => match slots.as_slice() {
            [Slot::Present(Value::Int(number))] => *number == 5,
            _ => false,
        },
        _ => false,
    }
}

// Whether a record begins a stream that the reader's type is assignable from.
fn begins(alloc: Global, replayer: &mut Replayer, note: &Item) -> bool {
    match replayer.take(alloc, note) {
        Ok(
            Replayed::Stream {
                verdict: Verdict::Yes,
                ..
            },
        ) => true,
        _ => false,
    }
}

// Whether a record is read as a structure of 5 alone.
fn reads_five(alloc: Global, replayer: &mut Replayer, sample: &Item) -> bool {
    match replayer.take(alloc, sample) {
        Ok(Replayed::Read(Outcome::Sample(value))) => is_five(&value),
        _ => false,
    }
}

#[test]
fn a_stream_is_judged_by_types(rt: HostRuntime) {
    let alloc = rt.alloc();
    let note = item(
        alloc,
        Kind::Note,
        b"stream f166f0c72600ad68106416fe70f85e xcdr2",
    )
    .expect(&rt, "memory");
    let sample = item(alloc, Kind::Sample, b"\0\x07\0\0\x05\0\0\0").expect(&rt, "memory");
    let mut replayer = replayer(alloc).expect(&rt, "a replayer");
    assert!(rt; begins(alloc, &mut replayer, &note));
    assert!(rt; reads_five(alloc, &mut replayer, &sample));
}
