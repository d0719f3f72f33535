//! Workers over doors in memory: their sessions are held beside each other, and a door that fails ends its own worker alone.
ghost use Rattle.std.specs.Prelude.{◌≡◌, ◌≤◌, false, length, IfOk};
ghost use Rattle.std.specs.List.{All};

use lookup_service::workers::{Gate, NoGate, Seat, ServeFault, serve_workers};
use std::alloc::Global;
use std::sync::atomic::{AtomicU64, Ordering};
use std::thread::{self, Threads};
use type_registry::{Md5Naming, Registry};
use xt_io::{Door, MemDoor, Script, Turn};
use xt_lists::{OutOfMemory, Row, Text};

// Puts the minimal object of `@final struct C { long color; };`, and asks for it.
const ASKED: &[u8] =
    b"\x00\x00\x00\x38\x00\xcb\x1b\x14\x04\x02\x00\x00\x00\x01\x00\x00\x00\x27\x00\x00\x00\x23\x00\x00\x00\xf1\x51\x01\x00\x01\x00\x00\x00\x00\x00\x00\x00\x13\x00\x00\x00\x01\x00\x00\x00\x0b\x00\x00\x00\x00\x00\x00\x00\x01\x00\x04\x70\xdd\xa5\xdf\x00\x00\x00\x1c\x00\xd3\x52\x82\x01\x01\x00\x00\x00\x01\x00\x00\x00\xf1\x66\xf0\xc7\x26\x00\xad\x68\x10\x64\x16\xfe\x70\xf8\x5e";

// The octets of the reply to the put.
const PUT_SIZE: usize = 18;

// The reply with the object.
const FOUND: &[u8] =
    b"\x00\x00\x00\x47\x01\xd3\x52\x82\x01\x01\x00\x00\x00\x01\x00\x00\x00\xf1\x66\xf0\xc7\x26\x00\xad\x68\x10\x64\x16\xfe\x70\xf8\x5e\x27\x00\x00\x00\x23\x00\x00\x00\xf1\x51\x01\x00\x01\x00\x00\x00\x00\x00\x00\x00\x13\x00\x00\x00\x01\x00\x00\x00\x0b\x00\x00\x00\x00\x00\x00\x00\x01\x00\x04\x70\xdd\xa5\xdf";

// A door with two links. It fails at the call of this number.
fn door(alloc: Global, fails: u64) -> Result<MemDoor, OutOfMemory>
    ensures { IfOk result (λ door. ⟦<MemDoor as Door>⟧.out door ≡ false) }
{
    let mut turns = Row::new(alloc);
    for _link in 0..2 {
        turns.push(Turn::Waiting(Script {
            input: Text::from_octets(alloc, ASKED)?,
            most: 7,
            fails: Row::new(alloc),
        }))?;
    }
    let mut calls = Row::new(alloc);
    calls.push(fails)?;
    Ok(MemDoor::new(turns, calls))
}

// A seat for each of these doors.
fn seats<'r>(
    alloc: Global,
    registry: &'r Registry<Md5Naming>,
    fails: &[u64],
) -> Result<Row<Seat<'r, Md5Naming, MemDoor>>, OutOfMemory>
    ensures count { IfOk result (λ seats. length seats ≡ length fails.now) }
    ensures none_out { IfOk result (All (λ seat. ⟦<MemDoor as Door>⟧.out seat.door ≡ false)) }
    ensures registry { IfOk result (All (λ seat. seat.pass.registry ≡ registry.now)) }
{
    let mut seats = Row::new(alloc);
    for number in fails {
        seats.push(Seat {
            door: door(alloc, *number)?,
            pass: registry.pass(alloc),
        })?;
    }
    Ok(seats)
}

// How many sessions the door holds, each with the object as its last reply.
fn held(door: &MemDoor) -> usize {
    door.turns().iter().filter(|turn| is_whole(turn)).count()
}

fn is_whole(turn: &Turn) -> bool {
    match turn {
        Turn::Ended(link) => {
            link.octets().len() == PUT_SIZE + FOUND.len() && link.octets().ends_with(FOUND)
        }
        Turn::Waiting(_) | Turn::Out => false,
    }
}

// Holds the first call until a second one is made, or until it has waited so many turns. It counts the calls, also those for a session's first
// request and for its second.
#[derive(Drop)]
struct Both {
    calls: AtomicU64,
    firsts: AtomicU64,
    seconds: AtomicU64,
    late: AtomicU64,
}

const MOST_TURNS: u64 = 2_000_000;

impl Gate for Both {
    fn before_reply(&self, request: u64) {
        if request == 0 {
            self.firsts.fetch_add(1, Ordering::SeqCst);
        }
        if request == 1 {
            self.seconds.fetch_add(1, Ordering::SeqCst);
        }
        if self.calls.fetch_add(1, Ordering::SeqCst) > 0 {
            return;
        }
        for _turn in 0..MOST_TURNS {
            if self.calls.load(Ordering::SeqCst) > 1 {
                return;
            }
            thread::yield_now();
        }
        self.late.store(1, Ordering::SeqCst);
    }
}

// Whether the doors of these seats hold so many sessions each.
fn hold(seats: &[Seat<'_, Md5Naming, MemDoor>], sessions: &[usize]) -> bool {
    if seats.len() != sessions.len() {
        return false;
    }
    for (seat, count) in seats.iter().zip(sessions) {
        if held(&seat.door) != *count {
            return false;
        }
    }
    true
}

// Whether workers with two turns each, at doors that fail at these calls, answer this, and hold so many sessions each.
fn serve<R: Threads + Sync, G: Gate>(
    rt: &R,
    alloc: Global,
    registry: &Registry<Md5Naming>,
    gate: &G,
    fails: &[u64],
    answer: Result<u64, ServeFault>,
    sessions: &[usize],
) -> bool
    requires { length fails.now ≤ 64 }
{
    let Ok(mut seats) = seats(alloc, registry, fails) else {
        return false;
    };
    let served = serve_workers(rt, alloc, registry, &mut seats, 2, gate);
    served == answer && hold(seats.as_slice(), sessions)
}

// Whether it was called for four first requests and four second ones, and no call waited in vain.
fn is_called_beside(gate: &Both) -> bool {
    gate.late.load(Ordering::SeqCst) == 0
        && gate.calls.load(Ordering::SeqCst) == 8
        && gate.firsts.load(Ordering::SeqCst) == 4
        && gate.seconds.load(Ordering::SeqCst) == 4
}

#[test]
fn two_workers_hold_their_sessions_beside_each_other(rt: HostRuntime) {
    let alloc = rt.alloc();
    let registry: Registry<Md5Naming> = Registry::new(alloc);
    let gate = Both {
        calls: AtomicU64::new(0),
        firsts: AtomicU64::new(0),
        seconds: AtomicU64::new(0),
        late: AtomicU64::new(0),
    };
    assert!(rt; serve(&rt, alloc, &registry, &gate, &[0, 0], Ok(4), &[2, 2]));
    assert!(rt; is_called_beside(&gate));
}

#[test]
fn a_door_that_fails_ends_its_own_worker(rt: HostRuntime) {
    let alloc = rt.alloc();
    let registry: Registry<Md5Naming> = Registry::new(alloc);
    assert!(rt; serve(&rt, alloc, &registry, &NoGate, &[], Ok(0), &[]));
    let fails = [0, 0, 0, 2, 0];
    let fault = Err(ServeFault::DoorFault);
    assert!(rt;
        serve(
            &rt,
            alloc,
            &registry,
            &NoGate,
            &fails,
            fault,
            &[2, 2, 2, 1, 2]
        )
    );
}
