//! Serving at the doors of a net.
ghost use Rattle.std.specs.Prelude.{◌≡◌, ◌≤◌, ◌*◌, true, length, map, reverse, IfOk, OnOk, IsErrOf};
ghost use Rattle.std.specs.List.{All};
ghost use Rattle.xt_io.specs.declared.NetFault.TheVariants.{Failed};
ghost use Rattle.xt_io.specs.Outside.{Rose};
ghost use Rattle.xt_io.specs.Links.{IsNewDoor, IsToldAs, any_fault};
ghost use Rattle.type_object.specs.Names.{hash_of};
ghost use Rattle.lookup_service.specs.declared.workers.faults.ServeFault.TheVariants.{DoorFault};
ghost use Rattle.tool_nets.specs.serving.Registering.{AreIn, entry_of};
ghost use Rattle.tool_nets.specs.serving.Serving.{DoorsHeld};
ghost use Rattle.tool_nets.specs.serving.Seats.{AreHeld, IsReady, Knows};

use crate::serving::registering::Known;
use lookup_service::workers::{NoGate, Seat, ServeFault, serve_workers};
use std::alloc::Global;
use std::thread::Threads;
use type_registry::{Md5Naming, Pass};
use xt_io::{Door, Net, NetFault};
use xt_lists::{OutOfMemory, Row, Word};

/// A pass that knows all that was found.
fn pass_of<'r>(alloc: Global, known: &Known<'r>) -> Result<Pass<'r, Md5Naming>, OutOfMemory>
    requires { AreIn known.now.registry.now known.now.findings }
    ensures { IfOk result (Knows hash_of known.now.registry.now (map entry_of known.now.findings)) }
{
    let registry = known.registry;
    let findings = known.findings.as_slice();
    let mut pass = registry.pass(alloc);
    for finding in findings {
        registry.remember(&mut pass, finding)?;
    }
    pass.holds();
    Ok(pass)
}

/// So many passes that know all that was found.
fn passes_of<'r>(
    alloc: Global,
    known: &Known<'r>,
    count: usize,
) -> Result<Row<Pass<'r, Md5Naming>>, OutOfMemory>
    requires { AreIn known.now.registry.now known.now.findings }
    ensures count { IfOk result (λ passes. length passes ≡ count) }
    ensures knows { IfOk result (All (Knows hash_of known.now.registry.now (map entry_of known.now.findings))) }
{
    let mut passes = Row::new(alloc);
    for _seat in 0..count {
        let pass = pass_of(alloc, known)?;
        passes.push(pass)?;
    }
    Ok(passes)
}

/// A seat at each of these doors, from the last to the first, with these passes, which know all that was found.
fn seats_at<'r, D: Door>(
    alloc: Global,
    known: &Known<'r>,
    passes: Row<Pass<'r, Md5Naming>>,
    doors: Row<D>,
) -> Result<Row<Seat<'r, Md5Naming, D>>, OutOfMemory>
    requires same { length passes ≡ length doors }
    requires knows { All (Knows hash_of known.now.registry.now (map entry_of known.now.findings)) passes }
    requires new { All (λ door. IsNewDoor (D.held door) (D.out door) (D.faults door)) doors }
    ensures count { IfOk result (λ seats. length seats ≡ length doors) }
    ensures ready { IfOk result (All (λ seat. IsReady hash_of known.now.registry.now (map entry_of known.now.findings) seat.pass (D.held seat.door) (D.out seat.door) (D.faults seat.door))) }
{
    let mut passes = passes;
    let mut doors = doors;
    let mut seats = Row::new(alloc);
    'doors: while let Some(door) = doors.pop() {
        let pass = passes.pop().unwrap();
        seats.push(Seat { door, pass })?;
    }
    Ok(seats)
}

/// The doors of these seats, from the last to the first.
fn doors_of<D: Door>(
    alloc: Global,
    seats: Row<Seat<'_, Md5Naming, D>>,
) -> Result<Row<D>, OutOfMemory>
    ensures { IfOk result (λ doors. map (λ seat. seat.door) seats.entry ≡ reverse doors) }
{
    let mut seats = seats;
    let mut doors = Row::new(alloc);
    'seats: while let Some(Seat { door, .. }) = seats.pop() {
        doors.push(door)?;
    }
    Ok(doors)
}

/// Serves at these doors so many turns each, the workers beside each other, and gives the doors back, unless memory is wanting for a list of
/// them.
fn serve_doors<R: Threads + Sync, D: Door>(
    rt: &R,
    alloc: Global,
    known: &Known<'_>,
    doors: Row<D>,
    turns: u32,
) -> Result<(Row<D>, Result<u64, ServeFault>), OutOfMemory>
    requires known { AreIn known.now.registry.now known.now.findings }
    requires few { length doors ≤ 64 }
    requires new { All (λ door. IsNewDoor (D.held door) (D.out door) (D.faults door)) doors }
    ensures count { IfOk result (λ r. IfOk r.1 (λ n. n ≡ length doors * turns)) }
    ensures held { IfOk result (λ r. OnOk r.1 (AreHeld hash_of (map entry_of known.now.findings) (length doors) turns (map (λ door. D.held door) r.0))) }
    ensures fault { IfOk result (λ r. IsErrOf r.1 DoorFault → any_fault (map (λ door. D.faults door) r.0) ≡ true) }
{
    let Ok(passes) = passes_of(alloc, known, doors.len()) else {
        return Ok((doors, Err(ServeFault::OutOfMemory)));
    };
    let mut seats = seats_at(alloc, known, passes, doors)?;
    let served = serve_workers(rt, alloc, known.registry, &mut seats, turns, &NoGate);
    let doors = doors_of(alloc, seats)?;
    Ok((doors, served))
}

/// Serves at so many doors of an address, so many turns each, and gives the doors back. Ok is how many sessions were held. It fails only
/// where the net's count of faults rises, as it does where a door failed.
pub(crate) fn serve_net<R: Threads + Sync, N: Net>(
    rt: &R,
    alloc: Global,
    known: &Known<'_>,
    to: &Word,
    workers: u32,
    turns: u32,
    net: &mut N,
) -> Result<u64, NetFault>
    requires known { AreIn known.now.registry.now known.now.findings }
    requires few { workers ≤ 64 }
    ensures count { IfOk result (λ n. n ≡ workers * turns) }
    ensures address { OnOk result (IsToldAs (N.address net.new) to.now) }
    ensures held { OnOk result (DoorsHeld hash_of (map entry_of known.now.findings) workers turns (N.held net.new)) }
    ensures fault { IsErrOf result Failed → Rose (N.faults net.old) (N.faults net.new) }
{
    let doors = match net.doors(alloc, to, workers) {
        Ok(doors) => doors,
        Err(fault) => return Err(fault),
    };
    let Ok((doors, served)) = serve_doors(rt, alloc, known, doors, turns) else {
        return Err(NetFault::OutOfMemory);
    };
    net.end_doors(doors);
    match served {
        Ok(count) => Ok(count),
        Err(ServeFault::DoorFault) => Err(NetFault::Failed),
        Err(ServeFault::OutOfMemory) => Err(NetFault::OutOfMemory),
    }
}
