//! Workers beside each other.
ghost use Rattle.std.specs.Prelude.{◌≡◌, ◌≤◌, ◌*◌, false, length, IfOk, IsErrOf};
ghost use Rattle.std.specs.List.{All};
ghost use Rattle.xt_io.specs.Outside.{Rose};
ghost use Rattle.lookup_service.specs.declared.workers.faults.ServeFault.TheVariants.{DoorFault};
ghost use Rattle.lookup_service.specs.workers.Outcomes.{AllWorked, AnyTwo, without_count};
ghost use Rattle.lookup_service.specs.workers.Served.{SeatServed};

use crate::Gate;
use crate::workers::faults::{ServeFault, answer_told};
use crate::workers::halves::work_all;
use crate::workers::seat::Seat;
use crate::workers::turns::work;
use std::alloc::Global;
use std::thread::Threads;
use type_registry::{Naming, Registry};
use xt_io::Door;
use xt_lists::Row;

/// Serves with a worker for each of at most 64 seats, in threads of their own: it accepts `turns` links at its door in turn, holds a session
/// on each over the seat's pass, and gives each back. A worker ends at the first link that is refused, and the others go on; after a
/// session in which memory was wanting it goes on.
///
/// Ok is the number of seats times `turns`: so many sessions were held. DoorFault comes only where a door's count of faults rose, and goes
/// before OutOfMemory, which comes where memory was wanting in a session or for a link.
pub fn serve_workers<'r, R: Threads + Sync, N: Naming, D: Door, G: Gate>(
    rt: &R,
    alloc: Global,
    registry: &'r Registry<N>,
    seats: &mut Row<Seat<'r, N, D>>,
    turns: u32,
    gate: &G,
) -> Result<u64, ServeFault>
    requires few { length seats.old ≤ 64 }
    requires none_out { All (λ seat. D.out seat.door ≡ false) seats.old }
    requires registry { All (λ seat. seat.pass.registry ≡ registry.now) seats.old }
    ensures count { IfOk result (λ n. n ≡ length seats.old * turns) }

    // Each worker has an answer of its own, and left its seat so; together they are the answer.
    ensures served { AllWorked (SeatServed N.name D.held D.faults D.out (λ seat. seat.door) (λ seat. seat.pass) turns) seats.old seats.new (without_count result) }
    ensures cause { IsErrOf result DoorFault → AnyTwo (λ old new. Rose (D.faults old.door) (D.faults new.door)) seats.old seats.new }
{
    let count = seats.len() as u64;
    work_all(
        rt,
        &|seat| -> Result<(), ServeFault>
            requires { (D.out seat.now.door ≡ false) × (seat.now.pass.registry ≡ registry.now) }
            ensures { SeatServed N.name D.held D.faults D.out (λ seat. seat.door) (λ seat. seat.pass) turns seat.entry.now seat.exit.now result }
        { answer_told(work(alloc, registry, seat, turns, gate)) },
        seats,
    )?;
    Ok(count * u64::from(turns))
}
