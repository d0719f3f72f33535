//! One worker over its turns.
ghost use Rattle.std.specs.Prelude.{◌≡◌, ◌≢◌, ◌<◌, ℕ, false, true, IfOk, IfErr};
ghost use Rattle.lookup_service.specs.declared.ended.Ended.TheVariants.{OutOfMemory as memory};
ghost use Rattle.lookup_service.specs.workers.Outcomes.{answer_of};
ghost use Rattle.lookup_service.specs.workers.Served.{HoldsTurns, SeatServed};

use crate::workers::seat::Seat;
use crate::{Ended, Gate, session};
use std::alloc::Global;
use type_registry::{Naming, Registry};
use xt_io::{Door, NetFault};

/// Serves with one seat: it accepts so many links in turn, holds a session on each and gives it back, and ends at the first link that is
/// refused, with why it was: fewer sessions than turns were held then. Ok is whether memory sufficed in all; one was held for each turn, also
/// where it did not.
pub(crate) fn work<'r, N: Naming, D: Door, G: Gate>(
    alloc: Global,
    registry: &'r Registry<N>,
    seat: &mut Seat<'r, N, D>,
    turns: u32,
    gate: &G,
) -> Result<bool, NetFault>
    requires none_out { D.out seat.old.door ≡ false }
    requires registry { seat.old.pass.registry ≡ registry.now }
    ensures served { SeatServed N.name D.held D.faults D.out (λ seat. seat.door) (λ seat. seat.pass) turns seat.old seat.new (answer_of result) }
    ensures all_turns { IfOk result (λ _. HoldsTurns turns (D.held seat.old.door) (D.held seat.new.door)) }
    ensures fewer { IfErr result (λ _. (count : ℕ) × (count < turns) × HoldsTurns count (D.held seat.old.door) (D.held seat.new.door)) }
{
    let mut sufficed = true;
    'turns: for turn in 0..turns {
        let mut link = match seat.door.accept(alloc) {
            Ok(link) => link,
            Err(fault) => return Err(fault),
        };
        seat.pass.holds();
        let ended = session(alloc, registry, &mut seat.pass, &mut link, gate);
        seat.door.end_link(link);
        sufficed = still_suffices(sufficed, ended);
    }
    Ok(sufficed)
}

/// Whether memory sufficed in the sessions so far and in one that ended so.
fn still_suffices(sufficed: bool, ended: Ended) -> bool
    ensures before { result ≡ true → sufficed ≡ true }
    ensures memory { result ≡ true → ended ≢ memory }
{
    match ended {
        Ended::OutOfMemory => false,
        Ended::Closed | Ended::LinkFault | Ended::BadFrame { .. } | Ended::Limit => sufficed,
    }
}
