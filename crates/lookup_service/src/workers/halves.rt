//! Work that is shared out by halves.
ghost use Rattle.std.specs.List.{All};
ghost use Rattle.std.specs.Thread.{IsSync, IsSend};
ghost use Rattle.lookup_service.specs.workers.Outcomes.{AllWorked, MayWork, Works};

use crate::workers::faults::{ServeFault, both};
use std::thread::{Threads, join_mut};
use xt_lists::Row;

/// Calls `work` with each, in threads of their own where they can be made.
pub(crate) fn work_all<R: Threads + Sync, T: Send, F: Fn(&mut T) -> Result<(), ServeFault> + Sync>(
    rt: &R,
    work: &F,
    workers: &mut Row<T>,
) -> Result<(), ServeFault>
    requires { All (MayWork F.Fn work.now) workers.old }
    ensures { AllWorked (Works F.Fn work.now) workers.old workers.new result }
{
    work_halves(rt, work, workers.items())
}

/// The same, halved again and again.
fn work_halves<R: Threads + Sync, T: Send, F: Fn(&mut T) -> Result<(), ServeFault> + Sync>(
    rt: &R,
    work: &F,
    workers: &mut [T],
) -> Result<(), ServeFault>
    requires { All (MayWork F.Fn work.now) workers.old }
    ensures { AllWorked (Works F.Fn work.now) workers.old workers.new result }
{
    let count = workers.len();
    if count == 0 {
        return Ok(());
    }
    if count == 1 {
        return work(&mut workers[0]);
    }
    let (front, back) = workers.split_at_mut(count / 2);
    let (first, second) = join_mut(
        rt,
        &mut || -> Result<(), ServeFault>
            requires { IsSync R.row × IsSync F.row × IsSend T.row × All (MayWork F.Fn work.now) front.now }
            ensures { AllWorked (Works F.Fn work.entry.now) front.entry.now front.exit.now result }
        { work_halves(rt, work, front) },
        &mut || -> Result<(), ServeFault>
            requires { IsSync R.row × IsSync F.row × IsSend T.row × All (MayWork F.Fn work.now) back.now }
            ensures { AllWorked (Works F.Fn work.entry.now) back.entry.now back.exit.now result }
        { work_halves(rt, work, back) },
    );
    both(first, second)
}
