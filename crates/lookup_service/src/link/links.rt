//! The link to the service itself.
ghost use Rattle.std.specs.Prelude.{◌≡◌, ◌≤◌, ◌<◌, [], true, false, length, Some, None, IfOk, OnOk, OnErr};
ghost use Rattle.std.specs.Io.{ReadsAtMost, WritesAtMost};
ghost use Rattle.xt_io.specs.Outside.{HasCause, KeepsRest, raised_from};
ghost use Rattle.xt_io.specs.Links.{Gives, Adds};
ghost use Rattle.lookup_service.specs.link.Loops.{IsLoop, no_pass};

use crate::link::exchange::{give, hand_over, keep};
use std::alloc::Global;
use std::marker::Model;
use type_registry::{Md5Naming, Naming, Pass, Registry};
use xt_io::{Failed, Link};
use xt_lists::Text;

/// A link in memory to the service over a registry. Where a reply is wanted and none is there, what was written since is handed to a session,
/// and what the session sent is read then; where nothing was written, a read gives nothing. After a frame that is no request's, and after a
/// fault, nothing is handed over any more.
///
/// It gives and takes at most so many octets in a call, and one at least. It fails only for want of memory. It does not tell what is still to
/// come, as a reply comes only once it is asked for.
#[derive(Drop)]
pub struct LoopLink<'r> {
    alloc: Global,
    registry: &'r Registry<Md5Naming>,
    pass: Pass<'r, Md5Naming>,
    most: usize,
    taken: Text,
    handed: usize,
    replies: Text,
    at: usize,
    over: bool,
    faults: u64,
}

impl<'r> Model for LoopLink<'r> {
    ghost use Rattle.std.specs.Prelude.{◌≡◌, ◌≤◌, length, take, drop};
    ghost use Rattle.lookup_service.specs.link.Loops.{LoopView, IsLoop};

    ghost Value = { LoopView };

    ghost view = { λ l. record { pass = l.pass; taken = l.taken; handed = l.handed; given = take l.at l.replies; coming = drop l.at l.replies; over = l.over; faults = l.faults } };

    ghost invariant = { λ l. (l.registry.now ≡ l.pass.registry) × (l.at ≤ length l.replies) × IsLoop ⟦<Md5Naming as Naming>⟧.name (record { pass = l.pass; taken = l.taken; handed = l.handed; given = take l.at l.replies; coming = drop l.at l.replies; over = l.over; faults = l.faults }) };
}

impl<'r> LoopLink<'r> {
    /// A link to the service over this registry, whose pass is new and knows nothing yet. It takes no memory.
    pub fn new(alloc: Global, registry: &'r Registry<Md5Naming>, most: usize) -> LoopLink<'r>
        ensures { result ≡ record { pass = no_pass registry.now; taken = []; handed = 0; given = []; coming = []; over = false; faults = 0 } }
    {
        LoopLink {
            alloc,
            registry,
            pass: registry.pass(alloc),
            most,
            taken: Text::new(alloc),
            handed: 0,
            replies: Text::new(alloc),
            at: 0,
            over: false,
            faults: 0,
        }
    }

    /// It does nothing, and tells what the link has done.
    pub fn holds(&self)
        ensures { IsLoop ⟦<Md5Naming as Naming>⟧.name self.now }
    {
        let _most = self.most;
    }

    /// The octets that it took so far.
    pub fn octets(&self) -> &[u8]
        ensures { result.now ≡ self.now.taken }
    {
        self.taken.octets()
    }

    /// How often it has failed.
    pub fn faults(&self) -> u64
        ensures { result ≡ self.now.faults }
    {
        self.faults
    }

    // Hands over what was written and has not been handed over yet.
    fn reply(&mut self) -> Result<(), Failed>
        requires none { self.old.coming ≡ [] }
        requires on { self.old.over ≡ false }
        ensures taken { self.new.taken ≡ self.old.taken }
        ensures given { self.new.given ≡ self.old.given }
        ensures handed { OnOk result (self.new.handed ≡ length self.new.taken) }
        ensures over { OnErr result (self.new.over ≡ true) }
        ensures cause { HasCause self.old.faults self.new.faults result }
    {
        let waiting = &self.taken.octets()[self.handed..];
        let Ok((link, ended)) = hand_over(self.alloc, self.registry, &mut self.pass, waiting) else {
            self.over = true;
            self.faults = raised(self.faults);
            return Err(Failed);
        };
        self.handed = self.taken.len();
        let Ok(over) = keep(&mut self.replies, &link, ended) else {
            self.over = true;
            self.faults = raised(self.faults);
            return Err(Failed);
        };
        self.over = over;
        Ok(())
    }

    // Hands over what was written, where a reply is wanted and none is there.
    fn want(&mut self) -> Result<(), Failed>
        ensures taken { self.new.taken ≡ self.old.taken }
        ensures given { self.new.given ≡ self.old.given }
        ensures handed { OnOk result (self.old.coming ≡ [] → self.old.over ≡ false → self.new.handed ≡ length self.new.taken) }
        ensures over { OnErr result (self.new.over ≡ true) }
        ensures cause { HasCause self.old.faults self.new.faults result }
    {
        if self.over || self.at < self.replies.len() || self.handed == self.taken.len() {
            return Ok(());
        }
        self.reply()?;
        Ok(())
    }
}

/// The count raised by one; it stands still at the end of its type.
fn raised(count: u64) -> u64
    ensures { result ≡ raised_from count }
{
    count.saturating_add(1)
}

impl<'r> Link for LoopLink<'r> {
    ghost left = { λ _. None };

    ghost got = { λ l. Some l.given };

    ghost taken = { λ l. Some l.taken };

    ghost faults = { λ l. l.faults };

    fn read(&mut self, into: &mut [u8]) -> Result<usize, Failed>
        ensures bound { ReadsAtMost result into.new }
        ensures octets { Gives None None result into.new }
        ensures rest { KeepsRest result into.old into.new }
        ensures got { Adds (Some self.old.given) (Some self.new.given) result into.new }
        ensures taken { Some self.new.taken ≡ Some self.old.taken }
        ensures cause { HasCause self.old.faults self.new.faults result }

        // Where no reply waited, all that was taken is handed over.
        ensures handed { OnOk result (self.old.coming ≡ [] → self.old.over ≡ false → self.new.handed ≡ length self.new.taken) }
        ensures over { OnErr result (self.new.over ≡ true) }
    {
        self.want()?;
        let count = give(&self.replies.octets()[self.at..], self.most, into);
        self.at += count;
        Ok(count)
    }

    fn write(&mut self, from: &[u8]) -> Result<usize, Failed>
        ensures bound { WritesAtMost result from.now }
        ensures some { IfOk result (λ n. 0 < length from.now → 0 < n) }
        ensures octets { Adds (Some self.old.taken) (Some self.new.taken) result from.now }
        ensures got { Some self.new.given ≡ Some self.old.given }
        ensures cause { HasCause self.old.faults self.new.faults result }

        // It hands nothing over.
        ensures handed { (self.new.pass ≡ self.old.pass) × (self.new.handed ≡ self.old.handed) × (self.new.coming ≡ self.old.coming) }
        ensures over { OnErr result (self.new.over ≡ true) }
    {
        let count = from.len().min(self.most.max(1));
        match self.taken.append(&from[..count]) {
            Ok(()) => Ok(count),
            Err(_) => {
                self.over = true;
                self.faults = raised(self.faults);
                Err(Failed)
            }
        }
    }
}
