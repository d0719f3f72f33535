ghost use Rattle.std.specs.Prelude.{◌≡◌, ◌≢◌, IfOk, IfErr, OnOk, None};
ghost use Rattle.type_object.specs.Pools.{IsObject};
ghost use Rattle.type_registry.specs.Held.{IsNamed, held};
ghost use Rattle.type_registry.specs.Registered.{IsKept, IsNoObject, IsRefused, IsSettled};
ghost use Rattle.type_registry.specs.Passed.{Grows, IsPass, known};

use crate::finding::Finding;
use crate::kept::{Kept, RegisterFault, Settled};
use crate::naming::{Naming, named};
use crate::pass::Pass;
use crate::path::Path;
use crate::registry::Registry;
use crate::trail::Trail;
use std::alloc::Global;
use type_object::{Fault, ObjectFault, read_object};
use type_trees::HashId;
use xt_lists::OutOfMemory;

impl<N: Naming> Registry<N> {
    /// Puts an object into the registry, or finds it there, and lets the pass know it. Its identifier is its kind and its name. Probes
    /// are tried level by level, at most 64, with no retry; an empty cell is filled by one call, which also tells what the cell holds
    /// then, whoever set it. An object that the pass knows is not read again.
    ///
    /// Added and Known carry the octets that were handed in. NotAnObject comes exactly where these are no object's text, Clash only
    /// with other octets under the same identifier, and Full only with 64 cells of other identifiers, which the pass then knows;
    /// where the pass knew the identifier before, the answer is never Added and never Full. Else a refusal changes nothing in the
    /// pass.
    pub fn register<'r>(
        &'r self,
        alloc: Global,
        pass: &mut Pass<'r, N>,
        octets: &[u8],
    ) -> Result<Kept<'r, N>, RegisterFault<'r, N>>
        requires { pass.old.registry ≡ self.now }
        ensures kept { IfOk result (λ k. IsKept N.name self.now octets.now pass.old pass.new k) }
        ensures refused { IfErr result (λ f. IsRefused N.name self.now octets.now pass.old pass.new f) }
        ensures grows { Grows pass.old pass.new }
        ensures pass { IsPass N.name pass.new }
    {
        let id = named::<N>(octets);
        let Some(finding) = pass.recall(&id) else {
            expect_object(alloc, octets)?;
            return self.enter(alloc, pass, id, octets);
        };
        if finding.octets() == octets {
            return Ok(Kept::Known(finding));
        }
        expect_object(alloc, octets)?;
        Err(RegisterFault::Clash(finding))
    }

    /// Puts an object into the registry whose identifier the pass doesn't know.
    fn enter<'r>(
        &'r self,
        alloc: Global,
        pass: &mut Pass<'r, N>,
        id: HashId,
        octets: &[u8],
    ) -> Result<Kept<'r, N>, RegisterFault<'r, N>>
        requires pass { pass.old.registry ≡ self.now }
        requires named { IsNamed N.name (held id octets.now) }
        requires new { known pass.old id ≡ None }
        requires sound { IsPass N.name pass.old }
        ensures kept { IfOk result (λ k. IsKept N.name self.now octets.now pass.old pass.new k) }
        ensures refused { IfErr result (λ f. IsRefused N.name self.now octets.now pass.old pass.new f) }
        ensures grows { Grows pass.old pass.new }
        ensures pass { IsPass N.name pass.new }
    {
        match self.settle(alloc, id, octets) {
            Ok(Settled::Added(finding)) => match pass.keep(&finding) {
                Ok(()) => Ok(Kept::Added(finding)),
                Err(_) => Err(RegisterFault::OutOfMemory),
            },
            Ok(Settled::Known(finding)) => match pass.keep(&finding) {
                Ok(()) => Ok(Kept::Known(finding)),
                Err(_) => Err(RegisterFault::OutOfMemory),
            },
            Ok(Settled::Clash(finding)) => Err(RegisterFault::Clash(finding)),
            Ok(Settled::Full(trail)) => match pass.keep_trail(&trail) {
                Ok(()) => Err(RegisterFault::Full(trail)),
                Err(_) => Err(RegisterFault::OutOfMemory),
            },
            Err(_) => Err(RegisterFault::OutOfMemory),
        }
    }

    /// Probes until a cell has the identifier, which an empty one gets.
    fn settle<'r>(
        &'r self,
        alloc: Global,
        id: HashId,
        octets: &[u8],
    ) -> Result<Settled<'r, N>, OutOfMemory>
        requires { IsNamed N.name (held id octets.now) }
        ensures { IfOk result (λ s. IsSettled N.name self.now id octets.now s) }
    {
        let mut path = Path::start(self, id);
        let mut seen = Vec::new(alloc);
        'probes: while path.count() < 64 {
            let (met, was_empty) = path.meet(alloc, octets)?;
            if met.entry.id() == id {
                return Ok(settled(Finding::of(path, met), was_empty, octets));
            }
            seen.push(met.entry)?;
            path = path.past(met);
        }
        Ok(Settled::Full(Trail::of(path, seen)))
    }
}

/// What it means for `octets` that the probes of their identifier ended at this finding.
fn settled<'r, N: Naming>(finding: Finding<'r, N>, was_empty: bool, octets: &[u8]) -> Settled<'r, N>
    ensures { IsSettled N.name finding.entry.registry finding.entry.id octets.now result }
{
    if finding.octets() != octets {
        Settled::Clash(finding)
    } else if was_empty {
        Settled::Added(finding)
    } else {
        Settled::Known(finding)
    }
}

/// Refuses what is no object's text.
fn expect_object<'r, N: Naming>(alloc: Global, octets: &[u8]) -> Result<(), RegisterFault<'r, N>>
    ensures ok { OnOk result (IsObject octets.now) }
    ensures err { IfErr result (λ f. IsNoObject octets.now f) }
{
    match read_object(alloc, octets) {
        Ok(_) => Ok(()),
        Err(ObjectFault::Not { at, rule }) => Err(RegisterFault::NotAnObject(Fault { at, rule })),
        Err(ObjectFault::OutOfMemory) => Err(RegisterFault::OutOfMemory),
    }
}
