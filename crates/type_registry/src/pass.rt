ghost use Rattle.std.specs.Prelude.{◌≡◌, None, Some, [], MatchOption, OnOk, OnErr};
ghost use Rattle.type_registry.specs.Passed.{known, IsPass, IsFull, Learns, LearnsFull};

use crate::agrees::agree;
use crate::by_id::ById;
use crate::finding::Finding;
use crate::naming::Naming;
use crate::registry::Registry;
use crate::trail::{Strangers, Trail};
use std::alloc::Global;
use std::marker::Model;
use type_trees::HashId;
use xt_lists::OutOfMemory;

/// What one thread knows of a registry: findings by their identifiers, and the identifiers whose 64 probed cells are all full, each
/// with another one. Cells never change once they are full, so both stay true.
pub struct Pass<'r, N: Naming> {
    registry: &'r Registry<N>,
    found: ById<Finding<'r, N>>,
    full: ById<Strangers<'r, N>>,
}

// By hand, so that it is proved here once, and not in each crate that lets one go.
impl<N: Naming> Drop for Pass<'_, N> {
    fn drop(self) {
        let Pass {
            registry: _,
            found: _,
            full: _,
        } = self;
    }
}

impl<'r, N: Naming> Model for Pass<'r, N> {
    ghost use Rattle.type_registry.specs.Passed.{PassView, IsPass};

    ghost Value = { PassView };

    ghost view = { λ p. record { registry = p.registry.now; found = p.found; full = p.full } };

    ghost invariant = { λ p. IsPass N.name (record { registry = p.registry.now; found = p.found; full = p.full }) };
}

impl<N: Naming> Registry<N> {
    /// A pass of this registry that knows nothing yet. It takes no memory.
    pub fn pass(&self, alloc: Global) -> Pass<'_, N>
        ensures { result ≡ record { registry = self.now; found = []; full = [] } }
    {
        Pass {
            registry: self,
            found: ById::new(alloc),
            full: ById::new(alloc),
        }
    }
}

impl<'r, N: Naming> Pass<'r, N> {
    /// It does nothing, and tells that what the pass knows is true of its registry.
    pub fn holds(&self)
        ensures { IsPass N.name self.now }
    {
        let _registry = self.registry;
    }

    /// The finding that the pass has of an identifier. It takes no memory.
    pub(crate) fn recall(&self, id: &HashId) -> Option<Finding<'r, N>>
        ensures found { MatchOption result (known self.now id.now ≡ None) (λ f. (f.registry ≡ self.now.registry) × (f.id ≡ id.now) × (known self.now id.now ≡ Some f.octets)) }
        ensures pass { IsPass N.name self.now }
    {
        match self.found.get(id) {
            Some(finding) => Some(finding.again()),
            None => None,
        }
    }

    /// Adds a finding, if the pass knows none of its identifier yet.
    pub(crate) fn keep(&mut self, finding: &Finding<'r, N>) -> Result<(), OutOfMemory>
        requires { finding.now.registry ≡ self.old.registry }
        ensures ok { OnOk result (Learns self.old self.new finding.now.id finding.now.octets) }
        ensures err { OnErr result (self.new ≡ self.old) }
        ensures pass { IsPass N.name self.new }
    {
        let id = finding.id();
        if let Some(found) = self.recall(&id) {
            let _same = agree(&found, finding);
            return Ok(());
        }
        self.found.insert(id, finding.again())?;
        Ok(())
    }

    /// Adds that the probed cells of an identifier are full, if the pass doesn't know it yet.
    pub(crate) fn keep_trail(&mut self, trail: &Trail<'r, N>) -> Result<(), OutOfMemory>
        requires { trail.now.registry ≡ self.old.registry }
        ensures ok { OnOk result (LearnsFull self.old self.new trail.now.id trail.now.held) }
        ensures err { OnErr result (self.new ≡ self.old) }
        ensures pass { IsPass N.name self.new }
    {
        let strangers = trail.strangers();
        let id = strangers.id();
        if let Some(known) = self.full.get(&id) {
            known.agrees(&strangers);
            return Ok(());
        }
        self.full.insert(id, strangers)?;
        Ok(())
    }
}
