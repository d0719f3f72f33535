ghost use Rattle.std.specs.Prelude.{◌≡◌, ℕ, List, None, Some, IfSome, MatchOption, OnOk, OnErr};
ghost use Rattle.type_registry.specs.Passed.{known, IsPass, Learns};

use crate::finding::Finding;
use crate::naming::Naming;
use crate::pass::Pass;
use crate::path::Path;
use crate::registry::Registry;
use type_trees::HashId;
use xt_lists::OutOfMemory;

impl<N: Naming> Registry<N> {
    /// Finds the object of an identifier, from the pass or by at most 64 probes. It takes no memory, no runtime and no lock. An
    /// identifier that the pass knows is always found, with the octets that the pass knows. None comes only where the pass doesn't
    /// know it, and the probes met an empty cell, a level that isn't made, or 64 cells of other identifiers.
    pub fn find<'r>(&'r self, pass: &Pass<'r, N>, id: &HashId) -> Option<Finding<'r, N>>
        requires { pass.now.registry ≡ self.now }
        ensures found { IfSome result (λ f. (f.registry ≡ self.now) × (f.id ≡ id.now)) }
        ensures known { MatchOption result (known pass.now id.now ≡ None) (λ f. (octets : List ℕ) → known pass.now id.now ≡ Some octets → f.octets ≡ octets) }
        ensures pass { IsPass N.name pass.now }
    {
        match pass.recall(id) {
            Some(finding) => Some(finding),
            None => self.probed(id),
        }
    }

    /// Reads the probed cells of an identifier, in order.
    fn probed<'r>(&'r self, id: &HashId) -> Option<Finding<'r, N>>
        ensures { IfSome result (λ f. (f.registry ≡ self.now) × (f.id ≡ id.now)) }
    {
        let mut path = Path::start(self, *id);
        'probes: while path.count() < 64 {
            let met = path.look()?;
            if met.entry.id() == *id {
                return Some(Finding::of(path, met));
            }
            path = path.past(met);
        }
        None
    }

    /// Lets the pass know what a finding shows; nothing else changes in it. Where memory is refused the pass is unchanged.
    pub fn remember<'r>(
        &'r self,
        pass: &mut Pass<'r, N>,
        finding: &Finding<'r, N>,
    ) -> Result<(), OutOfMemory>
        requires pass { pass.old.registry ≡ self.now }
        requires finding { finding.now.registry ≡ self.now }
        ensures ok { OnOk result (Learns pass.old pass.new finding.now.id finding.now.octets) }
        ensures err { OnErr result (pass.new ≡ pass.old) }
        ensures pass { IsPass N.name pass.new }
    {
        pass.keep(finding)
    }
}
