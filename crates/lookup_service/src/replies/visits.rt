ghost use Rattle.std.specs.Prelude.{◌≡◌, ◌≢◌, [], suc, false, length, IfOk, IsTrue, ℕ};
ghost use Rattle.type_registry.specs.Passed.{known, Grows};
ghost use Rattle.type_object.specs.visits.Visits.{met};
ghost use Rattle.lookup_service.specs.replies.Walks.{Tells, Leads, Further};

use crate::replies::look_up::references_from;
use std::alloc::Global;
use type_object::visits::{Ids, Todo};
use type_registry::{Naming, Pass, Registry};
use type_trees::HashId;
use xt_lists::{OutOfMemory, Row};

/// The most objects that are met: 4,096, and as many as may be asked.
const MOST_VISITS: usize = 5120;

/// A walk through known objects: what is still to be tried, what was tried, and which of those were seen.
#[derive(Drop)]
struct Walk {
    todo: Todo,
    tried: Ids,
    seen: Row<HashId>,
}

impl Walk {
    /// Visits the next object that is known and new; false where none is left.
    fn step<'r, N: Naming>(
        &mut self,
        alloc: Global,
        registry: &'r Registry<N>,
        pass: &mut Pass<'r, N>,
    ) -> Result<bool, OutOfMemory>
        requires registry { pass.old.registry ≡ registry.now }
        requires tells { Tells (known pass.old) self.old.tried self.old.seen }
        ensures visits { IfOk result (λ more. IsTrue more → (n : ℕ) → Leads (known pass.new) self.new.tried (suc n) self.old.seen self.old.todo n self.new.seen self.new.todo) }
        ensures none { IfOk result (λ more. more ≡ false → (n : ℕ) → Leads (known pass.new) self.new.tried n self.old.seen self.old.todo 0 self.new.seen self.new.todo) }
        ensures tells { IfOk result (λ more. Tells (known pass.new) self.new.tried self.new.seen) }
        ensures further { IfOk result (λ more. Further (known pass.old) self.old.tried (known pass.new) self.new.tried) }
        ensures one { IfOk result (λ more. IsTrue more → length self.new.seen ≡ suc (length self.old.seen)) }
        ensures grows { Grows pass.old pass.new }
    {
        'tries: while let Some(id) = self.todo.take_first() {
            if self.tried.contains(&id) {
                continue;
            }
            self.tried.add(id)?;
            if let Some(references) = references_from(alloc, registry, pass, &id)? {
                self.todo.put_before(references.as_slice())?;
                self.seen.push(id)?;
                return Ok(true);
            }
        }
        Ok(false)
    }
}

/// The known objects that are met depth first from these identifiers, which the pass knows then.
pub(crate) fn visit<'r, N: Naming>(
    alloc: Global,
    registry: &'r Registry<N>,
    pass: &mut Pass<'r, N>,
    ids: &[HashId],
) -> Result<Row<HashId>, OutOfMemory>
    requires registry { pass.old.registry ≡ registry.now }
    ensures met { IfOk result (λ seen. seen ≡ met (known pass.new) 5120 ids.now) }
    ensures grows { Grows pass.old pass.new }
{
    let mut walk = Walk {
        todo: Todo::new(alloc),
        tried: Ids::new(alloc),
        seen: Row::new(alloc),
    };
    walk.todo.put_before(ids)?;
    'visits: while walk.seen.len() < MOST_VISITS {
        if !walk.step(alloc, registry, pass)? {
            return Ok(walk.seen);
        }
    }
    Ok(walk.seen)
}
