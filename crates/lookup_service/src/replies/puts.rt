ghost use Rattle.std.specs.Prelude.{◌≡◌, ◌≤◌, length, IfOk};
ghost use Rattle.std.specs.List.{All};
ghost use Rattle.type_registry.specs.Passed.{known, Grows};
ghost use Rattle.lookup_service.specs.replies.Replies.{IsOutcome, AreOutcomes};

use std::alloc::Global;
use type_registry::{Kept, Naming, Pass, RegisterFault, Registry};
use xt_lists::{OutOfMemory, Text};

/// Registers an object, and says what became of it.
fn put<'r, N: Naming>(
    alloc: Global,
    registry: &'r Registry<N>,
    pass: &mut Pass<'r, N>,
    object: &Text,
) -> Result<u8, OutOfMemory>
    requires registry { pass.old.registry ≡ registry.now }
    ensures outcome { IfOk result (λ outcome. IsOutcome N.name (known pass.old) pass.new object.now outcome) }
    ensures grows { Grows pass.old pass.new }
{
    match registry.register(alloc, pass, object.octets()) {
        Ok(Kept::Added(_)) => Ok(0),
        Ok(Kept::Known(_)) => Ok(1),
        Err(RegisterFault::NotAnObject(_)) => Ok(2),
        Err(RegisterFault::Clash(other)) => {
            registry.remember(pass, &other)?;
            Ok(3)
        }
        Err(RegisterFault::Full(_)) => Ok(4),
        Err(RegisterFault::OutOfMemory) => Err(OutOfMemory),
    }
}

/// Registers objects in order, and says what became of each.
pub(crate) fn outcomes<'r, N: Naming>(
    alloc: Global,
    registry: &'r Registry<N>,
    pass: &mut Pass<'r, N>,
    objects: &[Text],
) -> Result<Text, OutOfMemory>
    requires registry { pass.old.registry ≡ registry.now }
    ensures outcomes { IfOk result (λ outcomes. AreOutcomes N.name (known pass.old) pass.new objects.now outcomes) }
    ensures grows { Grows pass.old pass.new }
    ensures each { IfOk result (λ outcomes. All (λ outcome. outcome ≤ 4) outcomes) }
    ensures count { IfOk result (λ outcomes. length outcomes ≡ length objects.now) }
{
    let mut outcomes = Text::new(alloc);
    'objects: for object in objects {
        outcomes.push(put(alloc, registry, pass, object)?)?;
    }
    Ok(outcomes)
}
