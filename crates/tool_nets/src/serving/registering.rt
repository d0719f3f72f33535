//! The objects of a pool in a registry.
ghost use Rattle.std.specs.Prelude.{◌≡◌, IfOk, IfErr};
ghost use Rattle.type_object.specs.Names.{named};
ghost use Rattle.type_object.specs.Pools.{IsObject};
ghost use Rattle.tool_nets.specs.serving.Registering.{Holds, IsOfEntry, IsUnregistered, IsWhy};

use std::alloc::Global;
use type_object::Pool;
use type_registry::{Finding, Kept, Md5Naming, Pass, RegisterFault, Registry, Trail};
use type_trees::HashId;
use xt_lists::Row;

/// A registry, and where the objects of a pool were found in it, in order.
#[derive(Drop)]
pub(crate) struct Known<'r> {
    pub(crate) registry: &'r Registry<Md5Naming>,
    pub(crate) findings: Row<Finding<'r, Md5Naming>>,
}

/// Why the objects of a pool are not all in a registry.
#[derive(Drop)]
pub(crate) enum Unregistered<'r> {
    /// Other octets stand under the identifier of one of them.
    Clash(Finding<'r, Md5Naming>),
    /// All probed cells of the identifier of one of them hold others.
    Full {
        id: HashId,
        trail: Trail<'r, Md5Naming>,
    },
    OutOfMemory,
}

fn register_one<'r>(
    alloc: Global,
    registry: &'r Registry<Md5Naming>,
    pass: &mut Pass<'r, Md5Naming>,
    id: HashId,
    octets: &[u8],
) -> Result<Finding<'r, Md5Naming>, Unregistered<'r>>
    requires pass { pass.old.registry ≡ registry.now }
    requires own { id ≡ named octets.now }
    requires object { IsObject octets.now }
    ensures found { IfOk result (IsOfEntry registry.now (id, octets.now)) }
    ensures refused { IfErr result (IsWhy (id, octets.now)) }
    ensures pass { pass.new.registry ≡ registry.now }
{
    match registry.register(alloc, pass, octets) {
        Ok(Kept::Added(finding)) => Ok(finding),
        Ok(Kept::Known(finding)) => Ok(finding),
        Err(RegisterFault::Clash(finding)) => Err(Unregistered::Clash(finding)),
        Err(RegisterFault::Full(trail)) => Err(Unregistered::Full { id, trail }),
        Err(RegisterFault::NotAnObject(_)) => unreachable!(),
        Err(RegisterFault::OutOfMemory) => Err(Unregistered::OutOfMemory),
    }
}

/// Puts the objects of a pool into a registry, one after another, up to the first that is refused.
pub(crate) fn register_all<'r>(
    alloc: Global,
    registry: &'r Registry<Md5Naming>,
    pool: &Pool,
) -> Result<Known<'r>, Unregistered<'r>>
    ensures known { IfOk result (λ known. Holds known.registry.now pool.now known.findings) }
    ensures refused { IfErr result (IsUnregistered pool.now) }
{
    let mut pass = registry.pass(alloc);
    let mut findings = Row::new(alloc);
    for index in 0..pool.len() {
        let entry = pool.at(index);
        let finding = match register_one(alloc, registry, &mut pass, entry.id, entry.octets) {
            Ok(finding) => finding,
            Err(why) => return Err(why),
        };
        match findings.push(finding) {
            Ok(()) => {}
            Err(_) => return Err(Unregistered::OutOfMemory),
        }
    }
    Ok(Known { registry, findings })
}
