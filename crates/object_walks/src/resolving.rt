ghost use Rattle.std.specs.Prelude.{◌≡◌, IfOk, IfErr, Ok};
ghost use Rattle.type_trees.specs.View.{tree};
ghost use Rattle.object_walks.specs.Resolving as spec;
ghost use Rattle.object_walks.specs.Walking.{Refuses, RefusesStop};

use crate::stops::Stop;
use crate::walk::walk_from;
use std::alloc::Global;
use thiserror::Error;
use type_object::Pool;
use type_rules::{TypeFault, check_type};
use type_trees::{HashId, Path, XType};

/// Why an identifier has no type.
#[derive(Debug, Drop, Error)]
pub enum ResolveFault {
    /// The pool lacks this identifier, the first in the order of the walk.
    #[error("the pool lacks {0}")]
    Missing(HashId),
    /// This identifier is met inside itself.
    #[error("{0} is met inside itself")]
    Recursive(HashId),
    /// The type of the asked identifier breaks a rule of valid types.
    #[error("the type of {id} breaks the rule V{} at {}", .fault.rule, .fault.node)]
    Invalid { id: HashId, fault: TypeFault },
    #[error("memory was wanting")]
    OutOfMemory,
}

/// The type that an identifier stands for in a pool (DDS-XTypes 1.3, 7.3.4). Its object is followed to those that it refers to in the
/// order of their texts, depth first: a base before the members, the value of a map before its key.
///
/// The walk ends at the first `Missing` or `Recursive`. It also ends, with `Invalid`, at the first node with 16 above it (V15) or with
/// 65,536 before it (V16), at a base that is no structure of the same extensibility (V17), and at a 16th base of one structure (V18);
/// such a node or base is not looked up. V16 and V17 come with an empty path. Where it doesn't end early, the whole type is checked.
pub fn resolve(alloc: Global, pool: &Pool, id: &HashId) -> Result<XType, ResolveFault>
    ensures ok { IfOk result (λ ty. spec.resolved pool.now id.now ≡ Ok (tree ty)) }
    ensures err { IfErr result (λ fault. Refuses fault (spec.resolved pool.now id.now)) }
{
    match walk_from(alloc, pool, id) {
        Ok(ty) => checked(ty, id),
        Err(stop) => Err(refused(stop, id)),
    }
}

/// The type, where it breaks no rule.
fn checked(ty: XType, id: &HashId) -> Result<XType, ResolveFault>
    ensures ok { IfOk result (λ t. spec.settled id.now (Ok (tree ty)) ≡ Ok (tree t)) }
    ensures err { IfErr result (λ fault. Refuses fault (spec.settled id.now (Ok (tree ty)))) }
{
    match check_type(&ty) {
        Ok(()) => Ok(ty),
        Err(fault) => Err(ResolveFault::Invalid { id: *id, fault }),
    }
}

fn refused(stop: Stop, id: &HashId) -> ResolveFault
    ensures { RefusesStop result id.now stop }
{
    let asked = *id;
    match stop {
        Stop::Missing(id) => ResolveFault::Missing(id),
        Stop::Recursive(id) => ResolveFault::Recursive(id),
        Stop::AtNode(fault) => ResolveFault::Invalid { id: asked, fault },
        Stop::OfWhole(rule) => ResolveFault::Invalid {
            id: asked,
            fault: TypeFault {
                rule,
                node: Path::empty(),
            },
        },
        Stop::OutOfMemory => ResolveFault::OutOfMemory,
    }
}
