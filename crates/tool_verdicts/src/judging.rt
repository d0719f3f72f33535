ghost use Rattle.std.specs.Prelude.{◌≡◌, Ok, IfOk};
ghost use Rattle.type_trees.specs.View.{tree};
ghost use Rattle.type_trees.specs.Bridge.{type_shape};
ghost use Rattle.assignability.specs.Views.{verdict_view};
ghost use Rattle.xcdr_model.specs.Failure.{first_failure};
ghost use Rattle.object_walks.specs.Resolving.{resolved};

use assignability::Verdict;
use pair_judge::judge_ids;
use std::alloc::Global;
use type_object::Pool;
use type_trees::{HashId, XType};
use xcdr_model::Policy;
use xt_lists::OutOfMemory;
use xt_shapes::Rep;

/// Under which representation and policy types are judged.
#[derive(Clone, Copy)]
pub struct Terms {
    pub rep: Rep,
    pub policy: Policy,
}

/// A reader's or a writer's type, and the identifier that resolves to it.
#[derive(Clone, Copy)]
pub struct Side<'a> {
    pub id: HashId,
    pub ty: &'a XType,
}

/// Whether a reader's type is assignable from a writer's. They are judged by their objects in the pool, so that a type that stands at many places is
/// looked at once.
pub fn verdict_on(
    alloc: Global,
    terms: &Terms,
    pool: &Pool,
    reader: &Side<'_>,
    writer: &Side<'_>,
) -> Result<Verdict, OutOfMemory>
    requires reader { resolved pool.now reader.now.id ≡ Ok (tree reader.now.ty.now) }
    requires writer { resolved pool.now writer.now.id ≡ Ok (tree writer.now.ty.now) }
    ensures { IfOk result (λ v. verdict_view v ≡ first_failure terms.now.policy terms.now.rep (type_shape reader.now.ty.now) (type_shape writer.now.ty.now)) }
{
    judge_ids(
        alloc,
        &terms.policy,
        terms.rep,
        pool,
        &reader.id,
        &writer.id,
    )
}
