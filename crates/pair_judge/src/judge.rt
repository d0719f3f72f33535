ghost use Rattle.std.specs.Prelude.{◌≡◌, ◌<◌, IfOk, IsOk, IsTrue, All};
ghost use Rattle.assignability.specs.Views.{verdict_view};
ghost use Rattle.object_formats.specs.Objects.{hash};
ghost use Rattle.pair_memo.specs.nodes.Seen.{shape_in, is_seen};
ghost use Rattle.object_walks.specs.Laws.{IsReached};
ghost use Rattle.object_walks.specs.Resolving.{resolved};
ghost use Rattle.pair_judge.specs.Judged.{Says, IsFew};
ghost use Rattle.pair_judge.specs.Judged as judged;
ghost use Rattle.xcdr_model.specs.Failure.{first_failure};
ghost use Rattle.xcdr_model.specs.Policies.{standard};

use crate::question::Question;
use crate::stops::Stop;
use assignability::Verdict;
use object_formats::TypeIdentifier;
use pair_memo::{Memo, Reach, Steps};
use std::alloc::Global;
use std::marker::Brand;
use std::sync::ledger::{Blank, Ledger};
use type_object::Pool;
use type_trees::HashId;
use xcdr_model::Policy;
use xt_lists::OutOfMemory;
use xt_shapes::Rep;

/// What fails first between the types of two identifiers, of which each reaches these.
#[tactic(auto, using(crate::proofs::Few::begun))]
fn examined<L: Ledger>(
    alloc: Global,
    policy: &Policy,
    rep: Rep,
    pool: &Pool,
    lefts: &Reach,
    rights: &Reach,
    id1: &HashId,
    id2: &HashId,
    steps: &mut Steps<L>,
) -> Result<(), Stop>
    requires reader { IsTrue (is_seen pool.now (hash id1.now)) }
    requires writer { IsTrue (is_seen pool.now (hash id2.now)) }
    requires lefts { All (λ id. IsReached pool.now id1.now id) lefts.now }
    requires rights { All (λ id. IsReached pool.now id2.now id) rights.now }
    ensures says { Says result (first_failure policy.now rep (shape_in pool.now (hash id1.now)) (shape_in pool.now (hash id2.now))) }
    ensures bound { IsFew pool.now id1.now id2.now steps.old steps.new }
{
    let mut memo = Memo::new(alloc);
    let question = Question {
        alloc,
        policy,
        rep,
        pool,
        lefts,
        rights,
    };
    let left = TypeIdentifier::Hash(*id1);
    let right = TypeIdentifier::Hash(*id2);
    question.first(&mut memo, steps, &left, &right, id1, id2)
}

fn verdict_of(found: Result<(), Stop>) -> Result<Verdict, OutOfMemory>
    ensures { judged.Tells found result }
{
    match found {
        Ok(()) => Ok(Verdict::Yes),
        Err(Stop::Fails { rule, path }) => Ok(Verdict::No { rule, path }),
        Err(Stop::OutOfMemory) => Err(OutOfMemory),
    }
}

/// Whether the reader's type, that of the identifier `id1`, is assignable from the writer's, that of `id2`, under the reader's policy and a
/// representation of samples, or else the first rule that fails and where: the verdict of `judge_under` on the types that the identifiers
/// resolve to. It builds no type.
///
/// A step is one examination of a pair of identifiers. There are at most four times as many as there are pairs of an identifier that `id1`
/// reaches and one that `id2` reaches, themselves included.
#[tactic(auto, using(crate::proofs::Verdicts::seen))]
pub fn judge_pairs_under<L: Ledger>(
    alloc: Global,
    policy: &Policy,
    rep: Rep,
    pool: &Pool,
    id1: &HashId,
    id2: &HashId,
    steps: &mut Steps<L>,
) -> Result<Verdict, OutOfMemory>
    requires reader { IsOk (resolved pool.now id1.now) }
    requires writer { IsOk (resolved pool.now id2.now) }
    ensures verdict { IfOk result (λ v. judged.IsVerdict policy.now rep (resolved pool.now id1.now) (resolved pool.now id2.now) (verdict_view v)) }
    ensures bound { IsFew pool.now id1.now id2.now steps.old steps.new }
{
    let lefts = Reach::gather(alloc, pool, id1)?;
    let rights = Reach::gather(alloc, pool, id2)?;
    verdict_of(examined(alloc, policy, rep, pool, &lefts, &rights, id1, id2, steps))
}

/// `judge_pairs_under` the standard policy.
pub fn judge_pairs<L: Ledger>(
    alloc: Global,
    rep: Rep,
    pool: &Pool,
    id1: &HashId,
    id2: &HashId,
    steps: &mut Steps<L>,
) -> Result<Verdict, OutOfMemory>
    requires reader { IsOk (resolved pool.now id1.now) }
    requires writer { IsOk (resolved pool.now id2.now) }
    ensures verdict { IfOk result (λ v. judged.IsVerdict standard rep (resolved pool.now id1.now) (resolved pool.now id2.now) (verdict_view v)) }
    ensures bound { IsFew pool.now id1.now id2.now steps.old steps.new }
{
    judge_pairs_under(alloc, &Policy::standard(), rep, pool, id1, id2, steps)
}

// The verdict, with steps that begin at a blank.
fn from_blank<L: Ledger>(
    alloc: Global,
    policy: &Policy,
    rep: Rep,
    pool: &Pool,
    id1: &HashId,
    id2: &HashId,
    blank: Blank,
) -> Result<Verdict, OutOfMemory>
    requires name { blank.name ≡ L.name }
    requires parts { blank.parts ≡ L.parts }
    requires some { 0 < L.parts }
    requires reader { IsOk (resolved pool.now id1.now) }
    requires writer { IsOk (resolved pool.now id2.now) }
    ensures { IfOk result (λ v. judged.IsVerdict policy.now rep (resolved pool.now id1.now) (resolved pool.now id2.now) (verdict_view v)) }
{
    let mut steps = Steps::<L>::new(blank);
    judge_pairs_under(alloc, policy, rep, pool, id1, id2, &mut steps)
}

/// `judge_pairs_under`, where nobody counts the steps.
pub fn judge_ids(
    alloc: Global,
    policy: &Policy,
    rep: Rep,
    pool: &Pool,
    id1: &HashId,
    id2: &HashId,
) -> Result<Verdict, OutOfMemory>
    requires reader { IsOk (resolved pool.now id1.now) }
    requires writer { IsOk (resolved pool.now id2.now) }
    ensures { IfOk result (λ v. judged.IsVerdict policy.now rep (resolved pool.now id1.now) (resolved pool.now id2.now) (verdict_view v)) }
{
    from_blank::<Brand>(alloc, policy, rep, pool, id1, id2, Blank::new(1))
}
