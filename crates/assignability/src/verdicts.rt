ghost use Rattle.std.specs.Prelude.{◌≡◌, ◌≤◌, ◌↔◌, IsTrue, None};
ghost use Rattle.assignability.specs.Views.{failure_view, verdict_view};
ghost use Rattle.type_rules.specs.Places.{depth};
ghost use Rattle.type_trees.specs.Bridge.{type_shape};
ghost use Rattle.type_trees.specs.View.{tree};
ghost use Rattle.xcdr_model.specs.Assignable.{Assignable};
ghost use Rattle.xcdr_model.specs.Failure as spec;
ghost use Rattle.xcdr_model.specs.Policies.{standard};
ghost use Rattle.xt_shapes.specs.NodeRules.{rules_hold};

use crate::equal::equivalent;
use crate::failures::failure;
use crate::verdict::{Failure, Verdict, here};
use node_judge::asks_equal;
use type_trees::XType;
use xcdr_model::{Policy, Rule};
use xt_shapes::Rep;

/// The first rule that fails between top types.
#[tactic(auto, using(node_judge::proofs::Failing::step_rules))]
fn first_failure(policy: &Policy, rep: Rep, t1: &XType, t2: &XType) -> Option<Failure>
    requires { depth (tree t1.now) ≤ 16 }
    ensures { failure_view result ≡ spec.first_failure policy.now rep (type_shape t1.now) (type_shape t2.now) }
{
    if asks_equal(policy) && !equivalent(t1, t2) {
        return Some(here(Rule::Coercion));
    }
    failure(policy, rep, true, t1, t2)
}

/// Whether the reader's type `t1` is assignable from the writer's type `t2` (DDS-XTypes 1.3, 7.2.4) under the reader's policy
/// and a representation of samples, or else the first rule that fails and where. It takes no memory and has no refusal.
///
/// The condition is validity rule V15 of the reader's type alone: a path has no more than 16 steps.
pub fn judge_under(policy: &Policy, rep: Rep, t1: &XType, t2: &XType) -> Verdict
    requires { depth (tree t1.now) ≤ 16 }
    ensures first { verdict_view result ≡ spec.first_failure policy.now rep (type_shape t1.now) (type_shape t2.now) }
    ensures yes { IsTrue (rules_hold (type_shape t1.now)) → (verdict_view result ≡ None) ↔ Assignable policy.now rep (type_shape t1.now) (type_shape t2.now) }
{
    match first_failure(policy, rep, t1, t2) {
        None => Verdict::Yes,
        Some(Failure { rule, path }) => Verdict::No { rule, path },
    }
}

/// `judge_under` the standard policy.
pub fn judge(rep: Rep, t1: &XType, t2: &XType) -> Verdict
    requires { depth (tree t1.now) ≤ 16 }
    ensures first { verdict_view result ≡ spec.first_failure standard rep (type_shape t1.now) (type_shape t2.now) }
    ensures yes { IsTrue (rules_hold (type_shape t1.now)) → (verdict_view result ≡ None) ↔ Assignable standard rep (type_shape t1.now) (type_shape t2.now) }
{
    judge_under(&Policy::standard(), rep, t1, t2)
}
