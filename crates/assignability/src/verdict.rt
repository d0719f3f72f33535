ghost use Rattle.std.specs.Prelude.{◌≡◌, ◌<◌, [], ◌∷◌, length};

use type_trees::Path;
use xcdr_model::Rule;
use xt_shapes::Step;

/// Whether a reader's type is assignable from a writer's, or else the first rule that fails and where.
#[derive(Debug, Drop)]
pub enum Verdict {
    Yes,
    No {
        rule: Rule,
        /// From the top types to the pair at which the rule fails.
        path: Path,
    },
}

/// A rule that fails at a pair of types, or at a pair inside.
#[derive(Drop)]
pub(crate) struct Failure {
    pub(crate) rule: Rule,
    pub(crate) path: Path,
}

/// A rule that fails at the pair itself.
pub(crate) fn here(rule: Rule) -> Failure
    ensures rule { result.rule ≡ rule }
    ensures path { result.path ≡ [] }
{
    Failure {
        rule,
        path: Path::empty(),
    }
}

/// The same failure as the pair above sees it.
pub(crate) fn beneath(step: Step, failure: Failure) -> Failure
    requires { length failure.path < 16 }
    ensures rule { result.rule ≡ failure.rule }
    ensures path { result.path ≡ step ∷ failure.path }
{
    let Failure { rule, mut path } = failure;
    path.push_front(step);
    Failure { rule, path }
}
