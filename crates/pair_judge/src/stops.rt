ghost use Rattle.std.specs.Prelude.{◌≡◌, ◌+◌, ℕ, None};
ghost use Rattle.node_judge.specs.AtNode.{at_node};
ghost use Rattle.pair_judge.specs.Judged.{Says, IsShort};
ghost use Rattle.xcdr_model.specs.Failure as spec;

use type_trees::Path;
use xcdr_model::Rule;
use xt_lists::OutOfMemory;
use xt_shapes::Step;

/// Why an examination ends before its end.
#[derive(Drop)]
pub(crate) enum Stop {
    /// A rule fails, with the steps to the pair at which it does.
    Fails { rule: Rule, path: Path },
    OutOfMemory,
}

impl From<OutOfMemory> for Stop {
    ghost use Rattle.pair_judge.specs.declared.stops.Stop.TheVariants as stops;

    ghost from_gives = { λ _ stop. stop ≡ stops.OutOfMemory };

    fn from(_: OutOfMemory) -> Stop {
        Stop::OutOfMemory
    }
}

/// The rule, where it doesn't hold at the pair itself.
#[tactic(auto, using(node_judge::proofs::Failing::step_rules))]
pub(crate) fn rule(rule: Rule, holds: bool) -> Result<(), Stop>
    ensures says { Says result (spec.rule rule holds None) }
    ensures short { IsShort 1 result }
{
    if holds {
        return Ok(());
    }
    Err(Stop::Fails {
        rule,
        path: Path::empty(),
    })
}

/// The rule that fails at the pair itself, if one does.
pub(crate) fn here(found: Option<Rule>) -> Result<(), Stop>
    ensures says { Says result (at_node found) }
    ensures short { IsShort 1 result }
{
    match found {
        None => Ok(()),
        Some(rule) => Err(Stop::Fails {
            rule,
            path: Path::empty(),
        }),
    }
}

/// What was found a step below, as the pair above sees it.
#[tactic(auto, using(node_judge::proofs::Failing::step_rules))]
pub(crate) fn beneath(step: Step, found: Result<(), Stop>) -> Result<(), Stop>
    requires { IsShort 16 found }
    ensures says { (first : spec.First) → Says found first → Says result (spec.step step first) }
    ensures short { (n : ℕ) → IsShort n found → IsShort (n + 1) result }
{
    match found {
        Err(Stop::Fails { rule, mut path }) => {
            path.push_front(step);
            Err(Stop::Fails { rule, path })
        }
        other => other,
    }
}
