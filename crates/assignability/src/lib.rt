//! When a reader's type is assignable from a writer's.
#![tactic(auto)]

mod delimited;
mod enums;
mod equal;
mod failures;
mod keys;
mod met;
mod tops;
mod verdict;
mod verdicts;

pub use equal::equivalent;
pub use verdict::Verdict;
pub use verdicts::{judge, judge_under};
pub use xcdr_model::{Policy, Rule};
