//! The JSON of values, packed or as trees, appended as octets by a plan that is made once of a type.
#![tactic(auto)]

mod bits;
mod block;
mod digits;
mod numbers;
mod plan;
mod sinks;
mod tapes;
mod texts;
mod trees;
mod writing;

pub use plan::{Plan, PlannedMap, PlannedMember, PlannedUnion, plan_of};
pub use tapes::read_taped;
pub use trees::write_tree;
pub use writing::write_value;
