//! When a reader's type is assignable from a writer's (DDS-XTypes 1.3, 7.2.4), both given by their identifiers in a pool of TypeObjects.
//! No type is built: pairs of identifiers are examined, each once for a kind of examination.
#![tactic(auto)]

mod branches;
mod enums;
mod equal;
mod judge;
mod key_fit;
mod known;
mod pairs;
mod parts;
mod question;
mod stops;

pub use assignability::Verdict;
pub use judge::{judge_ids, judge_pairs, judge_pairs_under};
pub use pair_memo::Steps;
pub use xcdr_model::{Policy, Rule};
