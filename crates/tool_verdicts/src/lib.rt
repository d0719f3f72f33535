//! The types that commands run on: named among what a front declares, and assignable where two are.
#![tactic(auto)]

mod judging;
mod laws;
mod verdicts;
pub mod versions;

pub use judging::{Side, Terms, verdict_on};
pub use laws::named_are_valid;
pub use verdicts::{assignable, id_and_pool, reader_type, top_and_pool, top_type};
