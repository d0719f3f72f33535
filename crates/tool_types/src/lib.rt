//! The types that a front declares, and the pool of their objects; in `names` what words name among them.
#![tactic(auto)]

mod declaring;
mod laws;
pub mod names;
mod refusals;

pub use declaring::{Declared, declare};
pub use laws::declared_comes_back;
pub use refusals::{refuse_pool, refuse_types};
