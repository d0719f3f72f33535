//! The rules of DDS-XTypes 1.3 as definitions over types and values: projection, readings and spellings in XCDR2 and XCDR1,
//! samples, assignability with its first failure, and keys. The crate's code is the few types that they name; its `specs/` are
//! short enough to be read aloud, and worked examples there are checked by computation.
#![tactic(auto)]

mod malformed;
mod verdict;

pub use malformed::{Fault, Why};
pub use verdict::{Policy, Rule};
