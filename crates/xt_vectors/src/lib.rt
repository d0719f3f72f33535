//! Much input from one number: pairs of types, of which one has evolved into the other, each with a value that is judged, written and
//! read. How they are drawn is this profile's own.
#![tactic(auto)]

mod draws;
mod findings;
pub mod laws;
mod pairs;
mod plans;
mod readers;
mod runs;
mod types;
mod values;

pub use runs::{Summary, run};
