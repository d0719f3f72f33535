//! Writes the one text of a TypeObject.
#![tactic(auto)]

mod bodies;
mod fields;
mod identifiers;
mod lists;
mod parts;
mod writer;

pub use bodies::write_object;
