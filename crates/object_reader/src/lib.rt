//! Reads the text of a TypeObject: the object, or the first fault with its place.
#![tactic(auto)]

mod bodies;
mod fields;
mod identifiers;
mod lists;
mod parts;
mod reader;

pub use bodies::read_object;
