//! The front of a bundle: its leading Object and Idl records, whole, and where its body begins (this profile's own).

mod front;

pub use front::{Front, read_front};
