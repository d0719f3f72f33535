//! A link in memory to the service itself, by which calls that ask a peer are run without one (this profile's own).

mod exchange;
mod links;

pub use links::LoopLink;
