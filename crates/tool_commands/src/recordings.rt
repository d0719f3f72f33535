//! Recordings as bundles of a program: samples written as they are behind the objects of their type, and what a reader's type makes of them.

mod lines;
mod recorded;
mod refusals;
mod replays;

pub use recorded::Recorded;
pub use replays::Replays;
