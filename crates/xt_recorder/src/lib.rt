//! Recordings: samples beside the objects of their types, and what a reader with another type makes of them later (this profile's own).
#![tactic(auto)]

mod closing;
mod found;
pub mod laws;
mod replayed;
mod replayer;
mod streams;
mod taking;
mod writing;

pub use closing::closed;
pub use replayed::{ReplayFault, Replayed};
pub use replayer::Replayer;
pub use streams::stream_text;
pub use writing::{StreamFault, write_stream};
