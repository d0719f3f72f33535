//! Handles that C keeps, over boxes as pointers: types are opened into one and readers among them into the other, and samples are read,
//! converted and written with what a handle holds.
#![tactic(auto)]

mod boxes;
mod held_reader;
mod held_types;
mod opening;
mod samples;

pub use held_reader::ReaderHandle;
pub use held_types::TypesHandle;
pub use opening::{hand_stop, keep_types, open_reader};
pub use samples::{convert_in, read_in, write_in};
