//! Lists of items and of octets, and the answer for want of memory.
#![tactic(auto)]

mod memory;
mod rows;
mod texts;

pub use memory::OutOfMemory;
pub use rows::Row;
pub use texts::{Text, Word};
