//! Samples read into packed values, which lend numbers and texts from the octets that they were read from (DDS-XTypes 1.3, 7.4).
//!
//! A value that is read is the value that the definition reads, whole and undamaged. None says nothing: the general reader tells.
#![tactic(auto)]

mod ahead;
mod leaves;
mod lists;
mod numbers;
mod pieces;
mod plain;
mod reading;
mod samples;
mod values;

pub use plain::{may_be_plain, may_be_taped};
pub use samples::read_plain;
pub use values::{Numbers, OwnNumbers, Packed, PackedSlot, PackedUnion};
