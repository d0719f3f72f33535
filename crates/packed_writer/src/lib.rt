//! Samples of packed values, appended as octets (DDS-XTypes 1.3, 7.4 and 7.6.3.1.2), little-endian.
//!
//! What is written is the one spelling that the definitions write. None says nothing: the general writer tells.
#![tactic(auto)]

mod body;
mod leaves;
mod numbers;
mod params;
mod samples;
mod writing;

pub use samples::write_plain;
