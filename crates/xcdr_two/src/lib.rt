//! XCDR2 (extended CDR, encoding version 2: DDS-XTypes 1.3, 7.4.2 and 7.4.3): values and samples of octets, and octets of values and
//! samples. The crate gathers what the crates below it have; their own pages say how each is defined and proved.
#![tactic(auto)]

pub use xcdr_reader::decode2;
pub use xcdr_samples::read_sample2;
pub use xcdr_writer::written::{encode_value, encode2, size2, write_sample2};
