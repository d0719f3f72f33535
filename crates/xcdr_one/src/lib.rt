//! Samples in XCDR1 (extended CDR, encoding version 1: DDS-XTypes 1.3, 7.4.1 and 7.6.3.1.2), under one name: values and samples of octets,
//! and octets of values and samples. The crate gathers what the crates below it have; their own pages say how each is defined and proved.
#![tactic(auto)]

pub use xcdr_reader::decode1;
pub use xcdr_samples::read_sample1;
pub use xcdr_writer::written::{encode1, size1, write_sample1};
