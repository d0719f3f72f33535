//! Whole samples read in XCDR1 and XCDR2 (DDS-XTypes 1.3, 7.4 and 7.6.3.1.2), by the reader's type alone; in `frames` what stands before and
//! behind a sample's body.
#![tactic(auto)]

pub mod frames;
mod samples;

pub use samples::{read_guided, read_sample, read_sample1, read_sample2};
