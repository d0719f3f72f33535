//! A value as it once was, for proofs alone.

mod seen;

pub use seen::Seen;
