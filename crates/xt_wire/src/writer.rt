//! What samples are written with: octets and numbers that go to a sink, aligned from an origin.

mod digits;
mod writer;

pub use digits::{octets_of, raw};
pub use writer::Writer;
