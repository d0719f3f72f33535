//! Octets of samples at places: the cursors that decoders read with and the writer that encoders write with, each in a module, and the
//! numbers that both have (DDS-XTypes 1.3, 7.4).
#![tactic(auto)]

pub mod cursor;
pub mod numbers;
pub mod seen;
pub mod streams;
pub mod writer;

pub use crate::cursor::{Cursor, CutFault, DecodeFault, Outer, SliceCursor};
pub use crate::streams::StreamCursor;
pub use crate::writer::Writer;
pub use xcdr_model::Why;
