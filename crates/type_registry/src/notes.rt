//! What was read in cells that are set once, as a value that threads may share.

mod knowledge;

pub use knowledge::Knowledge;
