//! The last values of each key, from the samples of a body, and the lines of them at its end.

mod held;
mod keeping;
mod laws;
mod lines;
mod putting;

pub use held::{Held, LastSamples};
pub use laws::keeps_last;
