//! Two sides that hand each other their objects, step by step.

mod laws;
mod pair;

pub use laws::pairs_agree;
pub use pair::{Gave, Give, Pair, Side};
