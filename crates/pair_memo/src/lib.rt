//! What an examination of pairs of identifiers keeps: which identifiers each side reaches, what was found of each pair, and how many
//! pairs were examined; in `nodes` what an identifier stands for in a pool.
#![tactic(auto)]

mod laws;
mod memo;
pub mod nodes;
mod reach;
mod steps;

pub use laws::notes_are_few;
pub use memo::{Kind, Memo, Pair, State};
pub use reach::Reach;
pub use steps::Steps;
