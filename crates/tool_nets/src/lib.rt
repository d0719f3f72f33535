//! The commands over a net: those that ask a peer (`clients`) and the one that serves (`serving`), with what they have in common: the bundle
//! that they read first, and how they end where the net failed.
#![tactic(auto)]

pub mod clients;
mod faults;
mod opening;
pub mod serving;

pub use faults::end_failed;
pub use opening::open_pool;
