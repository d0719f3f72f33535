//! The command that serves objects to peers: a registry of the objects, and workers with a door and a pass each.

mod doors;
mod lines;
mod registering;
mod serving;

pub use serving::{serve_at, serve_pool};
