//! The seat of a worker.
use type_registry::{Naming, Pass};
use xt_io::Door;

/// What a worker serves with: a door where its links come in, and its pass of the registry.
#[derive(Drop)]
pub struct Seat<'r, N: Naming, D: Door> {
    pub door: D,
    pub pass: Pass<'r, N>,
}
