ghost use Rattle.std.specs.Prelude.{◌≤◌};

use crate::inside::Inside;
use std::alloc::Global;
use type_object::Pool;

/// A node's place in the walk.
#[derive(Drop)]
pub(crate) struct Place<'a> {
    pub(crate) alloc: Global,
    pub(crate) pool: &'a Pool,
    pub(crate) inside: &'a Inside<'a>,
    /// How many levels of nodes there may be below it.
    pub(crate) levels: u32,
    ghost bounded: { levels ≤ 15 },
}
