use pair_memo::Reach;
use std::alloc::Global;
use type_object::Pool;
use xcdr_model::Policy;
use xt_shapes::Rep;

/// What is asked of each pair in a pool.
#[derive(Drop)]
pub(crate) struct Question<'p> {
    pub(crate) alloc: Global,
    pub(crate) policy: &'p Policy,
    pub(crate) rep: Rep,
    pub(crate) pool: &'p Pool,
    /// What the reader's identifier reaches.
    pub(crate) lefts: &'p Reach,
    /// What the writer's identifier reaches.
    pub(crate) rights: &'p Reach,
}
