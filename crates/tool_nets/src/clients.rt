//! The commands that ask a peer over the net: an object and all that it refers to, and what becomes of objects that are pushed.

mod fetching;
mod mirroring;
mod saying;

pub use fetching::fetch_from;
pub use mirroring::{mirror_objects, mirror_to, objects_of};
