//! Types from the objects of a pool (DDS-XTypes 1.3, 7.3.4): an identifier's object is followed to the objects that it refers to.
#![tactic(auto)]

mod inside;
mod laws;
mod leaves;
mod nodes;
mod place;
mod resolving;
mod stops;
mod structure_parts;
mod walk;

pub use laws::{parts_are_walked, resolved_is_walked, tree_is_one};
pub use leaves::{ext_of, has_flag, in_octet, try_of};
pub use resolving::{ResolveFault, resolve};
