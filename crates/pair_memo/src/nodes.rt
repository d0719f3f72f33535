//! What an identifier stands for in a pool of TypeObjects (DDS-XTypes 1.3, 7.3.4): one level of its type behind its aliases, with the
//! members that a structure has from its bases, and the identifiers of the parts.

mod laws;
mod nodes;
mod parts;
mod places;
mod views;

pub use laws::resolved_is_seen;
pub use nodes::{Node, cases_of, members_of, node_of};
pub use parts::{Arm, Part};
pub use places::{arm_at, part_at};
