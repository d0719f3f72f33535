//! How large types are: elements of an array, weight, and nodes.

mod nodes;
mod weights;

pub use nodes::capped_nodes;
pub use weights::{TOO_MANY, capped_weight, elements_of, weight};
