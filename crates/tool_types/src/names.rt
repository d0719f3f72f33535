//! What words name among the types of a front.

mod meanings;
mod named;
mod refusals;

pub use meanings::{DeclaredType, Meaning, meant};
pub use named::{NamedType, id_named, pair_named, top_named, type_named};
pub use refusals::{refuse_top, refuse_walk};
