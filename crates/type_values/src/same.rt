//! Whether two types are the same in all that they say.

mod leaves;
mod types;

pub use types::same_type;
