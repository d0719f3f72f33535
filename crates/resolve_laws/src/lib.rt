//! Laws of types and their objects: a valid type with names comes back from its complete objects, and in `parsed`, so does each type that an
//! IDL text declares.
#![tactic(auto)]

mod laws;
mod names;
pub mod parsed;

pub use laws::{objects_are_well_formed, parts_resolve, resolves_to_itself, valid_resolves};
pub use names::is_named;
