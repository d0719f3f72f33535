//! What an IDL text declares has names in full, and comes back from its complete objects.

mod defining;
mod laws;

pub use defining::parsed_has_objects;
pub use laws::{parsed_is_named, parsed_resolves};
