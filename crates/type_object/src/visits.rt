//! Identifiers of TypeObjects as sets and as lists that are taken from their front; and the definition of what is visited depth first
//! through the references of objects (this profile's own).

mod ids;
mod todo;

pub use ids::Ids;
pub use todo::Todo;
