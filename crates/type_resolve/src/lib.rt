//! Types and their TypeObjects (DDS-XTypes 1.3, 7.3.4): the objects of a type, and of the types that a text declares, and the type of an
//! identifier.
#![tactic(auto)]

mod adding;
mod collections;
mod declared;
mod defining;
mod definitions;
mod flags;
mod heads;
mod laws;
mod making;
mod numbers;
mod objects;
mod parts;
mod sides;
mod uses;
mod walk;

pub use declared::objects_declared;
pub use defining::{has_objects, objects_of};
pub use laws::{added_are_held, objects_are_in, resolves_again};
pub use object_walks::{ResolveFault, resolve};
pub use sides::Identifiers;
