//! What a push of objects to a peer tells: its requests and its outcomes by definition, and the laws on them (this profile's own).

mod laws;
mod told;

pub use laws::pushes_tell;
pub use told::{PushFault, Told, What};
