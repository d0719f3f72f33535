//! The rules of valid types at one node of a type, and which numbers a primitive and an enumeration have; in `distinct` whether the
//! numbers of a list are distinct. Nothing here takes memory.
#![tactic(auto)]

pub mod distinct;
mod keys;
mod kinds;
mod labels;
mod literals;
mod nodes;
mod numbered;
mod numbers;
mod octets;
mod weights;

pub use keys::keyable;
pub use kinds::{is_discriminator, is_map_key};
pub use nodes::{dims_fit, failing_rule};
pub use numbers::{has_literal, is_of_prim};
pub use octets::{is_scoped, name_fits, scope_fits};
pub use weights::is_light;
