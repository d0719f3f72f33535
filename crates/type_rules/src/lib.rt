//! The validity of types: the first of the rules V1 to V16 and V18 that a type breaks; V17 speaks of what a text or an object names as a
//! base. `faultless` has the laws on what a type without a fault keeps at its own node.
#![tactic(auto)]

mod depths;
pub mod faultless;
mod laws;
mod validity;

pub use depths::first_deep;
pub use laws::{is_within_limits, shape_keeps_rules};
pub use validity::{TypeFault, check_nodes, check_type, fault_here};
