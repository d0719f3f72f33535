//! IDL texts (OMG IDL 4.2 and DDS-XTypes 1.3, 7.3, in this profile): `declarations` gives the types that a text declares, or its first fault,
//! each with what it uses by place, and `parse` each as a tree; `print` gives the one text of a list of types.
#![tactic(auto)]

mod fitting;
mod known;
mod leading;
mod light;
mod measures;
mod numbers;
mod outlines;
mod reading;
mod standing;
mod trees;

pub use idl_input::IdlFault;
pub use idl_printer::print;
pub use idl_types::{Declaration, Declarations};
pub use outlines::print_declared;
pub use reading::{declarations, parse};
pub use trees::trees_of;
