//! Definitions of an IDL text, from their keywords on (OMG IDL 4.2, 7.4, in this profile): structures, unions, enumerations, bitmasks and
//! typedefs.
#![tactic(auto)]

mod literals;
mod made;
mod members;
mod numbered;
mod settings;
mod structures;
mod unions;

pub use made::Made;
pub use numbered::{bitmask_def, enum_def};
pub use settings::{Settings, settings_of};
pub use structures::{struct_def, typedef_def};
pub use unions::union_def;
