//! The JSON of values of DDS-XTypes, written and read by a type's tree (this profile's own). The premises here are the parts of
//! validity that each call needs: names that are texts, and a depth of at most 16. `dynamic_data` has the calls for valid types.
#![tactic(auto)]

mod faults;
mod indices;
mod leaves;
mod names;
mod objects;
mod read;
mod read_lists;
mod write;
mod write_lists;

pub use faults::{JsonRule, ValueFault};
pub use leaves::{literal_named, octets_fault};
pub use names::{is_named, key_of, text_of};
pub use read::read_json;
pub use write::write_json;
