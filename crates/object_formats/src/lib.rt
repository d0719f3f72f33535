//! TypeObjects and the identifiers in them, as the program holds them, and whether they are well formed; in `specs/` their one text, field
//! by field, and in `proofs/` the law that an object's text is read as that object, and that a text that is read is the object's.
//! (DDS-XTypes 1.3, 7.3.4 and annex B. The layout of the octets is this profile's own.)
#![tactic(auto)]

mod codes;
mod faults;
mod objects;
mod parts;
mod well_formed;

pub use codes::{Code, Flags, Kind, any_large, ek_of, is_complete, is_plain, own_kind};
pub use faults::{Fault, ObjectFault, ObjectRule};
pub use objects::{
    ObjectCase, ObjectFlag, ObjectLiteral, ObjectMember, TypeIdentifier, TypeObject,
};
pub use parts::Part;
pub use well_formed::{allows, has_nul, is_well_formed};
