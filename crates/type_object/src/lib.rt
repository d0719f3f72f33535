//! TypeObjects and their identifiers (DDS-XTypes 1.3, 7.3.4): the types that an object refers to, pools of objects, and in `visits` what is
//! met from an object. The objects themselves come from `object_formats`, `object_reader` and `object_writer`.
#![tactic(auto)]

mod entry;
mod gathering;
mod identifiers;
mod pool;
pub mod visits;

pub use gathering::{references, row_of};
pub use identifiers::{hash_of, kind_of, named};
pub use object_formats::{
    Fault, ObjectCase, ObjectFault, ObjectFlag, ObjectLiteral, ObjectMember, ObjectRule,
    TypeIdentifier, TypeObject, ek_of, is_complete,
};
pub use object_reader::read_object;
pub use object_writer::write_object;
pub use pool::{Pool, PoolEntry, PoolFault};
