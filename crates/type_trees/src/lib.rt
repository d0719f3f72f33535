//! The types and values of DDS-XTypes as the program holds them, and in `specs/` what they stand for: plain trees, and through them
//! the shapes that decoding sees. `samples` says which types samples have at the top, and `sizes` how large types are.
#![tactic(auto)]

mod cases;
mod hashes;
mod ids;
mod kinds;
mod names;
mod path;
pub mod samples;
pub mod sizes;
mod types;
mod values;

pub use cases::{case_at, default_case, has_member, is_label, member_at, select};
pub use hashes::{hash_id, name_hash};
pub use kinds::{as_array, as_enum, as_map, as_mask, as_prim, as_seq, as_str, as_struct, as_union};
pub use names::{name_number, same_name};
pub use path::Path;
pub use types::{
    AliasType, ArrayType, Base, Case, Elem, EnumType, Flag, HashId, Literal, MapType, MaskType,
    Member, Name, Named, SeqType, StructType, UnionType, XType,
};
pub use values::{Pair, Slot, UnionValue, Value};
