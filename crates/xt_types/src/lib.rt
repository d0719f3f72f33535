//! The types and values of DDS-XTypes 1.3 (7.2): declarations, validity, defaults, and copies. The crate gathers what the crates
//! below it have; their own pages say how each is defined and proved.
//!
//! `check_type` says whether a type is valid, which `decode2`, `project` and the calls for JSON ask as it stands. The laws
//! `is_within_limits`, `shape_keeps_rules`, `each_rule_holds` and `each_part_is_valid` make of it what other calls ask: the limits of
//! `weight` and `judge`, the rules at each node of the shape, those that speak of a type's own node, and that its parts are valid.
#![tactic(auto)]

pub use type_rules::faultless::{each_part_is_valid, each_rule_holds};
pub use type_rules::{TypeFault, check_type, is_within_limits, shape_keeps_rules};
pub use type_trees::sizes::weight;
pub use type_trees::{
    AliasType, ArrayType, Base, Case, Elem, EnumType, Flag, HashId, Literal, MapType, MaskType,
    Member, Name, Named, Pair, Path, SeqType, Slot, StructType, UnionType, UnionValue, Value,
    XType, as_array, as_enum, as_map, as_mask, as_prim, as_seq, as_str, as_struct, as_union,
    case_at, default_case, has_member, hash_id, is_label, member_at, name_hash, name_number,
    same_name, select,
};
pub use type_values::{
    base_of, copy_name, copy_optional_text, copy_text, copy_type, copy_value, default_value,
    has_type,
};
pub use xt_lists::{OutOfMemory, Row, Text, Word};
pub use xt_shapes::{Ext, Order, Prim, Rep, Step, Try};
