//! The rules of assignability and equivalence at one pair of nodes (DDS-XTypes 1.3, 7.2.4.4): names, members, labels, literals, bounds
//! and keys. They read members and cases without their types, so that types and objects are judged by the same code.
#![tactic(auto)]

mod bounds;
mod enums;
mod equal;
mod labels;
mod literals;
mod marks;
mod members;
mod objects;
mod policies;
mod trees;
mod views;

pub use bounds::{holds_bound, is_discard, structure_delimited, union_delimited};
pub use enums::enum_rule;
pub use equal::{
    same_case_head, same_dims, same_ext, same_flags, same_head, same_kind_of_union, same_literals,
};
pub use labels::{default_case, has_label, label_sets, same_case_names, select};
pub use literals::values_within;
pub use marks::{Mark, Marked};
pub use members::{
    any_key, common_member, has_member, ids_within, needs_within, same_counted, same_names,
    same_places,
};
pub use policies::asks_equal;
pub use views::{CaseView, FlagView, LiteralView, MemberView};
