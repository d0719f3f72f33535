//! Values by type (DDS-XTypes 1.3, 7.2): which values a type has, its default, and copies of types and values; in `same` whether two types
//! are the same.
#![tactic(auto)]

mod bases;
mod copies;
mod defaults;
mod keys;
mod numbers;
pub mod same;
mod sorted_keys;
mod typed;
mod value_copies;

pub use bases::base_of;
pub use copies::{
    copy_bases, copy_flags, copy_literals, copy_members, copy_name, copy_optional_text, copy_plain,
    copy_text, copy_type,
};
pub use defaults::default_value;
pub use keys::repeats;
pub use node_rules::{has_literal, is_of_prim};
pub use numbers::{fits_bits, is_past, is_text_within};
pub use sorted_keys::has_same_keys;
pub use typed::has_type;
pub use value_copies::copy_value;
