//! Values of DDS-XTypes as JSON, and JSON as values, by a valid type (this profile's own).
#![tactic(auto)]

mod numbers;
mod reach;
mod texts;

pub use json_values::{JsonRule, ValueFault};
pub use numbers::{
    bits_are_read, from_numbers, has_floats, numbers_come_back, place_among, plain_is_read,
    plain_is_shown, with_numbers,
};
pub use reach::get;
pub use texts::{from_json, json_is_read, to_json};
