//! Floats as numbers in the JSON of values: a text with raw bits for floats becomes one with numbers, and a value is read from either.

mod cases;
mod doubles;
mod forms;
mod kinds;
mod laws;
mod leaves;
mod members;
mod singles;
mod texts;
mod walk;

pub use kinds::has_floats;
pub use laws::{bits_are_read, numbers_come_back, plain_is_read, plain_is_shown};
pub use members::place_among;
pub use texts::{from_numbers, with_numbers};
