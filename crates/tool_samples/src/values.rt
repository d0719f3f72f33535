//! JSON values of a body, each written as the record of its sample.

mod refusals;
mod values;
mod writing;

pub use values::Values;
