//! Types as an IDL text (OMG IDL 4.2 and DDS-XTypes 1.3, 7.3, in this profile): `print` gives the one text of a list of types.
#![tactic(auto)]

mod lines;
mod modules;
mod parts;
mod uses;
mod words;

pub use lines::print;
