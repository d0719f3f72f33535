//! Values and samples written in either representation (DDS-XTypes 1.3, 7.4 and 7.6.3.1.2): their sizes, the octets of values, and whole
//! samples. `written` has these under the names of XCDR1 and of XCDR2.
#![tactic(auto)]

mod encoding;
mod ends;
mod forms;
mod params;
mod samples;
pub mod written;

pub use encoding::encode_value;
pub use forms::{is_bare, is_short, most_of};
pub use params::marked;
pub use samples::{encode, identifier_of, size_of_sample, write_sample};
