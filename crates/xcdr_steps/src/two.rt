//! The steps of reading XCDR2 that have no parts: how values are bounded, and the headers of members (DDS-XTypes 1.3, 7.4.3).

mod framing;
mod headers;

pub use framing::framing_of;
pub use headers::next_header;
