//! The steps of reading values of octets that are the same in both representations: which member or case is read, counts, and what
//! stands where a member may come (DDS-XTypes 1.3, 7.4).

mod choices;
mod counts;
mod headings;
mod places;

pub use choices::{Choice, choose};
pub use counts::{array_count, has_ended, read_count};
pub use headings::{Header, Heading};
pub use places::find_member;
