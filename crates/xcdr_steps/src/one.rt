//! The steps of reading XCDR1 that have no parts: the headers of parameters, and contents, which have origins of their own
//! (DDS-XTypes 1.3, 7.4.1.2).

mod contents;
mod kinds;
mod marks;
mod own;
mod parameters;

pub use contents::{Content, close_content, open_content};
pub use marks::{Mark, Marked, read_mark};
pub use own::read_own;
pub use parameters::read_parameter;
