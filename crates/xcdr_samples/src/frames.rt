//! A sample in a cursor's region: the encapsulation before its body and the counted padding behind it (DDS-XTypes 1.3, 7.6.3.1.2),
//! for both representations.

mod frames;
mod heads;

pub use frames::{OpenSample, close_sample, open_sample};
pub use heads::Head;
