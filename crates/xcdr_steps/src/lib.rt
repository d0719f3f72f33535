//! Steps of reading values of octets with a cursor (DDS-XTypes 1.3, 7.4): those that both representations share (`scalars`, `reading`), those of
//! XCDR1 (`one`) and of XCDR2 (`two`), and the members of a structure by their ids (`index`).
#![tactic(auto)]

pub mod again;
pub mod index;
pub mod one;
pub mod reading;
pub mod scalars;
pub mod two;
