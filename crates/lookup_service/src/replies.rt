//! Replies to the requests of TypeLookup (DDS-XTypes 1.3, 7.6.3.3) from a registry that threads share. The order, the pages, the limits
//! and `putTypes` are this profile's own.

mod answers;
mod gets;
mod look_up;
mod pages;
mod puts;
mod visits;

pub use answers::answer;
