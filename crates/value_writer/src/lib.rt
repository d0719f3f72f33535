//! What the writers of both representations share: the parts of values as their types' kinds see them, where octets end, the
//! headers of members, and lists of numbers written in blocks.
#![tactic(auto)]

mod block;
mod codes;
mod places;
mod runs;
mod values;

pub use codes::{header_of, is_must, length_code};
pub use places::{TOO_FAR, end_of_number, end_of_octets, end_of_run};
pub use runs::put_run;
pub use values::{body_in, disc_in, entries_in, items_in, number_in, octets_in, slot_at, slots_in};
