//! Numbers and texts as octets: what both representations of DDS-XTypes 1.3, 7.4 read alike but for their greatest alignment.

mod scalars;
mod texts;

pub use scalars::{read_enum, read_mask, read_presence, read_prim};
pub use texts::read_text;
