//! What an IDL text declares can be printed, and the printed text declares it again.

mod laws;

pub use laws::{parsed_is_printable, parsed_is_read_again};
