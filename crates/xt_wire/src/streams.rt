//! A cursor over the payload of a record, whose octets are read from the record's reader as they are wanted.

mod cursor;
mod payload;

pub use cursor::StreamCursor;
