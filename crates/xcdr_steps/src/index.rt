//! The members of a structure by their ids, found without going through all of them.

mod index;

pub use index::MemberIndex;
