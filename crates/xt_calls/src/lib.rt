//! Calls for programs in other languages: the types of a bundle, a pair of them, samples read, converted and written, each by one call over
//! octets in memory, and answers that are handed to a caller's room.
#![tactic(auto)]

mod answers;
mod identifiers;
mod keys;
mod laws;
mod opening;
mod plain;
mod printing;
mod readers;
mod types;
mod verdicts;
mod words;

pub use answers::{Answer, CLOSED, DONE, MEMORY, WORDS, answer_of, nothing, tell};
pub use laws::{
    commands_agree, conversions_are_records, headline, lines_are_read, values_come_back,
    writes_are_records,
};
pub use readers::Reader;
pub use types::Types;
pub use words::{Floats, floats_of, rep_of, written_in};
