//! The tokens of an IDL text (OMG IDL 4.2, 7.2, in this profile): words, numbers, characters, texts and marks, with blanks and comments
//! between them; in `names` what names mean in their scopes, and sets of names.
#![tactic(auto)]

mod classes;
pub mod names;
mod numerals;
mod tables;
mod tokens;

pub use numerals::{is_negative, magnitude, signed_32, unsigned_in};
pub use tables::beside;
pub use tokens::{Token, TokenKind, is_seen, same, skip};
