//! What the grammar of IDL reads from: a cursor over the tokens of a text, its keywords, and the faults of a text.
#![tactic(auto)]

mod faults;
mod tokens;
mod words;

pub use faults::IdlFault;
pub use tokens::Tokens;
pub use words::{Begins, CollectionWord, DefinitionWord, Keyword, PlainWord, keyword_of};
