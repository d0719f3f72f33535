//! The names of an IDL text: what each means in its scope, and which are taken. A look-up goes by the name's hash.

mod scopes;
mod sets;

pub use scopes::{Meaning, ScopedNames};
pub use sets::NameSet;
