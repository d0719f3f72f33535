//! Names and types in an IDL text (OMG IDL 4.2, 7.4 and 7.5, in this profile): what is declared at a place, what a scoped name means there, and
//! types where they are used.
#![tactic(auto)]

mod declarations;
mod kept;
mod names;
mod opened;
mod places;
mod reader;
mod scopes;
mod types;
mod uses;

pub use declarations::{
    Declaration, Definition, StructDefinition, UnionDefinition, UsedCase, UsedMember,
};
pub use kept::Declarations;
pub use names::{Scoped, scoped_name};
pub use opened::Opened;
pub use reader::{Reader, declaration_at, type_by_name};
pub use types::{a_type, boxed};
pub use uses::Used;
