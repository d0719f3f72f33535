//! The commands over what a front declares: its types as printed IDL with their identifiers, and their TypeObjects.

mod compiling;
mod showing;

pub use compiling::Compiling;
pub use showing::Showing;
