//! The words of a command line: which command they ask, of which types, and how.
#![tactic(auto)]

mod asked;
mod commands;
mod depths;
mod numbers;
mod peers;
mod policies;
mod references;

pub use asked::{AskedId, Service};
pub use commands::{Command, Pair, command_of};
pub use depths::Depth;
pub use peers::{NetCommand, net_command_of};
pub use references::{Form, Reference, named_by};
