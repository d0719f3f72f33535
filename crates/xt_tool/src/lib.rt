//! The top call: it does what the words of a command line ask, from a source to a sink.
#![tactic(auto)]

mod answering;
mod laws;
mod peers;
mod run;
mod status;
mod top;

pub use laws::{headline, refused};
pub use tool_runs::output::Status;
pub use top::xt;
