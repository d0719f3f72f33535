//! Runs of commands from the bundle on: the front (`front`), what its records come to, and the body, up to the last line. `output` says what a
//! command writes and how it ends.
#![tactic(auto)]

mod closing;
mod commands;
pub mod front;
pub mod output;
mod quiet;

pub use closing::close_body;
pub use commands::{Answers, Prepares, answer_command, body_command, say_pieces, stopped};
pub use quiet::Quiet;
