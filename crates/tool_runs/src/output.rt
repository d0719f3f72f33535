//! What a command writes and how it ends: lines or records, one after another, and a last one where it is refused.

mod block;
mod ending;
mod halt;
mod payloads;
mod saying;
mod status;
mod stop;
mod turns;

pub use block::Block;
pub use ending::{Cause, Ending, Style};
pub use halt::Halt;
pub use payloads::Payloads;
pub use saying::{last, line, record, refuse_bundle, refuse_fault, say};
pub use status::{Status, status_of};
pub use stop::{Refused, Stop};
pub use turns::{
    Next, Turns, is_sample, next_of, pass_other, payload_into, payload_of, run_body, stop_for,
};
