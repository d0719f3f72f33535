//! TypeLookup over a link (DDS-XTypes 1.3, 7.6.3.3): the messages in `messages`, and the frames that they come in, a length and a payload each.
//! The frames are this profile's own.
#![tactic(auto)]

mod faults;
mod frame;
mod laws;
pub mod messages;
mod transfer;

pub use crate::messages::{
    Fetched, GET_TYPE_DEPENDENCIES, GET_TYPES, Message, Needed, Operation, PUT_TYPES, payload_size,
    payloads_are_spellings,
};
pub use faults::FrameFault;
pub use frame::{read_frame, write_frame};
pub use laws::{frames_by_front, frames_follow};
