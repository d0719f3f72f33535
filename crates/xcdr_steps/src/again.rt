//! A cursor over another one, whose next four octets can be seen before they are read.

mod peeking;
mod rereading;

pub use peeking::Peeking;
pub use rereading::Rereading;
