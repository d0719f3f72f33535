//! The service of TypeLookup (DDS-XTypes 1.3, 7.6.3.3): replies to requests (`replies`), sessions that answer those that come over a link, workers
//! with a door each (`workers`), and a link in memory to the service itself (`link`). Links with frames, the limit, how a session ends and what is held of sessions
//! one after another (`chains`) are this profile's own.
#![tactic(auto)]

pub mod chains;
mod ended;
mod gate;
pub mod link;
pub mod replies;
mod sessions;
pub mod workers;

pub use ended::Ended;
pub use gate::{Gate, NoGate};
pub use sessions::session;
