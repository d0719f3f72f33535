//! The service of TypeLookup (DDS-XTypes 1.3, 7.6.3.3) over many links at once: a worker for each door, in threads of their own
//! where these can be made. Doors, turns and workers are this profile's own.

mod faults;
mod halves;
mod seat;
mod turns;
mod workers;

pub use crate::{Ended, Gate, NoGate, session};
pub use faults::ServeFault;
pub use seat::Seat;
pub use workers::serve_workers;
