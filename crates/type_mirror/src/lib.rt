//! Two registries made equal: a push of objects to a peer by putTypes, which is this profile's own, and getTypes (DDS-XTypes 1.3, 7.6.3.3);
//! in `told` what a push tells, in `pairs` two sides that hand each other their objects, and in `completes` that a fetch from a peer that has what is
//! asked for comes to it.
#![tactic(auto)]

pub mod completes;
pub mod pairs;
mod pushes;
mod replies;
mod requests;
mod rounds;
pub mod told;

pub use crate::completes::fetches_complete;
pub use crate::pairs::{Gave, Give, Pair, Side, pairs_agree};
pub use crate::told::{PushFault, Told, What, pushes_tell};
pub use pushes::push;
