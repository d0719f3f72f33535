//! Fetches from a peer that replies as a service does come to their objects.

mod laws;

pub use laws::fetches_complete;
