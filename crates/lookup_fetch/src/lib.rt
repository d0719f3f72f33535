//! Fetching TypeObjects and all that they refer to from a peer (DDS-XTypes 1.3, 7.6.3.3), in rounds of getTypes. The rounds are this
//! profile's own.
#![tactic(auto)]

mod faults;
mod fetches;
mod plan;
mod replies;
mod rounds;

pub use faults::FetchFault;
pub use fetches::fetch;
