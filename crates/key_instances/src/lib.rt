//! The last values of each key (this profile's own): what is kept of all puts is defined in `kept`, and the keys' octets and hashes (DDS-XTypes
//! 1.3, 7.6.8) come from `octets`.
#![tactic(auto)]

mod entry;
mod instances;
pub mod kept;
pub mod octets;

pub use crate::octets::{
    hash_of, key_hash, key_octets, key_octets_tell, others_have_long_keys, packed_key_octets,
    short_key, short_keys_fit,
};
pub use instances::{Instances, LastValues, PutFault};
pub use projection_laws::keys_cross;
