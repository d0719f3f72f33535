//! Keys as octets, and their hashes (DDS-XTypes 1.3, 7.6.8).

mod hashes;
mod laws;
mod lengths;
mod order;
mod packed;
mod parts;
mod unpacked;

pub use hashes::{hash_of, key_hash};
pub use laws::{key_octets_tell, others_have_long_keys, short_keys_fit};
pub use lengths::short_key;
pub use packed::packed_key_octets;
pub use parts::key_octets;
