//! The messages of TypeLookup, the operations for asking a peer for types (DDS-XTypes 1.3, 7.6.3.3), and their payloads. The layout
//! of a payload, the numbers of the operations and `putTypes` are this profile's own.

mod fields;
mod items;
mod laws;
mod messages;
mod sizes;
mod spelling;

pub use fields::{GET_TYPE_DEPENDENCIES, GET_TYPES, PUT_TYPES, read_payload};
pub use laws::payloads_are_spellings;
pub use messages::{Fetched, Message, Needed, Operation, PayloadFault};
pub use sizes::payload_size;
pub use spelling::spell;
