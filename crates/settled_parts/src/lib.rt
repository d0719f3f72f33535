//! What becomes of parts that were built: settling by the setting of their place (TryConstruct, DDS-XTypes 1.3, 7.2.2.7), and the
//! parts that texts and values of enumerations are.
#![tactic(auto)]

mod leaves;
mod literals;
mod part;
mod settling;

pub use leaves::{enum_part, literal_part, text_from, text_part};
pub use literals::is_value;
pub use part::{Made, Part, Settled, outcome, settle_part};
pub use settling::{Built, Outcome, default_slot, settle};
