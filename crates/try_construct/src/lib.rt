//! What a reader's type makes of a value of a writer's type (DDS-XTypes 1.3, 7.2.4.1): the projection, and the wholes that settled parts make,
//! gathered as the parts come, here and where samples are read. Beside them guides: what is known of a type beforehand, so that its literals and
//! cases are found in few steps. Settling is as `settled_parts` has it.
#![tactic(auto)]

mod entries;
mod found;
mod guides;
mod guiding;
mod items;
mod kinds;
mod members;
mod projected;
mod projection;
mod unions;
mod value_parts;

pub use entries::Entries;
pub use guides::{CaseIndex, Guide};
pub use items::Items;
pub use members::{MemberSlots, Slots, slot_from};
pub use projection::project;
pub use settled_parts::{Built, Outcome, settle};
pub use unions::{SettledCase, fits_disc, settle_case, whole_union};
