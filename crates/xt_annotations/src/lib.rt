//! Annotations of IDL (OMG IDL 4.2, 7.4.15, and DDS-XTypes 1.3, 7.3.1.2, in this profile): reading one from a text, where each may stand,
//! and what a member's say of it.
//!
//! The rules that an annotation can break are numbered: A1 unknown, A2 known and not in the profile, A3 not allowed in this place, A4 twice,
//! or two that set the same thing, A5 parameter missing, A6 no parameter of the right kind or no `)` behind it, A7 out of range, A8 a
//! parameter where none is allowed, A9 `@id` together with `@hashid`.
#![tactic(auto)]

mod annotations;
mod members;
mod notes;
mod parameters;
mod places;
mod reading;

pub use members::{apply_member, apply_notes};
pub use notes::{Note, NoteFault, Noted, Placed, Refused, RuleFault};
pub use places::{Setting, Site, breaks, first_refused, has};
pub use reading::{note_after, read_note};
