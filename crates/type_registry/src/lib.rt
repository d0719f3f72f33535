//! The registry of TypeObjects that threads share. It grows while they read it, and no call of it waits or takes a lock. How types are
//! shared in a process is this profile's own; identifiers are those of DDS-XTypes 1.3, 7.3.4. `notes` has what was read in its cells.
#![tactic(auto)]

mod agrees;
mod by_id;
mod entry;
mod find;
mod finding;
mod kept;
mod level;
mod naming;
pub mod notes;
mod pass;
mod path;
mod register;
mod registry;
mod trail;

pub use agrees::agree;
pub use finding::Finding;
pub use kept::{Kept, RegisterFault};
pub use naming::{Md5Naming, Naming};
pub use pass::Pass;
pub use registry::Registry;
pub use trail::{Seen, Trail};
pub use type_object::Fault as ObjectFault;
