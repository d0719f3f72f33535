//! Cells that are set once and the cells that an identifier is looked for in: a machine over lists of atomic steps, and what holds
//! of every such list. It is the model of the shared registry of TypeObjects; the rules are this profile's own.
#![tactic(auto)]

mod event;
mod machine;
mod probes;
mod theorem;

pub use event::{Event, Reply};
pub use machine::Machine;
pub use probes::{is_probed, level_cells, probe};
pub use theorem::finds_agree;
