//! The commands that end without a net: what each makes of the bundle on its input; `make` reads none.
#![tactic(auto)]

mod comparing;
mod judging;
mod keeping;
pub mod listing;
mod making;
mod reading;
mod recording;
pub mod recordings;
mod replaying;
mod wrapping;
mod writing;

pub use comparing::Comparing;
pub use judging::Judging;
pub use keeping::Keeping;
pub use making::make;
pub use reading::{Converting, Reading};
pub use recording::Recording;
pub use replaying::Replaying;
pub use wrapping::wrap;
pub use writing::Writing;
