//! What a change of types breaks, from one version to the next.

mod changes;
mod comparing;
mod lookup;
mod progress;
mod reports;

pub use changes::Change;
pub use comparing::{Version, between};
pub use progress::{Progress, ending_of};
pub use reports::Report;
