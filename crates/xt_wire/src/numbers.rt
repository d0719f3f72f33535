//! Numbers as octets, for readers and writers of every representation: sizes, alignment, byte order and signs (DDS-XTypes 1.3, 7.4).

mod identifiers;
mod numbers;
mod signs;
mod sizes;
mod tops;
mod units;

pub use identifiers::half_identifier;
pub use numbers::number;
pub use signs::{enum_value, prim_value};
pub use sizes::{enum_size, is_boolean, mask_size, prim_size, scalar_size};
pub use tops::top_of;
pub use units::padding;
