//! Whether the numbers of a list are distinct, or each among others, without memory: a block of them at a time is sorted and held against
//! those behind it.

mod blocks;
mod neighbours;
mod numbers;

pub use blocks::{all_among, all_distinct};
pub use neighbours::has_same_next;
pub use numbers::Numbers;
