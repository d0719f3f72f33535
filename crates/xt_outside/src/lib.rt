//! The outside: sources, sinks, links, doors and the net, each with a count of its faults, and the records of bundles.
#![tactic(auto)]

mod adapters;
mod borrowed;
mod counts;
mod links;
mod memory;
mod memory_doors;
mod memory_links;
mod octets;
mod records;
mod tcp;

pub use adapters::{ReadSource, WriteSink};
pub use links::{Door, Link, Net, NetFault};
pub use memory::{MemSink, MemSource, SureSink, SureSource};
pub use memory_doors::{MemDoor, MemNet, Turn};
pub use memory_links::{MemLink, Script, SureLink};
pub use octets::{Failed, Sink, Source, write_whole};
pub use records::{Head, Item, Kind, RecordFault};
pub use tcp::{TcpDoor, TcpLink, TcpNet};
