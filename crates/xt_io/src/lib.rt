//! The outside, and bundles: records one after another.
#![tactic(auto)]

mod bundle;
mod filling;
mod laws;
mod record;

pub use bundle::{BundleReader, Pending};
pub use filling::{fill, read_text};
pub use laws::{records_are_a_bundle, records_are_read};
pub use record::write_record;
pub use xt_outside::{
    Door, Failed, Head, Item, Kind, Link, MemDoor, MemLink, MemNet, MemSink, MemSource, Net,
    NetFault, ReadSource, RecordFault, Script, Sink, Source, SureLink, SureSink, SureSource,
    TcpDoor, TcpLink, TcpNet, Turn, WriteSink, write_whole,
};
