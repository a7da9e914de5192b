//! Sources and sinks of bytes, with a count of their faults.
#![tactic(auto)]

mod memory;
mod reading;
mod standard;
mod streams;
mod writing;

pub use memory::{CalmSource, Discard, MemSink, MemSource};
pub use reading::{ReadRefused, read_all};
pub use standard::{StdSink, StdSource};
pub use streams::{Failed, Sink, Source};
pub use writing::write_all;
