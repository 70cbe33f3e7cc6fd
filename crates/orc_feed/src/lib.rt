//! Streams of bytes whose faults are counted: the two traits, streams in memory and over std, and the two loops
//! that read and write all.
#![tactic(auto)]

mod all;
mod memory_sink;
mod memory_source;
mod plan;
mod sink;
mod source;
mod std_stream;

pub use all::{ReadAllError, read_all, write_all};
pub use memory_sink::MemorySink;
pub use memory_source::MemorySource;
pub use sink::Sink;
pub use source::Source;
pub use std_stream::{StdSink, StdSource, StdStream};
