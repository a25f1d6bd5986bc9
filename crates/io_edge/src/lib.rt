//! The edge to the outside: sources of bytes, sinks for bytes, and the words of a command line.
#![tactic(auto)]

mod memory;
mod standard;
mod traits;
mod words;

pub use memory::{MemorySink, MemorySource};
pub use standard::{StdinSource, StdoutSink};
pub use traits::{Failed, Sink, Source};
pub use words::Words;
