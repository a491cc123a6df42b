//! The source and the sink of bytes, with their counts of faults.
#![tactic(auto)]

mod in_memory;
mod std_streams;
mod streams;
#[cfg(test)]
mod tests;

pub use in_memory::{MemSink, MemSource};
pub use std_streams::{StdSink, StdSource};
pub use streams::{Failed, PIECE, Sink, Source, write_all};
