//! The lines of a trace: those of an event, of a batch, of a report, and those at the end.
#![tactic(auto)]

mod answer;
mod batch;
mod client;
mod closing;
mod entry;
mod event;
mod field;
mod message;
mod refused;
mod stopped;
#[cfg(test)]
mod tests;
mod writer;

pub use batch::trace_lines;
pub use closing::Closing;
pub use refused::GroupRefusal;
pub use stopped::Quantity;
pub use writer::TraceWriter;
