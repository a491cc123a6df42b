//! The lines of a trace, read again: what each says to who audits the trace.
#![tactic(auto)]

mod answer;
mod entry;
mod event;
mod field;
mod kind;
mod line;
mod read;
mod rows;
#[cfg(test)]
mod tests;
mod word;

pub use line::{LineError, TraceLine};
pub use read::{MAX_LINE, read_line};
