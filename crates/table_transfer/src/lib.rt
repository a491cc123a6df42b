//! The transfer of a record table to a learner that holds nothing: the leader sends it part by
//! part, and the learner takes the parts in their order until the table is whole.
//!
//! A part carries the point of the log after whose entry the table stands, and what a log that
//! begins there has to know. A learner takes number 0 of any table, and then the next number of the
//! same one.
#![tactic(auto)]

mod laws;
mod points;
mod sending;
mod taking;
#[cfg(test)]
mod tests;

pub use points::voters_of;
pub use sending::{Sending, Sent};
pub use taking::{TakePart, Taking};
