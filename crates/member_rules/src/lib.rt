//! Changes of a group's members, as rules on a leader's log: who may join, be admitted or be removed, and when the
//! margin may change.
//!
//! One change is made at a time, of one voter or of the margin: while the newest configuration is above the committed
//! index, every other is refused. These are Raft's single-server changes (Ongaro, "Consensus: Bridging Theory and
//! Practice", 2014, chapter 4), save that here the configuration before the newest counts too until that is committed.
#![tactic(auto)]

mod change;
mod fault;
mod standing;
#[cfg(test)]
mod tests;
mod voters;

pub use change::{admit, join, remove, set_margin};
pub use fault::MemberFault;
