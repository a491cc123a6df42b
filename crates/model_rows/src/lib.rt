//! Worked runs: the definitions of schedules, groups and traces, computed on literals.
//!
//! The link of the chain is a toy that computes, so the hashes of `halt`, `taken` and `undecided` lines are its own.
#![tactic(auto)]

pub mod audits;
pub mod broken;
pub mod clients;
pub mod endings;
pub mod limits;
pub mod members;
pub mod met;
pub mod records;
pub mod replication;
pub mod sessions;
pub mod votes;
