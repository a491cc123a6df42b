//! Elections, as rules on a replica's ballot and log: to stand, to judge who asks for a vote, and to count votes.
//!
//! A ballot grants its vote to one id in a term. An election is won under the newest configuration and, while that is
//! not committed, under the one before it too.
#![tactic(auto)]

mod ballot;
#[cfg(test)]
mod tests;
mod votes;

pub use ballot::{Ballot, LastEntry, judge_ask, stand};
pub use votes::Votes;
