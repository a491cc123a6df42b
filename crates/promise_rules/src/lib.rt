//! The promise round, as rules on a leader's log: how far the log is promised and committed by what its voters have
//! accepted and promised.
//!
//! An index is promised where enough voters have accepted the log up to it, and committed where enough have promised
//! it. A configuration that is not committed yet counts together with the one before it.
#![tactic(auto)]

mod greatest;
mod raise;
#[cfg(test)]
mod tests;

pub use raise::{raise_commit, raise_promise};
