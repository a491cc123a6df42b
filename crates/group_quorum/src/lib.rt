//! Configurations of a group: who votes, how many of them make a quorum, and what a quorum has reached.
//!
//! A quorum is a majority and a margin more: any two of them share more than twice the margin of voters, so that
//! they still share one voter that remembers where up to twice the margin of voters were set back.
#![tactic(auto)]

mod config;
mod laws;
mod marks;
mod voters;

pub use config::Config;
pub use laws::{counts_overlap, more_meet, quorums_outlast, quorums_share, voters_decide};

/// The greatest number of voters in a configuration.
pub const MAX_VOTERS: usize = 31;
/// The greatest margin of a configuration.
pub const MAX_MARGIN: u8 = 15;
/// The greatest id of a replica; the least is 1.
pub const MAX_ID: u32 = 65_535;

/// What is wrong with a list of voters: the first of these that holds, in this order.
#[derive(Clone, Copy, Debug, PartialEq, Eq)]
pub enum ConfigFault {
    /// More than [`MAX_VOTERS`] voters: how many, at most `u32::MAX`.
    TooMany(u32),
    /// The first number of the list that is no id.
    BadId(u32),
    /// The first id of the list that already stood before it.
    Double(u32),
    /// Fewer voters than twice the margin and one: how many.
    TooFew(u32),
}

#[cfg(test)]
mod tests;
