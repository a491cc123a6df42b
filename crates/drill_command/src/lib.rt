//! A drill: a schedule that a seed makes is played over enclaves in memory, and what its run came to is told.
//!
//! Its lines are hashed and counted event by event, and neither they nor the schedule are kept.
#![tactic(auto)]

mod counts;
mod drill;
mod player;
mod summary;
mod tally;
#[cfg(test)]
mod tests;

pub use drill::play_drill;
pub use summary::write_summary;
pub use tally::Tally;
