//! Appends, as rules on logs: what a leader sends a peer, what a follower makes of it, and what the leader makes of the
//! reply.
//!
//! A follower never replaces an entry that it has promised: it halts.
#![tactic(auto)]

mod heard;
mod make;
mod take;
#[cfg(test)]
mod tests;

pub use heard::{take_accepted, take_rejected};
pub use make::make_append;
pub use replica_model::Progress;
pub use take::{Taken, take_append};
