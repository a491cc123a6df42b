//! How a client's want is carried to its report: whom the client asks turn by turn, and whom it wakes before.
//!
//! One driver serves all clients of a group, one want at a time. It talks to nobody: it names the replica of the
//! next turn and is told what came of it.
#![tactic(auto)]

mod driver;
#[cfg(test)]
mod tests;

pub use driver::{Driver, MAX_TURNS, Seen, Turn};
