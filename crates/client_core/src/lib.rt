//! The core of a client: it numbers the requests of what its user wants, and reports what becomes of it.
//!
//! The client talks to nobody. It says which request is in flight, as often as it is asked, and is told the answers, of
//! any replica, in any order and as often as they come.
#![tactic(auto)]

mod client;
mod meaning;
mod stage;
#[cfg(test)]
mod tests;

pub use client::Client;
