//! The schedule of a drill: clients that store, and then recover or delete, as the words of a seed say.
#![tactic(auto)]

mod client;
mod drill;
mod events;
mod parts;
#[cfg(test)]
mod tests;

pub use drill::drill_events;
pub use parts::Parts;
