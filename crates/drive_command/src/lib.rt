//! The player of a driven schedule: a group over enclaves in memory, of which each accepted want is carried to its report
//! by events that a driver makes.
#![tactic(auto)]

mod player;
#[cfg(test)]
mod tests;
mod turns;
mod wants;

pub use player::DrivePlayer;
