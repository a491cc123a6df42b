//! The program's one call: the words of a command, a source and a sink.
#![tactic(auto)]

mod audit;
#[cfg(test)]
mod audit_tests;
mod command;
mod drill;
#[cfg(test)]
mod drill_tests;
#[cfg(test)]
mod drive_tests;
mod edge;
mod exit;
mod group;
#[cfg(test)]
mod group_tests;
mod plays;
#[cfg(test)]
mod replay_tests;
#[cfg(test)]
mod session_tests;
mod sessions;
#[cfg(test)]
mod table_tests;
mod tell;
#[cfg(test)]
mod tests;
mod words;

pub use command::run;
pub use edge::{Edge, edge_of};
pub use exit::Status;
