//! A replica's log: a window of entries over a path that it need not keep whole.
//!
//! Below its base a log keeps only what sums the path up: its end point, the term of the last entry, and the newest
//! configuration with its index. Contracts see the window. It stands for the log of a model replica, which has the
//! whole path, and each call's clause `model` says what the call is to each such replica.
#![tactic(auto)]

mod chained;
mod configs;
mod graft;
mod laws;
mod log;

pub use configs::Configs;
pub use graft::Graft;
pub use laws::{
    configs_are_the_models, hashes_are_the_models, indices_are_the_models, newest_are_the_models,
    terms_are_the_models,
};
pub use log::Log;

#[cfg(test)]
mod tests;
