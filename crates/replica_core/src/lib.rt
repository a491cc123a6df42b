//! The step of a replica: what it does with its timer, with a message of a peer, with a client's request and with a
//! change of the members.
//!
//! A pure state machine: `step` takes one input and leaves a batch, which says what the host is to tell and to send. It
//! knows no clock and no network. Its definition is the model's step (`replica_model`), of which a replica keeps a part:
//! a window of the log, the table at the committed index, and of each peer how far it is.
#![tactic(auto)]

mod appends;
mod by_replica;
mod clients;
mod copies;
mod holder;
mod input;
mod learner;
mod members;
mod peers;
mod raise;
mod replica;
mod rising;
mod role;
mod send;
mod step;
#[cfg(test)]
mod tests;
mod tickets;
mod ticks;
mod transfer;
mod votes;

pub use input::{Input, StepFault};
pub use replica::Replica;
