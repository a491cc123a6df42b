//! Links between replicas: whom a replica has attested, and the frames that it takes from them.
//!
//! A link frame has four bytes of its sender's id, four of its addressee's, the high byte first, and the message.
#![tactic(auto)]

mod frames;
mod links;

pub use frames::{LinkFault, wrap};
pub use links::Links;

#[cfg(test)]
mod tests;
