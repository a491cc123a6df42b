//! One replica under its host: bytes in, bytes out.
//!
//! An enclave is started by a content, and then called with one content after the other. Each call leaves a batch. What
//! it does with a content is the model's enclave (`group_model`): a step of its replica, a link, or a state that is saved
//! and put back.
#![tactic(auto)]

mod enclave;
mod field;
mod laws;
mod peer;
mod running;
mod start;
mod state;

pub use enclave::{Enclave, EnclaveFault};
pub use field::{Field, FieldFault};
pub use host_inputs::{HostFault, HostIn, read_host, write_host};
pub use laws::{first_state_is_put_back, saved_states_are_put_back};

#[cfg(test)]
mod tests;
