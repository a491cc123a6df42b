//! Sessions: a host sends frames to one enclave, and is sent the batch frames that it leaves.
//!
//! A frame is the length of its content in four bytes, the high byte first, the content, and in a tagged session a tag of 32
//! bytes. The first content starts the enclave. Each frame is answered by one batch frame, written before the next frame is read.
#![tactic(auto)]

mod answer;
mod child;
mod children;
mod door;
mod fill;
mod frame;
mod loop_field;
mod serve;
mod served;
mod server;
mod tags;
#[cfg(test)]
mod tests;

pub use loop_field::LoopField;
pub use serve::{serve_session, serve_tagged};
pub use served::{FrameCause, Served};
