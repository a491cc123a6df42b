//! What an enclave leaves for its host, as bytes: batches, and the frames of a host beside them.
//!
//! A batch is a list of items. An item is a byte that is its kind, its length in four bytes, and that many bytes. Items
//! stand in rising order of kind; those of one kind keep their order.
//!
//! | Kind | Item | Content |
//! |---|---|---|
//! | 1 | lead, once | term u64 |
//! | 2 | members | index u64, margin u8, ids u32 each |
//! | 3 | halt, once | index u64, kept 32 bytes, offered 32 bytes |
//! | 4 | taken, once | index u64, hash 32 bytes |
//! | 5 | commit | index u64, term u64, kind u8, body bytes |
//! | 6 | answer | client 16 bytes, number u64, answer number u8, then its content |
//! | 7 | sent | a link frame |
//! | 8 | saved, once | k u32 |
//! | 9 | refused, once | code u8, two u64 |
#![tactic(auto)]

mod answer;
mod bodies;
mod commit;
mod content;
mod contents;
mod fault;
mod gathered;
mod item;
mod kinds;
mod laws;
mod pieces;
mod plain;
mod read;
mod refusal;
mod replies;
mod sent;
mod voters;
mod write;

pub use fault::{BatchFault, FrameList};
pub use host_inputs::{HostFault, HostIn, read_host, write_host};
pub use laws::{batches_are_read_again, items_are_read_again};
pub use read::read_batch;
pub use write::write_batch;

#[cfg(test)]
mod tests;
