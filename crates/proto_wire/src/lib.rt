//! The wire format of Protocol Buffers: a message as a sequence of numbered fields, read one at a time
//! and written one after the other.
//!
//! A field is a tag, the varint of `(number << 3) | wire type`, and a payload. Wire type 0 is a varint,
//! 1 eight bytes, 2 a length and that many bytes, 5 four bytes. A varint has seven bits a byte, the low
//! ones first, and the top bit on all bytes but the last.
#![tactic(auto)]

mod field;
mod laws;
mod memory;
mod read;
mod write;

pub use field::{Payload, WireFault, WireField};
pub use laws::{varints_are_shortest, written_fields_are_read};
pub use memory::Memory;
pub use read::next_field;
pub use write::FieldWriter;

#[cfg(test)]
mod tests;
