//! Fields of a fixed size: numbers with the high byte first, and blocks of bytes.
//!
//! A reader answers the field at the front of the bytes and the bytes behind it, or `None` where fewer bytes stand
//! there than the field has. A [`Writer`] puts fields behind the bytes that it is begun with.
#![tactic(auto)]

mod lists;
mod reading;
mod writing;

pub use lists::{MAX_COUNT, ShortList, counted_u32s, short_u32s};
pub use reading::{array_at, block_at, end, read_u32s, u8_at, u32_at, u64_at};
pub use writing::Writer;

#[cfg(test)]
mod tests;
