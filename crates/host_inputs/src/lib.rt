//! What a host hands to an enclave, as bytes.
//!
//! A content begins with a byte that is its kind. Numbers have the high byte first.
//!
//! | Kind | Name | Then |
//! |---|---|---|
//! | 1 | Begin | id u32, margin u8, limit u32, count u8, voters u32 each |
//! | 2 | Learn | id u32, count u8, linked ids u32 each |
//! | 3 | Tick | nothing |
//! | 4 | Peer | a link frame |
//! | 5 | Client | client 16 bytes, number u64, request bytes |
//! | 6, 7, 8 | Join, Admit, Remove | id u32 |
//! | 9 | Save | nothing |
//! | 10 | Roll | k u32 |
//! | 11 | Link | id u32 |
//! | 12 | Margin | margin u8 |
#![tactic(auto)]

mod fields;
mod input;
mod kinds;
mod laws;
mod lists;
mod read;
mod write;

pub use input::{HostFault, HostIn};
pub use laws::inputs_are_read_again;
pub use read::read_host;
pub use write::write_host;

#[cfg(test)]
mod tests;
