//! What a client asks and is answered, as messages of the wire format.
//!
//! | Message | Fields |
//! |---|---|
//! | Request | one of backup = 2, restore = 3, delete = 4, expose = 5 |
//! | backup | secret = 1 bytes, pin = 2 bytes, tries = 3 uint32 |
//! | restore | pin = 1 bytes |
//! | expose | secret = 1 bytes |
//! | Response | one of backup = 1, restore = 2, delete = 3, expose = 4 |
//! | backup, expose | status = 1 |
//! | restore | status = 1, secret = 2 bytes, tries = 3 uint32 |
//!
//! A request's secret has 16 to 48 bytes, its pin 32, and its tries are from 1 to 255.
#![tactic(auto)]

mod check;
mod fault;
mod laws;
mod oneof;
mod read;
mod strict;
mod write;

pub use check::check_request;
pub use fault::{RequestFault, ResponseFault};
pub use laws::{requests_are_read_again, responses_are_read_again};
pub use read::{read_request, read_response};
pub use strict::is_canonical_request;
pub use write::{write_request, write_response};

#[cfg(test)]
mod tests;
