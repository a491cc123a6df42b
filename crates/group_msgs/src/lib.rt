//! What replicas say to each other, as messages of the wire format.
//!
//! | Message | Fields |
//! |---|---|
//! | PeerMessage | term = 1, one of ask_vote = 2, vote = 3, append = 4, accepted = 5, rejected = 6, part = 7, part_taken = 8 |
//! | ask_vote | last_index = 1, last_term = 2 |
//! | vote | granted = 1 bool |
//! | append | prev_index = 1, prev_hash = 2 bytes, entries = 3 repeated Entry, promise = 4, commit = 5 |
//! | accepted | end_index = 1, end_hash = 2 bytes, promised = 3 |
//! | rejected | asked = 1, hint = 2 |
//! | part | index = 1, hash = 2 bytes, last_term = 3, conf_index = 4, margin = 5, voters = 6 bytes, limit = 7, part = 8, parts = 9, rows = 10 repeated Row |
//! | part_taken | index = 1, hash = 2 bytes, next = 3 |
//! | Entry | term = 1, kind = 2, client = 3 bytes, number = 4, request = 5 bytes, voters = 6 bytes, margin = 7 |
//! | Row | client = 1 bytes, last = 2, data = 3 bytes, pin = 4 bytes, left = 5, exposed = 6 bool |
//!
//! Indices, terms and numbers are uint64; kind, margin, limit, part, parts, next and left are uint32. An entry's
//! kind is 0 for Noop, 1 for Ask and 2 for Members. Voters are ids of four bytes each, the highest first.
#![tactic(auto)]

mod check;
mod fault;
mod gather;
mod laws;
mod listed;
mod numbers;
mod read;
mod scalars;
mod voters;
mod write;

pub use fault::PeerFault;
pub use laws::messages_are_read_again;
pub use read::read_peer;
pub use write::write_peer;

#[cfg(test)]
mod tests;
