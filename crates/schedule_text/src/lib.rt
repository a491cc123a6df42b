//! The records of a schedule, and the lines of what is written of them.
#![tactic(auto)]

mod digit;
mod fault;
mod field;
mod hexadecimal;
mod laws;
mod line;
mod number;
mod record;
mod reply;
mod schedule;
#[cfg(test)]
mod tests;
mod voters;
mod word;

pub use fault::{RecordFault, Stopped, Unread};
pub use field::{client_of, hex_of};
pub use hexadecimal::is_hexadecimal;
pub use laws::lines_are_joined;
pub use line::{cause_word, limit_line, part_word, push_field, push_hex, push_number, record_line};
pub use number::number_of;
pub use reply::push_reply;
pub use schedule::Schedule;
