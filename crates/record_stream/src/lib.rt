//! Records of a source are played one by one as they come, and what they write goes to a sink.
//!
//! A schedule, or any other text of comma-separated records, comes in pieces of at most 65,536 bytes. The
//! records of each whole line are played, and their lines are gathered and written together, before the source
//! is read again. What plays them is a [`Player`]: this crate proves once, for every player, what a source, a
//! sink and want of memory can do to the text that is written.
#![tactic(auto)]

mod cutter;
mod ends;
mod lines;
mod marks;
mod player;
mod source;

pub use player::{Player, Stop};
pub use source::{Ended, play_source};
