//! What a drill came to.

use values::Hash;

/// What the run of a drill came to.
#[derive(Clone, Copy, Debug, PartialEq, Eq)]
pub struct Tally {
    /// How many events there were, refused ones included.
    pub events: u64,
    /// How many messages were sent.
    pub messages: u64,
    /// How many answers were given.
    pub answers: u64,
    /// How many clients reported that their secret is kept,
    pub stored: u64,
    /// or what it is,
    pub recovered: u64,
    /// or that the PIN is another,
    pub wrongpin: u64,
    /// or that their record is gone.
    pub deleted: u64,
    /// How often a replica halted.
    pub halts: u64,
    /// The length of the log.
    pub log: u64,
    /// Whether the bound on rollbacks was kept.
    pub within: bool,
    /// The SHA-256 of the whole trace, its closing lines included.
    pub trace: Hash,
}
