//! One replica as a definition: its whole log, its marks, and what it does with each input.
//!
//! The definitions stand in `specs/`. Here are only the numbers and the plain data that code shares with them.
#![tactic(auto)]

ghost use Rattle.replica_model.specs.Laws.{ChainFollows, ConfFollows, GreatestIsGreatest, FoldFollows, BytesTellBodies, VotersCounted};
ghost use Rattle.replica_model.specs.Raised.{StepsRaiseToTheGreatest};
ghost use Rattle.replica_model.specs.Answered.{StepsAnswerTickets};

pub use values::{MAX_ENTRIES, ROWS_PER_PART, TOP};

/// The entries above the committed index at which a leader is busy.
pub const MAX_OPEN: u64 = 1_024;
/// The entries below the committed index whose hashes are kept.
pub const KEPT_BELOW: u64 = 4_096;
/// The learners of one leader.
pub const MAX_LEARNERS: u32 = 31;

/// What a leader knows of one peer.
#[derive(Clone, Copy, Debug, PartialEq, Eq)]
pub struct Progress {
    /// The index of the next entry to send.
    pub next: u64,
    /// Up to here the peer has accepted the leader's log.
    pub mark: u64,
    /// Up to here the peer has promised it.
    pub promised: u64,
}

/// The law that the hash of a path and one more entry is the link of that entry to the path's hash.
pub fn chain_follows()
    ensures { ChainFollows }
{}

/// The law that the configuration of a path is that of its last Members entry, with that entry's index.
pub fn conf_follows()
    ensures { ConfFollows }
{}

/// The law that the greatest index is the greatest.
pub fn greatest_is_greatest()
    ensures { GreatestIsGreatest }
{}

/// The law that the table of a path and one more entry is the path's table with that entry applied.
pub fn fold_follows()
    ensures { FoldFollows }
{}

/// The law that different bodies have different kinds or different bytes.
pub fn bytes_tell_bodies()
    ensures { BytesTellBodies }
{}

/// The law that an id is among the voters that count exactly where it is a voter of the newest configuration or, while
/// that one is above the committed index, of the one before it.
pub fn voters_counted_are()
    ensures { VotersCounted }
{}

/// The law that in each call a leader raises its promised and its committed index to the greatest that may be, with the
/// outcomes that this brings, or keeps those that it had.
pub fn steps_raise_to_the_greatest()
    ensures { StepsRaiseToTheGreatest }
{}

/// The law that in the very call in which a replica's committed index passes the index of a ticket that it holds, the
/// batch has the ticket's outcome, with the reply of its request, or, where the call first replaced its entry, tells that.
pub fn steps_answer_their_tickets()
    ensures { StepsAnswerTickets }
{}
