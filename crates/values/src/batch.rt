//! What one step of a replica leaves for its host.

use crate::entry::{Hash, LogEntry, Point};
use crate::ids::{ClientId, Ids, ReplicaId};
use crate::items::Items;
use crate::message::Answer;
use crate::peer::PeerMsg;

/// What one step has done, in the order in which a host tells it.
#[derive(Debug, Drop, PartialEq, Eq)]
pub struct Batch {
    /// The term in which the replica began to lead.
    pub lead: Option<u64>,
    /// The configurations that it took up.
    pub members: MemberList,
    /// The index where it halted, the hash promised there and the one offered in its place.
    pub halt: Option<(u64, Hash, Hash)>,
    /// The point of a table that it took over whole.
    pub taken: Option<Point>,
    /// The entries that committed.
    pub commits: CommitList,
    /// The answers to clients.
    pub answers: AnswerList,
    /// The messages to replicas.
    pub sent: SentList,
    /// The number of the state that was saved, from 1: state 0 is the first one, which no call saves.
    pub saved: Option<u32>,
    /// Why nothing was done.
    pub refused: Option<Refusal>,
}

/// Configurations: the index of the entry, the margin and the voters.
pub type MemberList = Items<(u64, u8, Ids)>;

/// Committed entries with their indices.
pub type CommitList = Items<(u64, LogEntry)>;

/// Answers with the client and the number that each is for.
pub type AnswerList = Items<(ClientId, u64, Answer)>;

/// Messages with the replica that each is for.
pub type SentList = Items<(ReplicaId, PeerMsg)>;

/// Why a replica refused what it was told.
#[derive(Clone, Copy, Debug, PartialEq, Eq)]
pub enum Refusal {
    /// It does not lead; this replica does as far as is known, or 0.
    NotLeader(u32),
    /// A change of the voters is under way: the index of the newest configuration, and the committed index.
    ChangePending(u64, u64),
    /// This replica votes already.
    AlreadyVoter(u32),
    /// This replica does not vote.
    NotVoter(u32),
    /// So many voters would stand, which are too few.
    TooFew(u32),
    /// So many would stand, which are too many.
    TooMany(u32),
    /// The one to be admitted has not caught up: its mark, and the committed index.
    NotCaughtUp(u64, u64),
    /// There is no link to this replica.
    NoLink(u32),
    /// The log is full: its last index.
    LogFull(u64),
    /// There is no such saved state, or for a save no room: the number of states.
    NoState(u32),
    /// The message is for this replica.
    NotForMe(u32),
    /// The message cannot be read: the offset of its wire fault, or 0 for another fault.
    BadPeer(u64),
    /// The margin is this one already.
    SameMargin(u8),
}
