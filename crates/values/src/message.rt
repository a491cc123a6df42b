//! What a client asks and what it is answered.

use crate::bytes::Bytes;
use crate::copies::TryCopy;
use crate::entry::Hash;
use crate::ids::ReplicaId;
use crate::memory::Memory;
use std::alloc::Global;

/// What a client asks of its record.
#[derive(Debug, Drop, PartialEq, Eq)]
pub enum Request {
    /// Keep this secret under this PIN, for so many guesses.
    Backup {
        secret: Bytes,
        pin: Hash,
        tries: u32,
    },
    /// Give the secret to who knows its PIN.
    Restore {
        pin: Hash,
    },
    /// Forget the record.
    Delete,
    /// Let the secret that was backed up be restored.
    Expose {
        secret: Bytes,
    },
}

/// What the table answers a request. Statuses are those of the wire format, unknown ones included.
#[derive(Debug, Drop, PartialEq, Eq)]
pub enum Response {
    Backup {
        status: u32,
    },
    Restore {
        status: u32,
        secret: Bytes,
        tries: u32,
    },
    Delete,
    Expose {
        status: u32,
    },
}

/// What came of a numbered request.
#[derive(Debug, Drop, PartialEq, Eq)]
pub enum Reply {
    /// It was applied.
    Applied(Response),
    /// Its number is not above the client's last one, which this is.
    Stale(u64),
    /// There is no room for a new client: so many rows stand.
    TableFull(u32),
}

/// A part of a request whose size is checked; `Nothing` where no request stands.
#[derive(Clone, Copy, Debug, PartialEq, Eq)]
pub enum Part {
    Nothing,
    Secret,
    Pin,
    Tries,
}

/// What a replica answers a client.
#[derive(Debug, Drop, PartialEq, Eq)]
pub enum Answer {
    /// The entry at this index committed, and this came of it.
    Outcome(u64, Reply),
    /// This replica leads as far as is known; 0 where none is.
    NotLeader(ReplicaId),
    /// The leader takes no entry now: the number of its entries that have not committed.
    Busy(u64),
    /// It is not known whether the request commits: the index, the hash kept there and the hash offered.
    Undecided(u64, Hash, Hash),
    /// The request's bytes have a wire fault at this offset.
    Malformed(u64),
    /// This part of the request has this length, or for the tries this value, out of range.
    Invalid(Part, u64),
    /// The replica halted at this index.
    Halted(u64),
}

impl TryCopy for Response {
    fn copy(&self, alloc: Global) -> Result<Response, Memory> {
        Ok(match self {
            Response::Backup { status } => Response::Backup { status: *status },
            Response::Restore {
                status,
                secret,
                tries,
            } => Response::Restore {
                status: *status,
                secret: secret.copy(alloc)?,
                tries: *tries,
            },
            Response::Delete => Response::Delete,
            Response::Expose { status } => Response::Expose { status: *status },
        })
    }
}

impl TryCopy for Reply {
    fn copy(&self, alloc: Global) -> Result<Reply, Memory> {
        Ok(match self {
            Reply::Applied(response) => Reply::Applied(response.copy(alloc)?),
            Reply::Stale(last) => Reply::Stale(*last),
            Reply::TableFull(rows) => Reply::TableFull(*rows),
        })
    }
}

impl TryCopy for Answer {
    fn copy(&self, alloc: Global) -> Result<Answer, Memory> {
        Ok(match self {
            Answer::Outcome(index, reply) => Answer::Outcome(*index, reply.copy(alloc)?),
            Answer::NotLeader(leader) => Answer::NotLeader(*leader),
            Answer::Busy(open) => Answer::Busy(*open),
            Answer::Undecided(index, kept, offered) => Answer::Undecided(*index, *kept, *offered),
            Answer::Malformed(offset) => Answer::Malformed(*offset),
            Answer::Invalid(part, size) => Answer::Invalid(*part, *size),
            Answer::Halted(index) => Answer::Halted(*index),
        })
    }
}
