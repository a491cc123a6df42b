//! The log's entries, and the points of a log.

use crate::bytes::Bytes;
use crate::copies::TryCopy;
use crate::ids::{ClientId, Ids};
use crate::items::Items;
use crate::memory::Memory;
use std::alloc::Global;

/// SHA-256's 32 bytes: of a chain over a log, or of a PIN.
#[derive(Clone, Copy, Debug, PartialEq, Eq)]
pub struct Hash(pub [u8; 32]);

/// A place of a log: an index, and the hash of the chain there.
#[derive(Clone, Copy, Debug, PartialEq, Eq)]
pub struct Point {
    pub index: u64,
    pub hash: Hash,
}

/// What a leader appends to the log in its term.
#[derive(Debug, Drop, PartialEq, Eq)]
pub struct LogEntry {
    pub term: u64,
    pub body: Body,
}

/// The content of an entry.
#[derive(Debug, Drop, PartialEq, Eq)]
pub enum Body {
    /// Nothing: the first entry of a leader.
    Noop,
    /// A client's numbered request, by its canonical bytes.
    Ask {
        client: ClientId,
        number: u64,
        request: Bytes,
    },
    /// The configuration from here on: the voters, and the rollbacks that their quorums bear.
    Members {
        margin: u8,
        voters: Ids,
    },
}

/// Entries in the order of the log.
pub type Entries = Items<LogEntry>;

impl TryCopy for Body {
    fn copy(&self, alloc: Global) -> Result<Body, Memory> {
        Ok(match self {
            Body::Noop => Body::Noop,
            Body::Ask {
                client,
                number,
                request,
            } => Body::Ask {
                client: *client,
                number: *number,
                request: request.copy(alloc)?,
            },
            Body::Members { margin, voters } => Body::Members {
                margin: *margin,
                voters: voters.copy(alloc)?,
            },
        })
    }
}

impl TryCopy for LogEntry {
    fn copy(&self, alloc: Global) -> Result<LogEntry, Memory> {
        Ok(LogEntry {
            term: self.term,
            body: self.body.copy(alloc)?,
        })
    }
}
