//! What a line of a trace says to who audits it.

use values::{ClientId, Event, Ids, LogEntry, ReplicaId, Reply};

/// What a line says of which an auditor makes use.
#[derive(Debug, Drop)]
pub enum TraceLine {
    /// The event of this number, from 1.
    Event {
        number: u64,
        what: Event,
    },
    /// The entry newly committed on the replica, at this index.
    Commit {
        replica: ReplicaId,
        index: u64,
        entry: LogEntry,
    },
    /// A client's request of this number was answered so, by the entry at this index.
    Outcome {
        client: ClientId,
        number: u64,
        index: u64,
        reply: Reply,
    },
    /// A log gained an entry with this configuration.
    Members {
        margin: u8,
        voters: Ids,
    },
    /// The event before was refused.
    Refused,
    /// The length of the log.
    LogEnd(u64),
    /// Whether the rollbacks were within the bound.
    Rollbacks(bool),
    /// The last line of a trace that was played to its end.
    End,
    /// The last line of a trace that ends early.
    Stopped,
    /// A line of a form that says nothing else.
    Other,
}

/// Why a line was not read.
#[derive(Clone, Copy, Debug, PartialEq, Eq)]
pub enum LineError {
    /// Memory ran out.
    Memory,
    /// The line has none of the forms.
    Grammar,
}
