//! What replicas say to each other.

use crate::copies::TryCopy;
use crate::entry::{Entries, Hash, Point};
use crate::ids::Ids;
use crate::memory::Memory;
use crate::row::Rows;
use std::alloc::Global;

/// A message from one replica to another. Each carries its sender's term.
#[derive(Debug, Drop, PartialEq, Eq)]
pub enum PeerMsg {
    /// A candidate asks for a vote, with the index and term of its last entry.
    AskVote {
        term: u64,
        last_index: u64,
        last_term: u64,
    },
    /// The vote is granted or not.
    Vote {
        term: u64,
        granted: bool,
    },
    /// The leader's entries after `prev`, and how far it knows the log to be promised and committed.
    Append {
        term: u64,
        prev: Point,
        entries: Entries,
        promise: u64,
        commit: u64,
    },
    /// The follower's log ends as the leader's does at `end`, and is promised up to `promised`.
    Accepted {
        term: u64,
        end: Point,
        promised: u64,
    },
    /// The follower has no such point at `asked`; the leader may try again from `hint`.
    Rejected {
        term: u64,
        asked: u64,
        hint: u64,
    },
    /// A part of the leader's table.
    Part {
        term: u64,
        part: TablePart,
    },
    /// The parts of the table at `point` before number `next` have come.
    PartTaken {
        term: u64,
        point: Point,
        next: u32,
    },
}

/// A part of the table as it stands after the entry at `point`.
#[derive(Debug, Drop, PartialEq, Eq)]
pub struct TablePart {
    pub point: Point,
    /// The term of the entry at the point.
    pub last_term: u64,
    /// The index of the newest configuration at the point, with its margin and voters.
    pub conf_index: u64,
    pub margin: u8,
    pub voters: Ids,
    /// The greatest number of rows.
    pub limit: u32,
    /// The number of this part, from 0, of so many parts.
    pub part: u32,
    pub parts: u32,
    pub rows: Rows,
}

impl TryCopy for TablePart {
    fn copy(&self, alloc: Global) -> Result<TablePart, Memory> {
        Ok(TablePart {
            point: self.point,
            last_term: self.last_term,
            conf_index: self.conf_index,
            margin: self.margin,
            voters: self.voters.copy(alloc)?,
            limit: self.limit,
            part: self.part,
            parts: self.parts,
            rows: self.rows.copy(alloc)?,
        })
    }
}

impl TryCopy for PeerMsg {
    fn copy(&self, alloc: Global) -> Result<PeerMsg, Memory> {
        Ok(match self {
            PeerMsg::AskVote {
                term,
                last_index,
                last_term,
            } => PeerMsg::AskVote {
                term: *term,
                last_index: *last_index,
                last_term: *last_term,
            },
            PeerMsg::Vote { term, granted } => PeerMsg::Vote {
                term: *term,
                granted: *granted,
            },
            PeerMsg::Append {
                term,
                prev,
                entries,
                promise,
                commit,
            } => PeerMsg::Append {
                term: *term,
                prev: *prev,
                entries: entries.copy(alloc)?,
                promise: *promise,
                commit: *commit,
            },
            PeerMsg::Accepted {
                term,
                end,
                promised,
            } => PeerMsg::Accepted {
                term: *term,
                end: *end,
                promised: *promised,
            },
            PeerMsg::Rejected { term, asked, hint } => PeerMsg::Rejected {
                term: *term,
                asked: *asked,
                hint: *hint,
            },
            PeerMsg::Part { term, part } => PeerMsg::Part {
                term: *term,
                part: part.copy(alloc)?,
            },
            PeerMsg::PartTaken { term, point, next } => PeerMsg::PartTaken {
                term: *term,
                point: *point,
                next: *next,
            },
        })
    }
}
