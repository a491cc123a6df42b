//! The values that all layers share.
#![tactic(auto)]

mod batch;
mod bytes;
mod copies;
mod entry;
mod event;
mod ids;
mod items;
mod limits;
mod memory;
mod message;
mod peer;
mod row;
#[cfg(test)]
mod tests;
mod want;

pub use batch::{AnswerList, Batch, CommitList, MemberList, Refusal, SentList};
pub use bytes::Bytes;
pub use copies::TryCopy;
pub use entry::{Body, Entries, Hash, LogEntry, Point};
pub use event::{BeginIds, Cause, Event, EventList};
pub use ids::{ClientId, Ids, ReplicaId};
pub use items::Items;
pub use limits::{
    MAX_ANSWERS, MAX_BATCH, MAX_CLIENTS, MAX_CONTENT, MAX_ENTRIES, MAX_EVENTS, MAX_FRAMES,
    MAX_MESSAGES, MAX_PARTS, MAX_REPLICAS, MAX_REQUEST, MAX_SETTLED, MAX_SOURCE, MAX_STATES,
    MOST_ROWS, ROWS_PER_PART, TOP,
};
pub use memory::Memory;
pub use message::{Answer, Part, Reply, Request, Response};
pub use peer::{PeerMsg, TablePart};
pub use row::{Kept, Row, Rows};
pub use want::{Report, Want, WantFault};
