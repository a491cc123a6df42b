//! The values that all layers share, and the source and the sink of bytes: what the crates `values` and `byte_streams`
//! declare, under one name.
#![tactic(auto)]

pub use byte_streams::{Failed, MemSink, MemSource, Sink, Source, StdSink, StdSource, write_all};
pub use values::{
    Answer, AnswerList, Batch, BeginIds, Body, Bytes, Cause, ClientId, CommitList, Entries, Event,
    EventList, Hash, Ids, Items, Kept, LogEntry, MAX_ANSWERS, MAX_BATCH, MAX_CLIENTS, MAX_CONTENT,
    MAX_ENTRIES, MAX_EVENTS, MAX_FRAMES, MAX_MESSAGES, MAX_PARTS, MAX_REPLICAS, MAX_REQUEST,
    MAX_SETTLED, MAX_SOURCE, MAX_STATES, MOST_ROWS, MemberList, Memory, Part, PeerMsg, Point,
    ROWS_PER_PART, Refusal, ReplicaId, Reply, Report, Request, Response, Row, Rows, SentList, TOP,
    TablePart, TryCopy, Want, WantFault,
};
