//! The greatest and the most of what layers share. Which replicas and voters there may be is said by `group_quorum`, what a
//! leader keeps by `replica_model`.

/// The greatest index and the greatest term.
pub const TOP: u64 = 4_611_686_018_427_387_904;
/// The most entries of one append.
pub const MAX_ENTRIES: u64 = 16;
/// The most rows of a table; the least limit of a table is 1.
pub const MOST_ROWS: u32 = 20_000;
/// The most rows of one part of a table.
pub const ROWS_PER_PART: u32 = 32;
/// The most parts of one table.
pub const MAX_PARTS: u32 = 625;

/// The most events of a run.
pub const MAX_EVENTS: u64 = 1_000_000;
/// The most messages of a run.
pub const MAX_MESSAGES: u64 = 200_000;
/// The most answers of a run.
pub const MAX_ANSWERS: u64 = 1_000_000;
/// The most replicas that a run starts.
pub const MAX_REPLICAS: u64 = 64;
/// The most states that a run saves.
pub const MAX_STATES: u64 = 64;
/// The most clients of a run.
pub const MAX_CLIENTS: u64 = 20_000;

/// The most bytes of a source that are played.
pub const MAX_SOURCE: usize = 67_108_864;
/// The most request bytes of one record.
pub const MAX_REQUEST: usize = 65_536;
/// The most messages that one record settles.
pub const MAX_SETTLED: u32 = 1_000_000;
/// The most bytes of a content that a host sends; the least is 1.
pub const MAX_CONTENT: u32 = 1_048_576;
/// The most bytes of a content that a host is sent back.
pub const MAX_BATCH: u32 = 67_108_864;
/// The most frames of one session.
pub const MAX_FRAMES: u64 = 10_000_000;
