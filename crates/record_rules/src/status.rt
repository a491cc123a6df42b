//! The statuses of responses that the table gives.

/// The request did what it asked.
pub const OK: u32 = 1;

/// A restore found no record, or one that is not exposed.
pub const MISSING: u32 = 2;

/// A restore's PIN is not the record's, and has cost a try.
pub const PIN_MISMATCH: u32 = 3;

/// An expose found no record with this secret.
pub const ERROR: u32 = 2;
