//! Numbers that reading and writing share.

/// The members of a message, by the numbers of their fields.
pub mod members {
    pub const ASK_VOTE: u64 = 2;

    pub const VOTE: u64 = 3;

    pub const APPEND: u64 = 4;

    pub const ACCEPTED: u64 = 5;

    pub const REJECTED: u64 = 6;

    pub const PART: u64 = 7;

    pub const PART_TAKEN: u64 = 8;
}

/// The kinds of entries.
pub mod kinds {
    pub const NOOP: u32 = 0;

    pub const ASK: u32 = 1;

    pub const MEMBERS: u32 = 2;
}
