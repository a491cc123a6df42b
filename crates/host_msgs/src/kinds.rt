//! The numbers of kinds, which reading and writing share.

/// The items of a batch, in the order in which they stand.
pub mod item {
    pub const LEAD: u8 = 1;

    pub const MEMBERS: u8 = 2;

    pub const HALT: u8 = 3;

    pub const TAKEN: u8 = 4;

    pub const COMMIT: u8 = 5;

    pub const ANSWER: u8 = 6;

    pub const SENT: u8 = 7;

    pub const SAVED: u8 = 8;

    pub const REFUSED: u8 = 9;
}

/// The bodies of entries.
pub mod body {
    pub const NOOP: u8 = 0;

    pub const ASK: u8 = 1;

    pub const MEMBERS: u8 = 2;
}

/// The answers to clients.
pub mod answer {
    pub const OUTCOME: u8 = 0;

    pub const NOT_LEADER: u8 = 1;

    pub const BUSY: u8 = 2;

    pub const UNDECIDED: u8 = 3;

    pub const MALFORMED: u8 = 4;

    pub const INVALID: u8 = 5;

    pub const HALTED: u8 = 6;
}

/// The replies of the record table.
pub mod reply {
    pub const APPLIED: u8 = 0;

    pub const STALE: u8 = 1;

    pub const TABLE_FULL: u8 = 2;
}

/// The parts of a request.
pub mod part {
    pub const NOTHING: u8 = 0;

    pub const SECRET: u8 = 1;

    pub const PIN: u8 = 2;

    pub const TRIES: u8 = 3;
}

/// The refusals.
pub mod refusal {
    pub const NOT_LEADER: u8 = 1;

    pub const CHANGE_PENDING: u8 = 2;

    pub const ALREADY_VOTER: u8 = 3;

    pub const NOT_VOTER: u8 = 4;

    pub const TOO_FEW: u8 = 5;

    pub const TOO_MANY: u8 = 6;

    pub const NOT_CAUGHT_UP: u8 = 7;

    pub const NO_LINK: u8 = 8;

    pub const LOG_FULL: u8 = 9;

    pub const NO_STATE: u8 = 10;

    pub const NOT_FOR_ME: u8 = 11;

    pub const BAD_PEER: u8 = 12;

    pub const SAME_MARGIN: u8 = 13;
}
