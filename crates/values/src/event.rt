//! The events of a schedule, and why a record is none.

use crate::bytes::Bytes;
use crate::ids::{ClientId, ReplicaId};
use crate::items::Items;
use crate::want::Want;

/// One event of a schedule.
#[derive(Debug, Drop, PartialEq, Eq)]
pub enum Event {
    /// The group begins with these voters, this margin and this greatest number of rows.
    Begin {
        margin: u8,
        limit: u32,
        voters: BeginIds,
    },
    /// A learner starts.
    Start {
        replica: ReplicaId,
    },
    /// The replica's timer has run out.
    Tick {
        replica: ReplicaId,
    },
    /// The message of this number, from 1, is handed to its addressee.
    Deliver {
        message: u64,
    },
    /// The message can no longer be delivered.
    Lose {
        message: u64,
    },
    /// Up to so many messages that were never delivered are.
    Settle {
        most: u32,
    },
    /// The replica ends.
    Crash {
        replica: ReplicaId,
    },
    /// The replica's state is saved.
    Save {
        replica: ReplicaId,
    },
    /// The replica's saved state of this number is put back; 0 is its first state.
    Roll {
        replica: ReplicaId,
        state: u32,
    },
    /// The replica is told to take the other as a learner.
    Join {
        replica: ReplicaId,
        id: ReplicaId,
    },
    /// The replica is told to make the other a voter.
    Admit {
        replica: ReplicaId,
        id: ReplicaId,
    },
    /// The replica is told to remove the other.
    Remove {
        replica: ReplicaId,
        id: ReplicaId,
    },
    /// A client's request bytes are handed to the replica.
    Ask {
        replica: ReplicaId,
        client: ClientId,
        number: u64,
        request: Bytes,
    },
    /// A user of the client wants something.
    Want {
        client: ClientId,
        want: Want,
    },
    /// The client hands its request in flight to the replica.
    Say {
        client: ClientId,
        replica: ReplicaId,
    },
    /// The client hears the answer of this number, from 1.
    Hear {
        client: ClientId,
        answer: u64,
    },
    /// The replica is told to change the margin.
    Margin {
        replica: ReplicaId,
        margin: u8,
    },
    /// The client's driver goes on with what it wants.
    Again {
        client: ClientId,
    },
}

/// The ids of a begin record, in its order.
pub type BeginIds = Items<u32>;

/// Events in the order of a schedule.
pub type EventList = Items<Event>;

/// Why a record is no event.
#[derive(Clone, Copy, Debug, PartialEq, Eq)]
pub enum Cause {
    /// The first field is no known word.
    Word,
    /// The record has another number of fields.
    Fields,
    /// The group has not begun.
    NoBegin,
    /// The group has begun already.
    SecondBegin,
    /// A field is no number.
    Number,
    /// A number is out of range.
    Range,
    /// A field is not hexadecimal, or of another length.
    Hex,
    /// There are too many voters.
    TooMany,
    /// A voter stands twice.
    Double,
    /// There are too few voters for the margin.
    TooFew,
}
