//! What a user wants of the group, and what becomes of it.

use crate::bytes::Bytes;
use crate::entry::Hash;
use crate::message::Part;

/// What a user wants.
#[derive(Debug, Drop, PartialEq, Eq)]
pub enum Want {
    /// Keep this secret: a backup and then an expose.
    Store {
        secret: Bytes,
        pin: Hash,
        tries: u32,
    },
    /// Give the secret back.
    Recover {
        pin: Hash,
    },
    /// Forget it.
    Erase,
}

/// How a want ended.
#[derive(Debug, Drop, PartialEq, Eq)]
pub enum Report {
    /// The secret is kept and may be recovered.
    Stored,
    /// The secret, and the guesses that are left.
    Recovered { secret: Bytes, left: u32 },
    /// The PIN is another; so many guesses are left.
    WrongPin { left: u32 },
    /// There is no record.
    Missing,
    /// The record is gone.
    Deleted,
    /// The record holds another secret than the one to expose.
    ExposeError,
    /// There is no room for a new client: so many rows stand.
    Full { rows: u32 },
    /// It is not known what became of the want; `last` is the number that is known to be used.
    Undecided { last: u64 },
}

/// Why a want was not taken up.
#[derive(Clone, Copy, Debug, PartialEq, Eq)]
pub enum WantFault {
    /// Another is in flight.
    ClientBusy,
    /// This part has this length, or for the tries this value, out of range.
    Size(Part, u64),
    /// Too few numbers are left above this last one.
    NumbersOut(u64),
}
