//! Voters as bytes: ids of four bytes each, the highest first.

ghost use Rattle.std.specs.Prelude.{◌≡◌, ◌≤◌, ◌*◌, ◌++◌, List, length, OnOk, OnErr};
ghost use Rattle.group_msgs.specs.Values.{ids_in};
ghost use Rattle.group_msgs.specs.Rules.{are_voters_long, rise_above};

use arrayvec::ArrayVec;
use byteorder::{BigEndian, ByteOrder};
use group_quorum::{MAX_ID, MAX_VOTERS};

/// Whether the bytes are as long as those of 1 to [`MAX_VOTERS`] voters.
pub(crate) fn are_voters_long(bytes: &[u8]) -> bool
    ensures { result ≡ are_voters_long bytes.now }
{
    4 <= bytes.len() && bytes.len() <= 4 * MAX_VOTERS && bytes.len() % 4 == 0
}

/// The ids that stand in the bytes.
pub(crate) fn ids_in(bytes: &[u8]) -> ArrayVec<u32, MAX_VOTERS>
    requires { length bytes.now ≤ 4 * MAX_VOTERS }
    ensures { result.items ≡ ids_in bytes.now }
{
    let mut ids = ArrayVec::new();
    for k in 0..bytes.len() / 4 {
        ids.push(BigEndian::read_u32(&bytes[4 * k..]));
    }
    ids
}

/// Whether the ids rise strictly, from 1 at least to [`MAX_ID`] at most.
pub(crate) fn are_rising(ids: &[u32]) -> bool
    ensures { result ≡ rise_above 0 ids.now }
{
    let mut last = 0;
    for &id in ids {
        if id <= last || id > MAX_ID {
            return false;
        }
        last = id;
    }
    true
}
