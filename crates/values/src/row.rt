//! The rows of the record table.

use crate::bytes::Bytes;
use crate::copies::TryCopy;
use crate::entry::Hash;
use crate::ids::ClientId;
use crate::items::Items;
use crate::memory::Memory;
use std::alloc::Global;

/// A client's row: the number of its last request, and its record where it has one.
#[derive(Debug, Drop, PartialEq, Eq)]
pub struct Row {
    pub client: ClientId,
    pub last: u64,
    pub kept: Option<Kept>,
}

/// A client's record.
#[derive(Debug, Drop, PartialEq, Eq)]
pub struct Kept {
    pub secret: Bytes,
    pub pin: Hash,
    /// The guesses that are left.
    pub left: u32,
    /// Whether the secret may be restored.
    pub exposed: bool,
}

/// Rows of a table.
pub type Rows = Items<Row>;

impl TryCopy for Kept {
    fn copy(&self, alloc: Global) -> Result<Kept, Memory> {
        Ok(Kept {
            secret: self.secret.copy(alloc)?,
            pin: self.pin,
            left: self.left,
            exposed: self.exposed,
        })
    }
}

impl TryCopy for Row {
    fn copy(&self, alloc: Global) -> Result<Row, Memory> {
        let kept = match &self.kept {
            Some(kept) => Some(kept.copy(alloc)?),
            None => None,
        };
        Ok(Row {
            client: self.client,
            last: self.last,
            kept,
        })
    }
}
