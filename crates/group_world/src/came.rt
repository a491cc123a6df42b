//! What came of an event.
ghost use Rattle.std.specs.Prelude.{◌≡◌};
ghost use Rattle.group_world.specs.declared.came.Unplayed.TheVariants as unplayed;

use trace_text::{GroupRefusal, Quantity};
use values::{Batch, ClientId, Memory, ReplicaId, Report};

/// What came of an event.
#[derive(Drop)]
pub(crate) enum Came {
    /// The group refused it.
    Refused(GroupRefusal),
    /// A replica was called and left this batch.
    Replied(ReplicaId, Box<Batch>),
    /// A client reports what became of its want.
    Reported(ClientId, Report),
    /// It was played, and there is nothing to tell.
    Passed,
}

/// Why an event was not played.
#[derive(Clone, Copy, Debug, PartialEq, Eq)]
pub enum Unplayed {
    /// Memory ran out.
    Memory,
    /// The field failed, and its count of faults rose.
    FieldFault,
    /// The event would pass, or has passed, the run's limit of this.
    Limit(Quantity),
    /// What the field answered is no batch, from this offset on.
    Frame(u64),
}

impl From<Memory> for Unplayed {
    ghost from_gives = { λ _ fault. fault ≡ unplayed.Memory };

    fn from(_memory: Memory) -> Unplayed {
        Unplayed::Memory
    }
}
