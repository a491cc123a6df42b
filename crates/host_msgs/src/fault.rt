//! What reading a batch answers.

ghost use Rattle.std.specs.Prelude.{◌≡◌};
ghost use Rattle.host_msgs.specs.declared.fault.BatchFault.TheVariants as faults;

use values::{Bytes, Items, Memory};

/// Frames as bytes, in the order of a batch.
pub type FrameList = Items<Bytes>;

/// Why a content is no batch.
#[derive(Clone, Copy, Debug, PartialEq, Eq)]
pub enum BatchFault {
    /// Memory ran out.
    Memory,
    /// The first item that is not in the grammar stands at this offset.
    At(u64),
}

impl From<Memory> for BatchFault {
    ghost from_gives = { λ _ fault. fault ≡ faults.Memory };

    fn from(_memory: Memory) -> BatchFault {
        BatchFault::Memory
    }
}
