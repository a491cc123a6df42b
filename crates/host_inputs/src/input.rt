//! What a host hands to an enclave, and why its bytes are nothing of the kind.

ghost use Rattle.std.specs.Prelude.{◌≡◌};
ghost use Rattle.host_inputs.specs.declared.input.HostFault.TheVariants as faults;

use group_quorum::ConfigFault;
use values::{ClientId, Ids, Memory, ReplicaId};

/// What a host hands to an enclave. What was read borrows `frame` and `request` from the content.
#[derive(Debug, Drop)]
pub enum HostIn<'a> {
    /// Begin as this voter of a new group.
    Begin {
        id: ReplicaId,
        margin: u8,
        limit: u32,
        voters: Ids,
    },
    /// Begin as a replica that holds nothing, linked with these.
    Learn {
        id: ReplicaId,
        linked: Ids,
    },
    /// The timer has run out.
    Tick,
    /// A link frame has come.
    Peer {
        frame: &'a [u8],
    },
    /// A client asks.
    Client {
        client: ClientId,
        number: u64,
        request: &'a [u8],
    },
    /// Send this replica the table.
    Join {
        id: ReplicaId,
    },
    /// Let this replica vote.
    Admit {
        id: ReplicaId,
    },
    /// Let this replica vote no more.
    Remove {
        id: ReplicaId,
    },
    /// Save the state.
    Save,
    /// Put back the state of this number.
    Roll {
        k: u32,
    },
    /// Link this replica.
    Link {
        id: ReplicaId,
    },
    /// Take this margin.
    Margin {
        margin: u8,
    },
}

/// Why a content says nothing: the first of these that holds, in this order.
#[derive(Clone, Copy, Debug, PartialEq, Eq)]
pub enum HostFault {
    /// Memory ran out.
    Memory,
    /// There is no such kind; 0 where the content is empty.
    Kind(u8),
    /// The content is shorter or longer than its kind says: its length.
    Length(u64),
    /// The first number in the order of the bytes that is no id of a replica.
    BadId(u32),
    /// What a group would begin with, or a margin, is out of range.
    Setup(ConfigFault),
}

impl From<Memory> for HostFault {
    ghost from_gives = { λ _ fault. fault ≡ faults.Memory };

    fn from(_memory: Memory) -> HostFault {
        HostFault::Memory
    }
}
