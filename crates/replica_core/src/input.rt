//! What a replica is told.

use values::{ClientId, Memory, PeerMsg, ReplicaId};

/// What a replica is told.
#[derive(Debug, Drop)]
pub enum Input<'a> {
    /// Its timer ran out.
    Tick,
    /// A message came from a linked replica.
    Peer {
        from: ReplicaId,
        msg: PeerMsg,
    },
    /// A client asks, by the bytes of its numbered request.
    Client {
        client: ClientId,
        number: u64,
        request: &'a [u8],
    },
    /// The replica of this id is to learn; whether there is a link to it.
    Join {
        id: ReplicaId,
        linked: bool,
    },
    /// The learner of this id is to become a voter.
    Admit {
        id: ReplicaId,
    },
    /// The voter of this id is to be removed.
    Remove {
        id: ReplicaId,
    },
    /// The margin is to change, with the voters as they are.
    Margin {
        margin: u8,
    },
}

/// Why a step did nothing that counts.
#[derive(Clone, Copy, Debug, PartialEq, Eq)]
pub enum StepFault {
    /// Memory ran out. The replica is spent, and nothing of the batch counts.
    Memory,
    /// The replica was spent: memory ran out in an earlier step, or it is a copy of a spent one.
    Spent,
}

impl From<Memory> for StepFault {
    ghost use Rattle.std.specs.Prelude.{◌≡◌};
    ghost use Rattle.replica_core.specs.declared.input.StepFault.TheVariants.{Memory as MemoryFault};

    ghost from_gives = { λ _ fault. fault ≡ MemoryFault };

    fn from(_memory: Memory) -> StepFault {
        StepFault::Memory
    }
}
