//! Why bytes are no peer message.

ghost use Rattle.std.specs.Prelude.{◌≡◌};
ghost use Rattle.group_msgs.specs.declared.fault.PeerFault.TheVariants as faults;

use proto_wire::WireFault;
use values::Memory;

/// Why bytes are no peer message. `Range` and `Size` name the field's number inside the member, or inside the
/// entry or row that breaks the rule, and for the message's term 1.
#[derive(Clone, Copy, Debug, PartialEq, Eq)]
pub enum PeerFault {
    /// Memory ran out.
    Memory,
    /// The first fault of the wire format in the order of the bytes.
    Wire(WireFault),
    /// No member of the oneof stands.
    Nothing,
    /// The number of this field is out of its range.
    Range(u32),
    /// The field has this length, or its list so many messages, which is out of its range.
    Size(u32, u64),
    /// The request of the entry at this place of the list, from 0, is not the canonical bytes of a valid request.
    NotCanonical(u64),
}

impl From<WireFault> for PeerFault {
    ghost from_gives = { λ wire fault. fault ≡ faults.Wire wire };

    fn from(fault: WireFault) -> PeerFault {
        PeerFault::Wire(fault)
    }
}

impl From<Memory> for PeerFault {
    ghost from_gives = { λ _ fault. fault ≡ faults.Memory };

    fn from(_memory: Memory) -> PeerFault {
        PeerFault::Memory
    }
}
