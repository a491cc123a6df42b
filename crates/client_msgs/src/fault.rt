//! Why bytes are no request or no response.

ghost use Rattle.std.specs.Prelude.{◌≡◌};
ghost use Rattle.client_msgs.specs.declared.fault.RequestFault.TheVariants as request_faults;
ghost use Rattle.client_msgs.specs.declared.fault.ResponseFault.TheVariants as response_faults;

use proto_wire::WireFault;
use values::{Memory, Part};

/// Why bytes are no request.
#[derive(Clone, Copy, Debug, PartialEq, Eq)]
pub enum RequestFault {
    /// Memory ran out.
    Memory,
    /// The first fault of the wire format in the order of the bytes.
    Wire(WireFault),
    /// No member of the oneof stands.
    Nothing,
    /// The first size out of range, in the order secret, pin, tries: the length, or for tries the value.
    Size(Part, u64),
}

/// Why bytes are no response.
#[derive(Clone, Copy, Debug, PartialEq, Eq)]
pub enum ResponseFault {
    /// Memory ran out.
    Memory,
    /// The first fault of the wire format in the order of the bytes.
    Wire(WireFault),
    /// No member of the oneof stands.
    Nothing,
}

impl From<Memory> for RequestFault {
    ghost from_gives = { λ _ fault. fault ≡ request_faults.Memory };

    fn from(_memory: Memory) -> RequestFault {
        RequestFault::Memory
    }
}

impl From<WireFault> for RequestFault {
    ghost from_gives = { λ wire fault. fault ≡ request_faults.Wire wire };

    fn from(fault: WireFault) -> RequestFault {
        RequestFault::Wire(fault)
    }
}

impl From<(Part, u64)> for RequestFault {
    ghost from_gives = { λ size fault. fault ≡ request_faults.Size size.0 size.1 };

    fn from((part, size): (Part, u64)) -> RequestFault {
        RequestFault::Size(part, size)
    }
}

impl From<Memory> for ResponseFault {
    ghost from_gives = { λ _ fault. fault ≡ response_faults.Memory };

    fn from(_memory: Memory) -> ResponseFault {
        ResponseFault::Memory
    }
}

impl From<WireFault> for ResponseFault {
    ghost from_gives = { λ wire fault. fault ≡ response_faults.Wire wire };

    fn from(fault: WireFault) -> ResponseFault {
        ResponseFault::Wire(fault)
    }
}
