//! How a session ends.

use host_inputs::HostFault;

/// How the serving of a session ended.
#[derive(Clone, Copy, Debug, PartialEq, Eq)]
pub enum Served {
    /// The source was read to its end, between two frames, and all was written.
    Done,
    /// Memory ran out.
    Memory,
    /// The source failed.
    ReadFault,
    /// The sink failed.
    WriteFault,
    /// The frame whose first byte has this offset is bad.
    Frame { at: u64, cause: FrameCause },
    /// More bytes follow [`values::MAX_FRAMES`] whole frames, or a batch content has more than [`values::MAX_BATCH`] bytes.
    Limit,
}

/// Why a frame is bad: the first of these that holds, in this order.
#[derive(Clone, Copy, Debug, PartialEq, Eq)]
pub enum FrameCause {
    /// The source ends within the frame. Where it ends behind a length that is out of range, that is told.
    Cut,
    /// No content has this length: it is 0, or above 1,048,576.
    Length(u32),
    /// The tag is not that of the frame of this number, from 0.
    Tag(u64),
    /// The content says nothing, and this is why.
    Content(HostFault),
    /// The first content starts no enclave.
    NotBegun,
    /// A later content starts one.
    BegunAgain,
}
