ghost use Rattle.std.specs.Prelude.{◌≡◌, length, IfOk};
ghost use Rattle.fixed_fields.specs.Fields.{Gives};
ghost use Rattle.attested_link.specs.Frames.{frame_bytes, link_frame};

use fixed_fields::{Writer, u32_at};
use std::alloc::Global;
use values::{Bytes, Memory, ReplicaId};

/// Why a link frame is not taken: the first of these that holds, in this order.
#[derive(Clone, Copy, Debug, PartialEq, Eq)]
pub enum LinkFault {
    /// It has fewer than eight bytes: so many.
    Short(u64),
    /// It is for this replica.
    NotForMe(u32),
    /// It is from this replica, which is not linked.
    NoLink(u32),
}

/// The link frame of a message.
pub fn wrap(alloc: Global, from: ReplicaId, to: ReplicaId, message: &[u8]) -> Result<Bytes, Memory>
    ensures { IfOk result (λ bytes. bytes ≡ frame_bytes from to message.now) }
{
    let mut frame = Writer::behind(Vec::new(alloc));
    frame.u32(from)?;
    frame.u32(to)?;
    frame.bytes(message)?;
    Ok(Bytes::from(frame.finish()))
}

/// The sender, the addressee and the message of a link frame, if it has them.
pub(crate) fn parts(frame: &[u8]) -> Option<(ReplicaId, ReplicaId, &[u8])>
    ensures { Gives (λ p. (p.0, (p.1, p.2.now))) result (link_frame.read frame.now) }
{
    let (from, rest) = u32_at(frame)?;
    let (to, message) = u32_at(rest)?;
    Some((from, to, message))
}
