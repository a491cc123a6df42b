//! The items of messages to replicas.

ghost use Rattle.std.specs.Prelude.{◌≡◌};
ghost use Rattle.fixed_fields.specs.Fields.{Gives};
ghost use Rattle.attested_link.specs.Frames.{link_frame};
ghost use Rattle.group_quorum.specs.Voters.{is_id};
ghost use Rattle.host_msgs.specs.Items.{sent_in};
ghost use Rattle.host_msgs.specs.Reading.{Finds};
ghost use Rattle.host_msgs.specs.Wrapped.{message_in};

use crate::item::Item;
use fixed_fields::u32_at;
use group_msgs::{PeerFault, read_peer};
use group_quorum::MAX_ID;
use std::alloc::Global;
use values::{Bytes, Memory, PeerMsg, ReplicaId};

pub fn sent(alloc: Global, frame: &[u8]) -> Result<Option<Item>, Memory>
    ensures { Finds result (sent_in frame.now) }
{
    let Some((from, to, message)) = parts(frame) else {
        return Ok(None);
    };
    if !is_id(from) || !is_id(to) {
        return Ok(None);
    }
    let Some(message) = message_of(alloc, message)? else {
        return Ok(None);
    };
    let frame = Bytes::from_slice(alloc, frame)?;
    Ok(Some(Item::Sent {
        from,
        to,
        message,
        frame,
    }))
}

/// Sender, addressee and message.
fn parts(frame: &[u8]) -> Option<(ReplicaId, ReplicaId, &[u8])>
    ensures { Gives (λ p. (p.0, (p.1, p.2.now))) result (link_frame.read frame.now) }
{
    let (from, rest) = u32_at(frame)?;
    let (to, message) = u32_at(rest)?;
    Some((from, to, message))
}

fn is_id(id: u32) -> bool
    ensures { result ≡ is_id id }
{
    id != 0 && id <= MAX_ID
}

#[tactic(auto, unfolding(crate::specs::Wrapped::message_in))]
fn message_of(alloc: Global, bytes: &[u8]) -> Result<Option<PeerMsg>, Memory>
    ensures { Finds result (message_in bytes.now) }
{
    match read_peer(alloc, bytes) {
        Ok(message) => Ok(Some(message)),
        Err(PeerFault::Memory) => Err(Memory),
        Err(_) => Ok(None),
    }
}
