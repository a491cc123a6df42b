//! One item of a batch.

ghost use Rattle.std.specs.Prelude.{◌≡◌};
ghost use Rattle.host_msgs.specs.Batches.{sender_of};
ghost use Rattle.host_msgs.specs.Items.{item_in};
ghost use Rattle.host_msgs.specs.Reading.{Finds};

use crate::answer::answer;
use crate::commit::commit;
use crate::kinds;
use crate::plain::{halt, lead, saved, taken};
use crate::refusal::refused;
use crate::sent::sent;
use crate::voters::members;
use std::alloc::Global;
use values::{
    Answer, Bytes, ClientId, Hash, Ids, LogEntry, Memory, PeerMsg, Point, Refusal, ReplicaId,
};

/// What an item says.
#[derive(Drop)]
pub enum Item {
    Lead(u64),
    Members(u64, u8, Ids),
    Halt(u64, Hash, Hash),
    Taken(Point),
    Commit(u64, LogEntry),
    Answer(ClientId, u64, Answer),
    /// A message to a replica, with its sender and its frame.
    Sent {
        from: ReplicaId,
        to: ReplicaId,
        message: PeerMsg,
        frame: Bytes,
    },
    Saved(u32),
    Refused(Refusal),
}

impl Item {
    /// The sender that the item names.
    pub fn sender(&self) -> Option<ReplicaId>
        ensures { result ≡ sender_of self.now }
    {
        match self {
            Item::Sent { from, .. } => Some(*from),
            _ => None,
        }
    }
}

/// The item that a content of this kind says, if it says one.
#[tactic(auto, unfolding(crate::specs::Items::item_in))]
pub fn read_item(alloc: Global, kind: u8, content: &[u8]) -> Result<Option<Item>, Memory>
    ensures { Finds result (item_in kind content.now) }
{
    match kind {
        kinds::item::LEAD => Ok(lead(content)),
        kinds::item::MEMBERS => members(alloc, content),
        kinds::item::HALT => Ok(halt(content)),
        kinds::item::TAKEN => Ok(taken(content)),
        kinds::item::COMMIT => commit(alloc, content),
        kinds::item::ANSWER => answer(alloc, content),
        kinds::item::SENT => sent(alloc, content),
        kinds::item::SAVED => Ok(saved(content)),
        kinds::item::REFUSED => Ok(refused(content)),
        _ => Ok(None),
    }
}
