//! Walking through the items of a batch.

ghost use Rattle.std.specs.Prelude.{◌≡◌, ◌<◌, length, IfOk, IfSome};
ghost use Rattle.fixed_fields.specs.Fields.{Gives};
ghost use Rattle.host_msgs.specs.Batches.{item_at, next_in, batch_in};
ghost use Rattle.host_msgs.specs.Listed.{IsListed};
ghost use Rattle.host_msgs.specs.Walking.{Nexts, ReadsBatch, sender_in};
ghost use Rattle.host_msgs.specs.declared.item.Item.{Item};

use crate::fault::{BatchFault, FrameList};
use crate::gathered::{Gathered, is_in_place};
use crate::item::{Item, read_item};
use crate::kinds::item;
use fixed_fields::{block_at, u8_at, u32_at};
use std::alloc::Global;
use values::{Batch, Memory, ReplicaId};

/// The sender that the messages name, 0 where there is none, with the batch that a content says and the messages' frames.
pub fn read_batch(
    alloc: Global,
    content: &[u8],
) -> Result<(ReplicaId, Batch, FrameList), BatchFault>
    // What is read is what the items of the content say.
    ensures found { IfOk result (λ read. IsListed content.now read.0 read.1 read.2) }
    // Every content of items in order is read, and of another the offset of the first bad item is told. Where memory runs out
    // a batch alone is hidden.
    ensures exact { ReadsBatch result (batch_in content.now) }
{
    read_items(alloc, content)
}

fn read_items(alloc: Global, content: &[u8]) -> Result<(ReplicaId, Batch, FrameList), BatchFault>
    ensures { ReadsBatch result (batch_in content.now) }
{
    let mut reading = Reading::new(alloc);
    let mut rest = content;
    while !rest.is_empty() {
        match reading.next(alloc, rest) {
            Some(behind) => rest = behind,
            None => return Err(BatchFault::At((content.len() - rest.len()) as u64)),
        }
    }
    if reading.lost {
        return Err(BatchFault::Memory);
    }
    let gathered = reading.gathered;
    Ok((gathered.sender, gathered.batch, gathered.frames))
}

/// A batch as far as it was read. Where memory ran out it lacks items, and is read on to find one that is not in the
/// grammar.
#[derive(Drop)]
pub struct Reading {
    pub gathered: Gathered,
    /// Whether memory ran out.
    pub lost: bool,
}

impl Reading {
    ghost use Rattle.host_msgs.specs.Batches.{none_yet, placed, sender_of};
    ghost use Rattle.host_msgs.specs.Walking.{Stands, Follows};

    /// Nothing was read yet.
    fn new(alloc: Global) -> Reading
        ensures { Stands result none_yet }
    {
        Reading {
            gathered: Gathered::new(alloc),
            lost: false,
        }
    }

    /// Takes in the item at the front, and answers the bytes behind it; `None` where it is not in the grammar.
    fn next<'a>(&mut self, alloc: Global, bytes: &'a [u8]) -> Option<&'a [u8]>
        ensures next { (g : Gathered) → Stands self.old g → Nexts (λ behind. behind.now) result self.new (next_in g bytes.now) }
        ensures shorter { IfSome result (λ behind. length behind.now < length bytes.now) }
    {
        let (kind, content, behind) = item_at(bytes)?;
        if !is_in_place(self.gathered.last, kind) {
            return None;
        }
        let stands = match read_item(alloc, kind, content) {
            Ok(Some(item)) => self.place(kind, item),
            Ok(None) => false,
            Err(Memory) => self.pass(kind, sender_in(kind, content)),
        };
        if stands { Some(behind) } else { None }
    }

    /// Takes in an item, and answers whether it may stand here.
    fn place(&mut self, kind: u8, item: Item) -> bool
        ensures { (g : Gathered) → Stands self.old g → Follows result self.new (placed g kind item) }
    {
        match self.gathered.place(kind, item) {
            Ok(stands) => stands,
            Err(Memory) => {
                self.lost = true;
                true
            }
        }
    }

    /// Goes past an item for which memory ran out, and answers whether it may stand here.
    fn pass(&mut self, kind: u8, sender: Option<ReplicaId>) -> bool
        ensures { (g : Gathered) (item : Item) → Stands self.old g → sender_of item ≡ sender → Follows result self.new (placed g kind item) }
    {
        self.lost = true;
        self.gathered.pass(kind, sender)
    }
}

/// The sender of a message, by the content of its item.
fn sender_in(kind: u8, content: &[u8]) -> Option<ReplicaId>
    ensures { result ≡ sender_in kind content.now }
{
    if kind != item::SENT {
        return None;
    }
    let (from, _) = u32_at(content)?;
    Some(from)
}

/// Kind and content of the item at the front, and the bytes behind it.
#[tactic(auto, unfolding(crate::specs::Batches::item_at))]
fn item_at(bytes: &[u8]) -> Option<(u8, &[u8], &[u8])>
    ensures item { Gives (λ p. ((p.0, p.1.now), p.2.now)) result (item_at bytes.now) }
    ensures shorter { IfSome result (λ p. length p.2.now < length bytes.now) }
{
    let (kind, rest) = u8_at(bytes)?;
    let (size, rest) = u32_at(rest)?;
    let (content, behind) = block_at(rest, size as usize)?;
    Some((kind, content, behind))
}
