//! The items that were read so far.

ghost use Rattle.std.specs.Prelude.{◌≡◌, OnOk};
ghost use Rattle.host_msgs.specs.Batches.{is_in_place, may_repeat};

use crate::fault::FrameList;
use crate::item::Item;
use crate::kinds::item;
use std::alloc::Global;
use values::{Batch, Items, Memory, ReplicaId};

/// A batch as far as it was read.
#[derive(Drop)]
pub struct Gathered {
    /// The kind of the last item; 0 where none was read.
    pub last: u8,
    /// The sender of the messages; 0 where none was read.
    pub sender: ReplicaId,
    pub batch: Batch,
    pub frames: FrameList,
}

impl Gathered {
    ghost use Rattle.host_msgs.specs.Batches.{none_yet, passed, with_item, placed};
    ghost use Rattle.host_msgs.specs.Walking.{AreAlike, Passes, Places};

    /// Nothing was read yet.
    pub fn new(alloc: Global) -> Gathered
        ensures { result ≡ none_yet }
    {
        Gathered {
            last: 0,
            sender: 0,
            batch: Batch {
                lead: None,
                members: Items::new(alloc),
                halt: None,
                taken: None,
                commits: Items::new(alloc),
                answers: Items::new(alloc),
                sent: Items::new(alloc),
                saved: None,
                refused: None,
            },
            frames: Items::new(alloc),
        }
    }

    /// Takes in an item of this kind, and answers whether it may stand here: a message is from the sender of those before
    /// it. Where memory runs out, what it says is left out, but not its kind and its sender.
    pub fn place(&mut self, kind: u8, item: Item) -> Result<bool, Memory>
        ensures { Places result self.new (placed self.old kind item) }
    {
        if !self.pass(kind, item.sender()) {
            return Ok(false);
        }
        self.keep(item)?;
        Ok(true)
    }

    /// Goes past an item of this kind, which names this sender, and answers whether it may stand here.
    pub fn pass(&mut self, kind: u8, sender: Option<ReplicaId>) -> bool
        ensures { Passes result self.new (passed self.old kind sender) }
    {
        if let Some(from) = sender {
            if self.sender != 0 && self.sender != from {
                return false;
            }
            self.sender = from;
        }
        self.last = kind;
        true
    }

    /// Puts what an item says into the batch.
    fn keep(&mut self, item: Item) -> Result<(), Memory>
        ensures kept { OnOk result (self.new ≡ with_item self.old item) }
        ensures marks { AreAlike self.new self.old }
    {
        let batch = &mut self.batch;
        match item {
            Item::Lead(term) => batch.lead = Some(term),
            Item::Members(index, margin, voters) => batch.members.push((index, margin, voters))?,
            Item::Halt(index, kept, offered) => batch.halt = Some((index, kept, offered)),
            Item::Taken(point) => batch.taken = Some(point),
            Item::Commit(index, entry) => batch.commits.push((index, entry))?,
            Item::Answer(client, number, answer) => batch.answers.push((client, number, answer))?,
            Item::Sent {
                to,
                message,
                frame,
                ..
            } => {
                batch.sent.push((to, message))?;
                self.frames.push(frame)?;
            }
            Item::Saved(k) => batch.saved = Some(k),
            Item::Refused(refusal) => batch.refused = Some(refusal),
        }
        Ok(())
    }
}

/// Whether an item of this kind may follow one of another.
pub fn is_in_place(last: u8, kind: u8) -> bool
    ensures { result ≡ is_in_place last kind }
{
    last < kind || last == kind && may_repeat(kind)
}

/// Whether a batch may have several items of this kind.
fn may_repeat(kind: u8) -> bool
    ensures { result ≡ may_repeat kind }
{
    matches!(
        kind,
        item::MEMBERS | item::COMMIT | item::ANSWER | item::SENT
    )
}
