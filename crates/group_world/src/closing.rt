//! What a group tells at the end of its run.
ghost use Rattle.std.specs.Prelude.{◌≡◌, ◌++◌, length, OnOk, OnErr};
ghost use Rattle.std.specs.List.{list_all};
ghost use Rattle.group_model.specs.Group as group;
ghost use Rattle.group_model.specs.Group.{Group};
ghost use Rattle.group_world.specs.Closing.{closing_of};
ghost use Rattle.group_world.specs.Meanings.{Meaning, MessageOf, StateOf, SaysMessage};
ghost use Rattle.group_world.specs.Standing.{IsWorld, conf_in};

use crate::told::Told;
use crate::world::World;
use std::mem;
use trace_text::{Closing, TraceWriter};
use values::Memory;

impl World {
    /// Appends the three closing lines. After `Memory` the text is as before.
    pub fn close(&self, out: &mut Vec<u8>) -> Result<(), Memory>
        ensures ok { OnOk result (out.new.items ≡ out.old.items ++ closing_of self.now) }
        ensures err { OnErr result (out.new.items ≡ out.old.items) }
    {
        let closing = Closing {
            log: self.log(),
            within: self.is_within(),
            events: self.events(),
            messages: self.messages(),
            answers: self.answers(),
        };
        let alloc = *out.allocator();
        let mut lines = TraceWriter::behind(mem::replace(out, Vec::new(alloc)));
        let written = lines.closing(&closing);
        *out = lines.finish(written.is_ok());
        Ok(written?)
    }

    /// How many events were played, refused ones included.
    pub fn events(&self) -> u64
        ensures { result ≡ self.now.events }
    {
        self.events
    }

    /// How many messages were sent.
    pub fn messages(&self) -> u64
        ensures count { result ≡ length self.now.post }
        ensures model { (m : Meaning) (g : Group (MessageOf m) (StateOf m)) → IsWorld (SaysMessage m) self.now g → result ≡ length g.messages }
    {
        self.post.count()
    }

    /// How many answers were given.
    pub fn answers(&self) -> u64
        ensures count { result ≡ length self.now.answers.items }
        ensures model { (m : Meaning) (g : Group (MessageOf m) (StateOf m)) → IsWorld (SaysMessage m) self.now g → result ≡ length g.answers }
    {
        self.answers.len() as u64
    }

    /// The greatest index that a replica told as committed, or 0.
    pub fn log(&self) -> u64
        ensures { result ≡ self.now.committed }
    {
        self.committed
    }

    /// Whether each configuration that was told bears the rollbacks: at most twice its margin of its voters were rolled back.
    pub fn is_within(&self) -> bool
        ensures bears { result ≡ list_all (λ told. group.bears self.now.rolled.items (conf_in told)) self.now.confs.items }
        ensures model { (m : Meaning) (g : Group (MessageOf m) (StateOf m)) → IsWorld (SaysMessage m) self.now g → result ≡ group.is_within g }
    {
        self.all_bear()
    }

    fn all_bear(&self) -> bool
        ensures { result ≡ list_all (λ told. group.bears self.now.rolled.items (conf_in told)) self.now.confs.items }
    {
        self.confs.as_slice().iter().all(|told| self.bears(told))
    }

    /// Whether at most twice its margin of a configuration's voters were rolled back.
    fn bears(&self, told: &Told) -> bool
        ensures { result ≡ group.bears self.now.rolled.items (conf_in told.now) }
    {
        let rolled = self.rolled.as_slice();
        let voters = told.voters.as_slice().iter();
        voters.filter(|voter| rolled.contains(*voter)).count() <= 2 * usize::from(told.margin)
    }
}
