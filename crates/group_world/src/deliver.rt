//! Messages are delivered and lost.
ghost use Rattle.std.specs.Prelude.{◌≡◌, [], false, Option, Some, Ok, IfErr, IfOk, OnOk};
ghost use Rattle.values.specs.declared.event.Event.TheVariants as event;
ghost use Rattle.byte_streams.specs.Causes.{HasCauseAt};
ghost use Rattle.group_model.specs.Group.{Group, next_message, numbered};
ghost use Rattle.enclave_host.specs.Fields.{IsInput, Map};
ghost use Rattle.group_world.specs.Meanings.{Meaning, MessageOf, StateOf, SaysMessage};
ghost use Rattle.group_world.specs.Missing.{IsMissing, IsThere};
ghost use Rattle.group_world.specs.Plays.{Acts, Did, Does, Hands};
ghost use Rattle.group_world.specs.Posted.{is_lost, next_in};
ghost use Rattle.group_world.specs.Standing.{IsWorld, Runs};

use crate::call::content_of;
use crate::came::{Came, Unplayed};
use crate::post::{Fate, Letter};
use crate::world::World;
use enclave_host::Field;
use host_inputs::HostIn;
use std::alloc::Global;
use trace_text::GroupRefusal;
use values::{Bytes, Memory, ReplicaId};

impl World {
    /// The number of the next message: the least one that was never delivered, is not lost and whose addressee runs.
    pub fn next_message(&self) -> Option<u64>
        ensures letter { result ≡ next_in self.now.running.items self.now.post }
        ensures model { (m : Meaning) (g : Group (MessageOf m) (StateOf m)) → IsWorld (SaysMessage m) self.now g → result ≡ next_message g }
    {
        self.post.next(self.running.as_slice())
    }

    /// A message is handed to its addressee, which may have got it before.
    pub(crate) fn deliver<F: Field>(
        &mut self,
        alloc: Global,
        number: u64,
        field: &mut F,
    ) -> Result<Came, Unplayed>
        requires { Runs (F.map field.old) self.old.running.items }
        ensures does { Did (Acts (event.Deliver number)) self.old self.new (F.map field.old) (F.map field.new) (F.answers field.old) (F.answers field.new) result }
        ensures runs { OnOk result (Runs (F.map field.new) self.new.running.items) }
        ensures cause { HasCauseAt Unplayed.FieldFault (F.faults field.old) (F.faults field.new) result }
    {
        let found = match self.hand(alloc, number) {
            Ok(found) => found,
            Err(Memory) => return Err(Unplayed::Memory),
        };
        match found {
            Ok((to, input)) => {
                self.post.mark((number - 1) as usize, Fate::Delivered);
                self.tell(alloc, to, input.as_slice(), field)
            }
            Err(refusal) => Ok(Came::Refused(refusal)),
        }
    }

    /// A message is lost: it is delivered no more.
    pub(crate) fn lose(&mut self, number: u64) -> Came
        ensures does { (map : Option Map) → Does (Acts (event.Lose number)) self.old self.new map map [] (Ok result) }
        ensures running { self.new.running.items ≡ self.old.running.items }
    {
        if let Err(refusal) = self.letter(number) {
            return Came::Refused(refusal);
        }
        self.post.mark((number - 1) as usize, Fate::Lost);
        Came::Passed
    }

    /// Whom a message is for, and the content that hands it over; or why it cannot be delivered.
    fn hand(
        &self,
        alloc: Global,
        number: u64,
    ) -> Result<Result<(ReplicaId, Bytes), GroupRefusal>, Memory>
        ensures hands { IfOk result (λ found. Hands self.now number found) }
        ensures input { IfOk result (λ found. IfOk found (λ handed. IsInput handed.1)) }
        ensures there { IfOk result (λ found. OnOk found (IsThere self.now.post number)) }
    {
        let letter = match self.letter(number) {
            Ok(letter) => letter,
            Err(refusal) => return Ok(Err(refusal)),
        };
        if !self.runs(letter.to) {
            return Ok(Err(GroupRefusal::NotRunning(letter.to)));
        }
        let frame = letter.frame.as_slice();
        let input = content_of(alloc, &HostIn::Peer { frame })?;
        Ok(Ok((letter.to, input)))
    }

    /// The message of this number, if it is not lost.
    fn letter(&self, number: u64) -> Result<&Letter, GroupRefusal>
        ensures found { IfOk result (λ letter. numbered self.now.post number ≡ Some letter.now) }
        ensures there { IfOk result (λ letter. is_lost letter.now.fate ≡ false) }
        ensures missing { IfErr result (IsMissing self.now.post number) }
    {
        match self.post.letter(number) {
            Some(letter) if letter.fate == Fate::Lost => Err(GroupRefusal::Lost(number)),
            Some(letter) => Ok(letter),
            None => Err(GroupRefusal::NoMessage(number)),
        }
    }
}
