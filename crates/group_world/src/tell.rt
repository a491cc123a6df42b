//! The events by which a replica is told something.
ghost use Rattle.std.specs.Prelude.{◌≡◌, true, OnOk};
ghost use Rattle.byte_streams.specs.Causes.{HasCauseAt};
ghost use Rattle.host_inputs.specs.Checking.{IsSound};
ghost use Rattle.host_inputs.specs.Inputs.{FitsInput, input_of};
ghost use Rattle.enclave_host.specs.Fields.{IsInput};
ghost use Rattle.group_world.specs.Plays.{Acts, Did, Tells};
ghost use Rattle.group_world.specs.Playable.{IsPlayable, IsTelling, IsTold, IsToldBy};
ghost use Rattle.group_world.specs.Standing.{Runs};

use crate::call::{call, content_of};
use crate::came::{Came, Unplayed};
use crate::world::World;
use enclave_host::Field;
use host_inputs::HostIn;
use std::alloc::Global;
use trace_text::GroupRefusal;
use values::{Event, Memory, ReplicaId};

impl World {
    /// Hands a content to a replica.
    pub(crate) fn tell<F: Field>(
        &mut self,
        alloc: Global,
        id: ReplicaId,
        input: &[u8],
        field: &mut F,
    ) -> Result<Came, Unplayed>
        requires content { IsInput input.now }
        requires runs { Runs (F.map field.old) self.old.running.items }
        ensures does { Did (Tells id input.now) self.old self.new (F.map field.old) (F.map field.new) (F.answers field.old) (F.answers field.new) result }
        ensures runs { OnOk result (Runs (F.map field.new) self.new.running.items) }
        ensures cause { HasCauseAt Unplayed.FieldFault (F.faults field.old) (F.faults field.new) result }
    {
        if !self.runs(id) {
            return Ok(Came::Refused(GroupRefusal::NotRunning(id)));
        }
        let (batch, frames) = match call(alloc, id, input, field) {
            Ok(read) => read,
            Err(e) => return Err(e),
        };
        match self.keep(id, &batch, frames) {
            Ok(()) => Ok(Came::Replied(id, batch)),
            Err(Memory) => Err(Unplayed::Memory),
        }
    }

    /// Tells a replica this, which is no start and no message.
    pub(crate) fn tell_input<F: Field>(
        &mut self,
        alloc: Global,
        id: ReplicaId,
        input: &HostIn<'_>,
        field: &mut F,
    ) -> Result<Came, Unplayed>
        requires told { IsTold (input_of input.now) }
        requires fits { FitsInput (input_of input.now) }
        requires sound { IsSound (input_of input.now) }
        requires runs { Runs (F.map field.old) self.old.running.items }
        ensures does { Did (IsToldBy id (input_of input.now)) self.old self.new (F.map field.old) (F.map field.new) (F.answers field.old) (F.answers field.new) result }
        ensures runs { OnOk result (Runs (F.map field.new) self.new.running.items) }
        ensures cause { HasCauseAt Unplayed.FieldFault (F.faults field.old) (F.faults field.new) result }
    {
        match content_of(alloc, input) {
            Ok(content) => self.tell(alloc, id, content.as_slice(), field),
            Err(Memory) => Err(Unplayed::Memory),
        }
    }

    /// The events by which a replica is only told something.
    pub(crate) fn tell_event<F: Field>(
        &mut self,
        alloc: Global,
        what: &Event,
        field: &mut F,
    ) -> Result<Came, Unplayed>
        requires telling { IsTelling what.now }
        requires playable { IsPlayable true what.now }
        requires runs { Runs (F.map field.old) self.old.running.items }
        ensures does { Did (Acts what.now) self.old self.new (F.map field.old) (F.map field.new) (F.answers field.old) (F.answers field.new) result }
        ensures runs { OnOk result (Runs (F.map field.new) self.new.running.items) }
        ensures cause { HasCauseAt Unplayed.FieldFault (F.faults field.old) (F.faults field.new) result }
    {
        match what {
            Event::Tick { replica } => self.tell_input(alloc, *replica, &HostIn::Tick, field),
            Event::Save { replica } => self.tell_input(alloc, *replica, &HostIn::Save, field),
            Event::Join { replica, id } => {
                self.tell_input(alloc, *replica, &HostIn::Join { id: *id }, field)
            }
            Event::Admit { replica, id } => {
                self.tell_input(alloc, *replica, &HostIn::Admit { id: *id }, field)
            }
            Event::Remove { replica, id } => {
                self.tell_input(alloc, *replica, &HostIn::Remove { id: *id }, field)
            }
            Event::Margin { replica, margin } => {
                self.tell_input(alloc, *replica, &HostIn::Margin { margin: *margin }, field)
            }
            Event::Ask {
                replica,
                client,
                number,
                request,
            } => self.hand_request(alloc, *client, *number, request.as_slice(), *replica, field),
            _ => unreachable!(),
        }
    }
}
