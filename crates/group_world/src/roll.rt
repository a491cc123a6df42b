//! The events by which a replica ends, or goes back to a state that was saved.
ghost use Rattle.std.specs.Prelude.{◌≡◌, ◌==◌, not, OnOk};
ghost use Rattle.byte_streams.specs.Causes.{HasCauseAt};
ghost use Rattle.group_model.specs.Group.{but, saves_of};
ghost use Rattle.values.specs.declared.event.Event.TheVariants as event;
ghost use Rattle.group_world.specs.Plays.{Acts, Did};
ghost use Rattle.group_world.specs.Rolled.{NotesRoll};
ghost use Rattle.group_world.specs.Standing.{Runs};

use crate::came::{Came, Unplayed};
use crate::world::World;
use enclave_host::{Field, FieldFault};
use host_inputs::HostIn;
use std::alloc::Global;
use trace_text::GroupRefusal;
use values::{Memory, ReplicaId};

/// Takes an id out of a list.
fn take_out(ids: &mut Vec<ReplicaId>, id: ReplicaId)
    ensures { ids.new.items ≡ but id ids.old.items }
{
    ids.retain(
        |other: &ReplicaId| -> bool
            ensures { result ≡ not (other.now == id) }
        { *other != id },
    );
}

impl World {
    /// A replica ends.
    pub(crate) fn crash<F: Field>(&mut self, id: ReplicaId, field: &mut F) -> Result<Came, Unplayed>
        requires runs { Runs (F.map field.old) self.old.running.items }
        ensures does { Did (Acts (event.Crash id)) self.old self.new (F.map field.old) (F.map field.new) (F.answers field.old) (F.answers field.new) result }
        ensures runs { OnOk result (Runs (F.map field.new) self.new.running.items) }
        ensures cause { HasCauseAt Unplayed.FieldFault (F.faults field.old) (F.faults field.new) result }
    {
        if !self.runs(id) {
            return Ok(Came::Refused(GroupRefusal::NotRunning(id)));
        }
        match field.stop(id) {
            Ok(()) => {}
            Err(FieldFault::Memory) => return Err(Unplayed::Memory),
            Err(FieldFault::Failed) => return Err(Unplayed::FieldFault),
        }
        take_out(&mut self.running, id);
        Ok(Came::Passed)
    }

    /// The saved state of this number is put back; 0 is the first one. A replica that takes it is rolled back.
    pub(crate) fn roll<F: Field>(
        &mut self,
        alloc: Global,
        id: ReplicaId,
        state: u32,
        field: &mut F,
    ) -> Result<Came, Unplayed>
        requires runs { Runs (F.map field.old) self.old.running.items }
        ensures does { Did (Acts (event.Roll id state)) self.old self.new (F.map field.old) (F.map field.new) (F.answers field.old) (F.answers field.new) result }
        ensures runs { OnOk result (Runs (F.map field.new) self.new.running.items) }
        ensures cause { HasCauseAt Unplayed.FieldFault (F.faults field.old) (F.faults field.new) result }
    {
        if !self.runs(id) {
            return Ok(Came::Refused(GroupRefusal::NotRunning(id)));
        }
        if state as usize > self.saves_of(id) {
            return Ok(Came::Refused(GroupRefusal::NoSuchState(state)));
        }
        let came = match self.tell_input(alloc, id, &HostIn::Roll { k: state }, field) {
            Ok(came) => came,
            Err(e) => return Err(e),
        };
        match self.note_roll(&came) {
            Ok(()) => Ok(came),
            Err(Memory) => Err(Unplayed::Memory),
        }
    }

    /// Keeps who was rolled back, where that is what came of a roll.
    fn note_roll(&mut self, came: &Came) -> Result<(), Memory>
        ensures notes { OnOk result (NotesRoll self.old self.new came.now) }
        ensures running { self.new.running.items ≡ self.old.running.items }
    {
        let Came::Replied(id, batch) = came else {
            return Ok(());
        };
        if batch.refused.is_none() {
            self.rolled.push(*id)?;
        }
        Ok(())
    }

    /// How many states of a replica were saved.
    fn saves_of(&self, id: ReplicaId) -> usize
        ensures { result ≡ saves_of self.now.saves.items id }
    {
        let saves = self.saves.as_slice().iter();
        saves.filter(|saved| **saved == id).count()
    }
}
