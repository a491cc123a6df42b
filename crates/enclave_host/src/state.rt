//! States that are saved and put back.
ghost use Rattle.std.specs.Prelude.{◌≡◌, OnOk};
ghost use Rattle.group_msgs.specs.Batches.{IsBatchInRange};
ghost use Rattle.replica_model.specs.Call.{empty_batch};
ghost use Rattle.replica_model.specs.Linked.{sha_link};
ghost use Rattle.group_model.specs.Enclave.{Enclave, called};
ghost use Rattle.group_model.specs.Enclave as model;
ghost use Rattle.enclave_host.specs.Standing.{RunsFor, Becomes, IsSound, KeepsLog};

use crate::running::Running;
use values::{Batch, Memory, Refusal};

impl Running {
    /// Keeps a copy of its replica under the next number, or refuses to where a u32 numbers no more states.
    pub fn save(&mut self, batch: &mut Batch) -> Result<(), Memory>
        requires sound { IsSound self.old }
        requires empty { batch.old ≡ empty_batch }
        ensures sound { OnOk result (IsSound self.new) }
        ensures model { (e : Enclave) → RunsFor self.old e
            → OnOk result (Becomes self.new batch.new (called sha_link e model.Save)) }
        ensures in_range { OnOk result (IsBatchInRange batch.new) }
        ensures holds { OnOk result (KeepsLog self.old self.new) }
    {
        let Ok(number) = u32::try_from(self.saved.len()) else {
            batch.refused = Some(Refusal::NoState(u32::MAX));
            return Ok(());
        };
        let state = self.replica.copy()?;
        self.saved.push(state)?;
        batch.saved = Some(number);
        Ok(())
    }

    /// Puts back the state of this number, and leaves the links as they are.
    pub fn roll(&mut self, k: u32, batch: &mut Batch) -> Result<(), Memory>
        requires sound { IsSound self.old }
        requires empty { batch.old ≡ empty_batch }
        ensures sound { OnOk result (IsSound self.new) }
        ensures model { (e : Enclave) → RunsFor self.old e
            → OnOk result (Becomes self.new batch.new (called sha_link e (model.Roll k))) }
        ensures in_range { OnOk result (IsBatchInRange batch.new) }
    {
        match self.saved.get(k as usize) {
            Some(state) => self.replica = state.copy()?,
            None => batch.refused = Some(Refusal::NoState(k)),
        }
        Ok(())
    }
}
