//! An enclave that runs.
ghost use Rattle.std.specs.Prelude.{◌≡◌, ◌≢◌, ◌++◌, Ok, Err, OnOk, OnErr};
ghost use Rattle.host_inputs.specs.Inputs.{input_of};
ghost use Rattle.host_inputs.specs.Sound.{IsSoundInput};
ghost use Rattle.host_msgs.specs.Again.{IsReadAgain};
ghost use Rattle.host_msgs.specs.Batches.{batch_in};
ghost use Rattle.group_msgs.specs.Batches.{IsBatchInRange};
ghost use Rattle.replica_model.specs.Linked.{sha_link};
ghost use Rattle.replica_model.specs.Replica.{Named};
ghost use Rattle.replica_model.specs.Replica as model;
ghost use Rattle.replica_model.specs.Call as model_call;
ghost use Rattle.replica_model.specs.Call.{empty_batch};
ghost use Rattle.replica_model.specs.Step.{step};
ghost use Rattle.replica_core.specs.Inputs.{IsInput, IsInputInRange};
ghost use Rattle.group_model.specs.Enclave.{Enclave, Join, called, calls, connects};
ghost use Rattle.group_quorum.specs.Voters.{IsId};
ghost use Rattle.trace_model.specs.Session.{Content};
ghost use Rattle.enclave_host.specs.Words.{wording, content_in};
ghost use Rattle.enclave_host.specs.Standing.{RunsFor, Becomes, IsSound, KeepsLog};
ghost use Rattle.enclave_host.specs.Handing.{handed, IsNamedFor, IsNoRoll};
ghost use Rattle.enclave_host.specs.Answers.{CallAnswers, HandAnswers};

use crate::enclave::EnclaveFault;
use attested_link::Links;
use host_inputs::{HostIn, read_host};
use host_msgs::write_batch;
use replica_core::{Input, Replica};
use std::alloc::Global;
use values::{Batch, Items, Memory, ReplicaId};

/// What an enclave keeps while it runs.
#[derive(Drop)]
pub(crate) struct Running {
    pub alloc: Global,
    pub replica: Replica,
    pub links: Links,
    /// The states by their numbers: 0 is the first one.
    pub saved: Vec<Replica>,
}

impl Running {
    /// Hands it a content, and appends the batch that it leaves. After `Memory` it is of no use.
    #[tactic(auto, using(crate::proofs::Answered::call_faulty, crate::proofs::Answered::call_answered, crate::proofs::Answered::said_is))]
    pub fn call(&mut self, content: &[u8], out: &mut Vec<u8>) -> Result<(), EnclaveFault>
        requires { IsSound self.old }
        ensures sound { OnOk result (IsSound self.new) }
        ensures runs { result ≢ Err EnclaveFault.Spent }
        ensures exact { CallAnswers result (wording.content_of content.now) }
        ensures model { (e : Enclave) (names : Named) (said : Content)
            → RunsFor self.old e → wording.content_of content.now ≡ Ok said → IsNamedFor names e said
            → OnOk result (RunsFor self.new (handed names e said).enclave
            × (out.new.items ≡ out.old.items ++ wording.batch_bytes (handed names e said).enclave.replica.me (handed names e said).call.batch)) }
        ensures again { (e : Enclave) (names : Named) (said : Content)
            → RunsFor self.old e → wording.content_of content.now ≡ Ok said → IsNamedFor names e said
            → OnOk result (IsReadAgain (handed names e said).enclave.replica.me (handed names e said).call.batch
            (batch_in (wording.batch_bytes (handed names e said).enclave.replica.me (handed names e said).call.batch))) }
        ensures unchanged { (fault : EnclaveFault) → result ≡ Err fault → fault ≢ EnclaveFault.Memory → self.new ≡ self.old }
        ensures nothing { OnErr result (out.new.items ≡ out.old.items) }
        ensures holds { (said : Content) → wording.content_of content.now ≡ Ok said → IsNoRoll said
            → OnOk result (KeepsLog self.old self.new) }
    {
        let input = read_host(self.alloc, content)?;
        let mut batch = empty_batch(self.alloc);
        self.hand(&input, &mut batch)?;
        let me = self.replica.id().unwrap();
        write_batch(self.alloc, me, &batch, out)?;
        Ok(())
    }

    /// Does what an input says, and leaves what came of it in an empty batch.
    fn hand(&mut self, input: &HostIn<'_>, batch: &mut Batch) -> Result<(), EnclaveFault>
        requires sound { IsSound self.old }
        requires range { IsSoundInput (input_of input.now) }
        requires empty { batch.old ≡ empty_batch }
        ensures sound { OnOk result (IsSound self.new) }
        ensures answers { HandAnswers result (content_in (input_of input.now)) }
        ensures model { (e : Enclave) (names : Named) → RunsFor self.old e → IsNamedFor names e (content_in (input_of input.now))
            → OnOk result (Becomes self.new batch.new (handed names e (content_in (input_of input.now)))) }
        ensures in_range { OnOk result (IsBatchInRange batch.new) }
        ensures unchanged { result ≡ Err EnclaveFault.BegunAgain → self.new ≡ self.old }
        ensures holds { IsNoRoll (content_in (input_of input.now)) → OnOk result (KeepsLog self.old self.new) }
    {
        match input {
            HostIn::Begin { .. } | HostIn::Learn { .. } => return Err(EnclaveFault::BegunAgain),
            HostIn::Tick => self.step(&Input::Tick, batch)?,
            HostIn::Peer { frame } => self.hear(frame, batch)?,
            HostIn::Client {
                client,
                number,
                request,
            } => {
                let input = Input::Client {
                    client: *client,
                    number: *number,
                    request,
                };
                self.step(&input, batch)?;
            }
            HostIn::Join { id } => self.join(*id, batch)?,
            HostIn::Admit { id } => self.step(&Input::Admit { id: *id }, batch)?,
            HostIn::Remove { id } => self.step(&Input::Remove { id: *id }, batch)?,
            HostIn::Save => self.save(batch)?,
            HostIn::Roll { k } => self.roll(*k, batch)?,
            HostIn::Link { id } => self.link(*id)?,
            HostIn::Margin { margin } => self.step(&Input::Margin { margin: *margin }, batch)?,
        }
        Ok(())
    }

    /// Tells its replica to send another one the table, and whether that one is linked.
    fn join(&mut self, id: ReplicaId, batch: &mut Batch) -> Result<(), Memory>
        requires sound { IsSound self.old }
        requires id { IsId id }
        requires empty { batch.old ≡ empty_batch }
        ensures sound { OnOk result (IsSound self.new) }
        ensures model { (e : Enclave) → RunsFor self.old e
            → OnOk result (Becomes self.new batch.new (called sha_link e (Join id))) }
        ensures in_range { OnOk result (IsBatchInRange batch.new) }
        ensures holds { OnOk result (KeepsLog self.old self.new) }
    {
        let linked = self.links.holds(id);
        self.step(&Input::Join { id, linked }, batch)
    }

    /// Links a replica, if it is not linked yet.
    fn link(&mut self, id: ReplicaId) -> Result<(), Memory>
        requires sound { IsSound self.old }
        requires id { IsId id }
        ensures sound { OnOk result (IsSound self.new) }
        ensures model { (e : Enclave) → RunsFor self.old e → OnOk result (RunsFor self.new (connects e id).enclave) }
        ensures holds { OnOk result (KeepsLog self.old self.new) }
    {
        self.links.add(id)
    }

    /// Takes one step of its replica.
    pub fn step(&mut self, input: &Input<'_>, batch: &mut Batch) -> Result<(), Memory>
        requires sound { IsSound self.old }
        requires range { IsInputInRange input.now }
        requires empty { batch.old ≡ empty_batch }
        ensures sound { OnOk result (IsSound self.new) }
        ensures model { (e : Enclave) (i : model_call.Input) → RunsFor self.old e → IsInput e.replica input.now i
            → OnOk result (Becomes self.new batch.new (calls e (step sha_link e.replica i))) }
        ensures in_range { OnOk result (IsBatchInRange batch.new) }
        ensures holds { OnOk result (KeepsLog self.old self.new) }
    {
        match self.replica.step(input, batch) {
            Ok(()) => Ok(()),
            Err(_) => Err(Memory),
        }
    }
}

/// A batch that tells nothing.
fn empty_batch(alloc: Global) -> Batch
    ensures { result ≡ empty_batch }
{
    Batch {
        lead: None,
        members: Items::new(alloc),
        halt: None,
        taken: None,
        commits: Items::new(alloc),
        answers: Items::new(alloc),
        sent: Items::new(alloc),
        saved: None,
        refused: None,
    }
}
