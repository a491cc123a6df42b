//! The events of clients: what their users want, what they say to replicas, and which answers they hear.
ghost use Rattle.std.specs.Prelude.{◌≡◌, [], IfOk, Ok, OnOk, Option, option_and_then};
ghost use Rattle.byte_streams.specs.Causes.{HasCauseAt};
ghost use Rattle.schedule_model.specs.Client.{said};
ghost use Rattle.trace_text.specs.Refused.{meant};
ghost use Rattle.group_model.specs.Group.{core_of};
ghost use Rattle.group_model.specs.Happens.{refusal_of};
ghost use Rattle.host_inputs.specs.Inputs as input;
ghost use Rattle.enclave_host.specs.Fields.{Map};
ghost use Rattle.values.specs.declared.event.Event.TheVariants as event;
ghost use Rattle.group_world.specs.Cores.{FindsAnswer, flight_of};
ghost use Rattle.group_world.specs.Meanings.{Meaning, model_of};
ghost use Rattle.group_world.specs.Playable.{IsToldBy};
ghost use Rattle.group_world.specs.Plays.{Acts, Did, Does};
ghost use Rattle.group_world.specs.Standing.{Runs};

use crate::came::{Came, Unplayed};
use crate::world::World;
use enclave_host::Field;
use host_inputs::HostIn;
use std::alloc::Global;
use trace_text::GroupRefusal;
use values::{Answer, Bytes, ClientId, Memory, ReplicaId, TryCopy, Want, WantFault};

impl World {
    /// A user of the client wants something.
    pub(crate) fn want(
        &mut self,
        alloc: Global,
        client: &ClientId,
        want: &Want,
    ) -> Result<Came, Memory>
        ensures does { IfOk result (λ came. (map : Option Map)
            → Does (Acts (event.Want client.now want.now)) self.old self.new map map [] (Ok came)) }
        ensures running { self.new.running.items ≡ self.old.running.items }
    {
        let want = want_copy(alloc, want)?;
        match self.clients.want(client, want)? {
            Ok(()) => Ok(Came::Passed),
            Err(fault) => Ok(Came::Refused(want_refusal(fault))),
        }
    }

    /// The client hands its request in flight to the replica.
    pub(crate) fn say<F: Field>(
        &mut self,
        alloc: Global,
        client: &ClientId,
        replica: ReplicaId,
        field: &mut F,
    ) -> Result<Came, Unplayed>
        requires runs { Runs (F.map field.old) self.old.running.items }
        ensures does { Did (Acts (event.Say client.now replica)) self.old self.new (F.map field.old) (F.map field.new)
            (F.answers field.old) (F.answers field.new) result }
        ensures runs { OnOk result (Runs (F.map field.new) self.new.running.items) }
        ensures cause { HasCauseAt Unplayed.FieldFault (F.faults field.old) (F.faults field.new) result }
    {
        let said = match self.said(alloc, client) {
            Ok(said) => said,
            Err(Memory) => return Err(Unplayed::Memory),
        };
        let Some((number, request)) = said else {
            return Ok(Came::Refused(GroupRefusal::NothingInFlight));
        };
        self.hand_request(alloc, *client, number, request.as_slice(), replica, field)
    }

    /// A client's request is handed to the replica.
    pub(crate) fn hand_request<F: Field>(
        &mut self,
        alloc: Global,
        client: ClientId,
        number: u64,
        request: &[u8],
        replica: ReplicaId,
        field: &mut F,
    ) -> Result<Came, Unplayed>
        requires runs { Runs (F.map field.old) self.old.running.items }
        ensures does { Did (IsToldBy replica (input.Client client number request.now)) self.old self.new
            (F.map field.old) (F.map field.new) (F.answers field.old) (F.answers field.new) result }
        ensures runs { OnOk result (Runs (F.map field.new) self.new.running.items) }
        ensures cause { HasCauseAt Unplayed.FieldFault (F.faults field.old) (F.faults field.new) result }
    {
        let input = HostIn::Client {
            client,
            number,
            request,
        };
        self.tell_input(alloc, replica, &input, field)
    }

    /// The client hears the answer of this number, from 1.
    pub(crate) fn hear(
        &mut self,
        alloc: Global,
        client: &ClientId,
        answer: u64,
    ) -> Result<Came, Memory>
        ensures does { IfOk result (λ came. (map : Option Map)
            → Does (Acts (event.Hear client.now answer)) self.old self.new map map [] (Ok came)) }
        ensures running { self.new.running.items ≡ self.old.running.items }
    {
        let (number, answer) = match self.answer_for(alloc, client, answer)? {
            Ok(found) => found,
            Err(refusal) => return Ok(Came::Refused(refusal)),
        };
        match self.clients.hear(client, number, answer) {
            Some(report) => Ok(Came::Reported(*client, report)),
            None => Ok(Came::Passed),
        }
    }

    /// The number of the client's request in flight; `None` exactly where it has none.
    pub fn flight(&self, client: &ClientId) -> Option<u64>
        ensures { result ≡ flight_of self.now.clients client.now }
    {
        match self.clients.get(client) {
            Some(known) => known.flight(),
            None => None,
        }
    }

    /// The number and the bytes of the client's request in flight; `None` where it has none.
    fn said(&self, alloc: Global, client: &ClientId) -> Result<Option<(u64, Bytes)>, Memory>
        ensures { IfOk result (λ request. request ≡ option_and_then said (core_of self.now.clients client.now)) }
    {
        match self.clients.get(client) {
            Some(known) => known.say(alloc),
            None => Ok(None),
        }
    }

    /// The answer of this number, with the number of the request that it answers; or why the client does not hear it.
    fn answer_for(
        &self,
        alloc: Global,
        client: &ClientId,
        answer: u64,
    ) -> Result<Result<(u64, Answer), GroupRefusal>, Memory>
        ensures { IfOk result (λ found. FindsAnswer self.now.answers.items client.now answer found) }
    {
        let Some(place) = answer.checked_sub(1) else {
            return Ok(Err(GroupRefusal::NoAnswer(answer)));
        };
        let Some(kept) = self.answers.as_slice().get(place as usize) else {
            return Ok(Err(GroupRefusal::NoAnswer(answer)));
        };
        if kept.client != *client {
            return Ok(Err(GroupRefusal::NotYours(answer)));
        }
        Ok(Ok((kept.number, kept.answer.copy(alloc)?)))
    }
}

/// A want that is equal to this one.
fn want_copy(alloc: Global, want: &Want) -> Result<Want, Memory>
    ensures { IfOk result (λ copy. copy ≡ want.now) }
{
    match want {
        Want::Store { secret, pin, tries } => Ok(Want::Store {
            secret: secret.copy(alloc)?,
            pin: *pin,
            tries: *tries,
        }),
        Want::Recover { pin } => Ok(Want::Recover { pin: *pin }),
        Want::Erase => Ok(Want::Erase),
    }
}

/// Why the group refuses a want that is not taken up.
fn want_refusal(fault: WantFault) -> GroupRefusal
    ensures { (m : Meaning) → meant result ≡ refusal_of (model_of m) fault }
{
    match fault {
        WantFault::ClientBusy => GroupRefusal::ClientBusy,
        WantFault::Size(part, length) => GroupRefusal::WrongSize(part, length),
        WantFault::NumbersOut(last) => GroupRefusal::NumbersOut(last),
    }
}
