//! Clients' requests, and their answers in their order.
ghost use Rattle.std.specs.Prelude.{◌≡◌, ◌<◌, ◌++◌, ◌∷◌, [], true, List, OnOk, IfOk, IfSome};
ghost use Rattle.values.specs.declared.limits.TheConstants.{TOP};
ghost use Rattle.values.specs.Sizes.{IsValid};
ghost use Rattle.client_msgs.specs.Reading.{request_of};
ghost use Rattle.client_msgs.specs.Strict.{is_canonical};
ghost use Rattle.replica_model.specs.Replica as model;
ghost use Rattle.replica_model.specs.Call.{empty_batch};
ghost use Rattle.replica_model.specs.Clients.{client_request, offset_of};
ghost use Rattle.replica_model.specs.Linked.{sha_link};
ghost use Rattle.replica_log.specs.Window.{Fits, last_index, pushed};
ghost use Rattle.replica_log.specs.Models.{OfEach, StandsFor as LogStandsFor};
ghost use Rattle.replica_core.specs.InRange.{ActsInRange};
ghost use Rattle.replica_core.specs.Asking.{read_as, written, refusal_of};
ghost use Rattle.replica_core.specs.Keeping.{IsSound};
ghost use Rattle.replica_core.specs.Calling.{Follows};

use crate::holder::{Holder, logs_are_the_models};
use crate::role::Role;
use crate::send::Appends;
use crate::tickets::Ticket;
use client_msgs::{
    RequestFault, is_canonical_request, read_request, requests_are_read_again, write_request,
};
use proto_wire::WireFault;
use replica_model::{MAX_OPEN, TOP};
use std::alloc::Global;
use values::{Answer, Batch, Body, Bytes, ClientId, LogEntry, Memory, Part, Request};

/// A client's numbered request, as its bytes.
#[derive(Clone, Copy, Debug)]
pub(crate) struct Ask<'a> {
    pub client: ClientId,
    pub number: u64,
    pub request: &'a [u8],
}

/// The request of an ask. Where its bytes are none, the client is answered why.
pub(crate) fn read_ask(
    alloc: Global,
    ask: Ask<'_>,
    batch: &mut Batch,
) -> Result<Option<Request>, Memory>
    ensures read { IfOk result (λ found. (found, batch.new) ≡ read_as batch.old ask.entry.client ask.entry.number (request_of ask.entry.request.now)) }
    ensures valid { IfOk result (λ found. IfSome found IsValid) }
{
    let answer = match read_request(alloc, ask.request) {
        Ok(request) => return Ok(Some(request)),
        Err(RequestFault::Memory) => return Err(Memory),
        Err(RequestFault::Wire(fault)) => Answer::Malformed(offset_of(&fault)),
        Err(RequestFault::Nothing) => Answer::Invalid(Part::Nothing, 0),
        Err(RequestFault::Size(part, size)) => Answer::Invalid(part, size),
    };
    batch.answers.push((ask.client, ask.number, answer))?;
    Ok(None)
}

/// The canonical bytes of an ask's request. Where its bytes are none, the client is answered why. Nearly all bytes are
/// canonical as they come, and those are kept without being read.
fn canonical_ask(alloc: Global, ask: Ask<'_>, batch: &mut Batch) -> Result<Option<Bytes>, Memory>
    ensures bytes { IfOk result (λ bytes. bytes ≡ written (read_as batch.old ask.entry.client ask.entry.number (request_of ask.entry.request.now)).0) }
    ensures batch { OnOk result (batch.new ≡ (read_as batch.old ask.entry.client ask.entry.number (request_of ask.entry.request.now)).1) }
    ensures canonical { IfOk result (λ bytes. IfSome bytes (λ xs. is_canonical xs ≡ true)) }
{
    // that what is written is canonical rests on this law
    requests_are_read_again();
    if is_canonical_request(ask.request) {
        return Ok(Some(Bytes::from_slice(alloc, ask.request)?));
    }
    match read_ask(alloc, ask, batch)? {
        Some(request) => Ok(Some(write_request(alloc, &request)?)),
        None => Ok(None),
    }
}

/// The offset of a fault in the wire format.
fn offset_of(fault: &WireFault) -> u64
    ensures { result ≡ offset_of fault.now }
{
    let (WireFault::Cut(at)
    | WireFault::LongVarint(at)
    | WireFault::FieldZero(at)
    | WireFault::GroupWire(at)
    | WireFault::BadWire(at)) = fault;
    *at as u64
}

impl Holder {
    /// A client asks. Bytes that are no request are answered first; then it is answered that the replica has halted,
    /// does not lead, or is busy; else the request is pushed, and a ticket kept.
    pub fn client_request(&mut self, ask: Ask<'_>, batch: &mut Batch) -> Result<Appends, Memory>
        requires sound { IsSound self.old }
        requires empty { batch.old ≡ empty_batch }
        ensures sound { OnOk result (IsSound self.new) }
        ensures model { Follows self.old self.new batch.new result (λ s. client_request s ask.entry.client ask.entry.number ask.entry.request.now) }
        ensures in_range { ActsInRange self.old batch.old result self.new batch.new }
    {
        logs_are_the_models();
        let Some(request) = canonical_ask(self.alloc, ask, batch)? else {
            return Ok(Appends::Nobody);
        };
        if let Some(refusal) = self.refusal() {
            batch.answers.push((ask.client, ask.number, refusal))?;
            return Ok(Appends::Nobody);
        }
        let ticket = Ticket {
            index: self.last() + 1,
            client: ask.client,
            number: ask.number,
        };
        self.push(Body::Ask {
            client: ask.client,
            number: ask.number,
            request,
        })?;
        self.tickets.push(ticket)?;
        self.raise(batch)?;
        Ok(Appends::Everyone)
    }

    /// Why a valid request is not taken: it has halted, it does not lead, or it is busy.
    fn refusal(&self) -> Option<Answer>
        ensures { result ≡ refusal_of self.now }
    {
        if let Some((index, ..)) = self.halted {
            return Some(Answer::Halted(index));
        }
        if !self.leads() {
            return Some(Answer::NotLeader(self.known));
        }
        let last = self.last();
        let open = last - self.log.committed();
        if open >= MAX_OPEN || last == TOP {
            return Some(Answer::Busy(open));
        }
        None
    }

    /// Puts an entry of its term at the end of the log.
    pub fn push(&mut self, body: Body) -> Result<(), Memory>
        requires room { last_index self.old.log < TOP }
        requires fits { Fits (record { term = self.old.ballot.term; body = body }) }
        ensures after { OnOk result (self.new ≡ record self.old { log = pushed self.old.log (record { term = self.old.ballot.term; body = body }) }) }
        ensures model { OnOk result (OfEach sha_link self.old.log (λ s. LogStandsFor sha_link self.new.log
            (record s { path = s.path ++ record { term = self.old.ballot.term; body = body } ∷ [] }))) }
    {
        self.log.push(LogEntry {
            term: self.ballot.term,
            body,
        })
    }
}
