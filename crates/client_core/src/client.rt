//! A client.
ghost use Rattle.std.specs.Prelude.{◌≡◌, IfOk, OnOk, OnErr, IfErr, Ok, Err, Option, option_map};
ghost use Rattle.schedule_model.specs.Client as core;
ghost use Rattle.schedule_model.specs.Client.{Flight};

use crate::meaning::{Meaning, answer_meaning};
use crate::stage::{Stage, first_request, numbers_needed};
use client_msgs::check_request;
use std::alloc::Global;
use std::marker::Model;
use std::mem;
use values::{Answer, Bytes, ClientId, Memory, Report, Want, WantFault};

/// A client, with at most one request in flight. Contracts see its id and its core: the last number, and what is in
/// flight under it.
#[derive(Debug, Drop)]
pub struct Client {
    id: ClientId,
    last: u64,
    stage: Stage,
}

impl Model for Client {
    ghost use Rattle.values.specs.declared.ids.ClientId.{ClientId};
    ghost use Rattle.schedule_model.specs.Client.{Core};
    ghost use Rattle.client_core.specs.Stages.{flight_at, IsSound};

    ghost Value = { ClientId × Core };

    ghost view = { λ c. (c.id, record { last = c.last; flight = flight_at c.last c.stage }) };

    ghost invariant = { λ c. IsSound c.last c.stage };
}

impl Client {
    /// A client that has used no number and has nothing in flight.
    pub fn new(id: ClientId) -> Client
        ensures { result ≡ (id, core.new_core) }
    {
        Client {
            id,
            last: 0,
            stage: Stage::Idle,
        }
    }

    /// Which client it is.
    pub fn id(&self) -> ClientId
        ensures { result ≡ self.now.0 }
    {
        self.id
    }

    /// The number of the request in flight; `None` exactly where nothing is.
    pub fn flight(&self) -> Option<u64>
        ensures { result ≡ option_map (λ f. f.number) self.now.1.flight }
    {
        match self.stage {
            Stage::Idle => None,
            Stage::First(_) | Stage::Expose { .. } => Some(self.last),
        }
    }

    /// Takes up a want: its first request is in flight, under the next number. A store takes a second number for the
    /// expose that is to follow.
    ///
    /// `ClientBusy` where a want is in flight already, else `Size` for the first size out of range, in the order secret,
    /// pin, tries, else `NumbersOut` where fewer numbers are left above the last one than the want needs. Then
    /// nothing has changed.
    pub fn want(&mut self, want: Want) -> Result<(), WantFault>
        ensures taken { OnOk result (core.wanted self.old.1 want ≡ Ok self.new.1) }
        ensures fault { IfErr result (λ fault. core.wanted self.old.1 want ≡ Err fault) }
        ensures unchanged { OnErr result (self.new ≡ self.old) }
        ensures id { self.new.0 ≡ self.old.0 }
    {
        if !matches!(self.stage, Stage::Idle) {
            return Err(WantFault::ClientBusy);
        }
        let needed = numbers_needed(&want);
        let request = first_request(want);
        if let Err((part, size)) = check_request(&request) {
            return Err(WantFault::Size(part, size));
        }
        if u64::MAX - self.last < needed {
            return Err(WantFault::NumbersOut(self.last));
        }
        self.last += 1;
        self.stage = Stage::First(request);
        Ok(())
    }

    /// The number and the canonical bytes of the request in flight; `None` exactly where nothing is. It stays in flight.
    pub fn say(&self, alloc: Global) -> Result<Option<(u64, Bytes)>, Memory>
        ensures { IfOk result (λ said. said ≡ core.said self.now.1) }
    {
        self.stage.request(alloc, self.last)
    }

    /// Hears an answer to the request of this number, and tells what became of the want where that is known.
    ///
    /// A backup that is done is followed by its expose, under the next number. A report ends the want. The number that
    /// a stale reply tells counts as used from then on. An answer to another number, one that is no outcome and
    /// does not say that the request is undecided, and a response of another kind or of an unknown status change nothing.
    pub fn hear(&mut self, number: u64, answer: Answer) -> Option<Report>
        ensures core { self.new.1 ≡ (core.heard self.old.1 number answer).0 }
        ensures report { result ≡ (core.heard self.old.1 number answer).1 }
        ensures id { self.new.0 ≡ self.old.0 }
    {
        if number != self.last {
            return None;
        }
        match answer_meaning(&self.stage, number, answer) {
            Meaning::Nothing => None,
            Meaning::Backed => {
                self.last += 1;
                self.stage = mem::replace(&mut self.stage, Stage::Idle).after_backup();
                None
            }
            Meaning::Ends(report) => {
                self.last = last_after(self.last, &report);
                self.stage = Stage::Idle;
                Some(report)
            }
        }
    }
}

/// The last number after a report: a number that a stale reply tells is used too.
fn last_after(last: u64, report: &Report) -> u64
    ensures { (flight : Option Flight) → result ≡ core.last_after (record { last = last; flight = flight }) report.now }
{
    match report {
        Report::Undecided { last: heard } => last.max(*heard),
        _ => last,
    }
}
