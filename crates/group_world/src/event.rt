//! What events do to a group, and the lines that they write.
ghost use Rattle.std.specs.Prelude.{◌≡◌, true, None, List, OnOk, option_map};
ghost use Rattle.byte_streams.specs.Causes.{HasCauseAt};
ghost use Rattle.enclave_host.specs.Fields.{Gains};
ghost use Rattle.trace_text.specs.Refused.{quantity_of};
ghost use Rattle.group_world.specs.Given.{Given, contents_in};
ghost use Rattle.group_world.specs.Playable.{HasRoom, IsPlayable, passed_first, starts_in};
ghost use Rattle.group_world.specs.Plays.{Acts, ActsIn, Did, Plays, passed_in};
ghost use Rattle.group_world.specs.Standing.{IsNew, Runs};

use crate::came::{Came, Unplayed};
use crate::clients::Clients;
use crate::happened::Happened;
use crate::lines::write_lines;
use crate::post::Post;
use crate::world::World;
use enclave_host::Field;
use std::alloc::Global;
use trace_text::Quantity;
use values::{Event, MAX_EVENTS, MAX_REPLICAS, Memory};

impl World {
    /// A group of which nothing has started.
    pub fn new(alloc: Global) -> World
        ensures new { IsNew result }
        ensures within { passed_in result ≡ None }
    {
        World {
            begun: false,
            running: Vec::new(alloc),
            started: Vec::new(alloc),
            post: Post::new(alloc),
            answers: Vec::new(alloc),
            clients: Clients::new(alloc),
            saves: Vec::new(alloc),
            rolled: Vec::new(alloc),
            confs: Vec::new(alloc),
            committed: 0,
            events: 0,
        }
    }

    /// Plays one event, appends its lines, and tells what came of it.
    ///
    /// `Limit` comes where the event would pass a limit of the run, or has passed one; `Frame` where the field answered by what
    /// is no batch; `FieldFault` where the field failed. After an error `out` is as before, and the world is of no use.
    pub fn event<F: Field>(
        &mut self,
        alloc: Global,
        what: &Event,
        field: &mut F,
        out: &mut Vec<u8>,
    ) -> Result<Happened, Unplayed>
        requires playable { IsPlayable self.old.begun what.now }
        // No earlier event has passed a limit.
        requires within { passed_in self.old ≡ None }
        requires runs { Runs (F.map field.old) self.old.running.items }
        ensures plays { (given : List Given) × Gains (F.answers field.old) (F.answers field.new) (contents_in given)
            × Plays self.old self.new (F.map field.old) (F.map field.new) given what.now out.old.items out.new.items result }
        ensures within { OnOk result (passed_in self.new ≡ None) }
        ensures runs { OnOk result (Runs (F.map field.new) self.new.running.items) }
        ensures cause { HasCauseAt Unplayed.FieldFault (F.faults field.old) (F.faults field.new) result }
    {
        if let Some(limit) = self.would_pass(what) {
            return Err(Unplayed::Limit(limit));
        }
        let first_message = self.messages() + 1;
        let first_answer = self.answers() + 1;
        let number = self.events + 1;
        self.events = number;
        let came = match self.act(alloc, what, field) {
            Ok(came) => came,
            Err(e) => return Err(e),
        };
        if let Some(limit) = self.passed() {
            return Err(Unplayed::Limit(limit));
        }
        match write_lines(number, what, &came, first_message, first_answer, out) {
            Ok(()) => Ok(Happened::new(alloc, came, first_answer)),
            Err(Memory) => Err(Unplayed::Memory),
        }
    }

    /// The limit that an event would pass.
    fn would_pass(&self, what: &Event) -> Option<Quantity>
        ensures { option_map quantity_of result ≡ passed_first self.now what.now }
    {
        if self.events >= MAX_EVENTS {
            Some(Quantity::Events)
        } else if self.starts(what) && self.started.len() as u64 >= MAX_REPLICAS {
            Some(Quantity::Replicas)
        } else {
            None
        }
    }

    /// Whether an event starts a replica.
    fn starts(&self, what: &Event) -> bool
        ensures { result ≡ starts_in self.now what.now }
    {
        match what {
            Event::Start { replica } => {
                *replica != 0 && !self.started.as_slice().contains(replica)
            }
            _ => false,
        }
    }

    /// What an event does. Before the begin event nothing happens.
    fn act<F: Field>(
        &mut self,
        alloc: Global,
        what: &Event,
        field: &mut F,
    ) -> Result<Came, Unplayed>
        requires playable { IsPlayable self.old.begun what.now }
        requires room { HasRoom self.old what.now }
        requires runs { Runs (F.map field.old) self.old.running.items }
        ensures does { Did (ActsIn what.now) self.old self.new (F.map field.old) (F.map field.new) (F.answers field.old) (F.answers field.new) result }
        ensures runs { OnOk result (Runs (F.map field.new) self.new.running.items) }
        ensures cause { HasCauseAt Unplayed.FieldFault (F.faults field.old) (F.faults field.new) result }
    {
        if self.begun {
            return self.go_on(alloc, what, field);
        }
        match what {
            Event::Begin {
                margin,
                limit,
                voters,
            } => self.begin(alloc, *margin, *limit, voters, field),
            _ => Ok(Came::Passed),
        }
    }

    /// What an event does after the begin event.
    fn go_on<F: Field>(
        &mut self,
        alloc: Global,
        what: &Event,
        field: &mut F,
    ) -> Result<Came, Unplayed>
        requires begun { self.old.begun ≡ true }
        requires playable { IsPlayable true what.now }
        requires room { HasRoom self.old what.now }
        requires runs { Runs (F.map field.old) self.old.running.items }
        ensures does { Did (Acts what.now) self.old self.new (F.map field.old) (F.map field.new) (F.answers field.old) (F.answers field.new) result }
        ensures runs { OnOk result (Runs (F.map field.new) self.new.running.items) }
        ensures cause { HasCauseAt Unplayed.FieldFault (F.faults field.old) (F.faults field.new) result }
    {
        match what {
            Event::Start { replica } => self.start(alloc, *replica, field),
            Event::Deliver { message } => self.deliver(alloc, *message, field),
            Event::Lose { message } => Ok(self.lose(*message)),
            Event::Crash { replica } => self.crash(*replica, field),
            Event::Roll { replica, state } => self.roll(alloc, *replica, *state, field),
            Event::Want { client, want } => match self.want(alloc, client, want) {
                Ok(came) => Ok(came),
                Err(Memory) => Err(Unplayed::Memory),
            },
            Event::Say { client, replica } => self.say(alloc, client, *replica, field),
            Event::Hear { client, answer } => match self.hear(alloc, client, *answer) {
                Ok(came) => Ok(came),
                Err(Memory) => Err(Unplayed::Memory),
            },
            _ => self.tell_event(alloc, what, field),
        }
    }
}
