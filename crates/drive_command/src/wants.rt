//! The events of a driven schedule, and what the driver makes of them.
ghost use Rattle.std.specs.Prelude.{◌≡◌, ◌&&◌, not, is_some, true, Bool, Ok, Some, OnOk};
ghost use Rattle.record_cutting.specs.Lines.{record_of};
ghost use Rattle.schedule_model.specs.Records.{event_of};
ghost use Rattle.values.specs.declared.event.Event.TheVariants as event;
ghost use Rattle.trace_model.specs.Driven as driven;
ghost use Rattle.trace_model.specs.Driven.{carries, carries_if, drives_on};
ghost use Rattle.group_world.specs.Playable.{IsPlayable};
ghost use Rattle.drive_command.specs.Course.{Drives, field};
ghost use Rattle.drive_command.specs.Pieces.{Piece, Writes};
ghost use Rattle.drive_command.specs.Turns.{begins_driver, carried, wants_carried};
ghost use Rattle.drive_command.specs.Standing.{IsLive, Stands};

use crate::player::DrivePlayer;
use client_driver::Driver;
use group_world::Halt;
use record_stream::Stop;
use values::{ClientId, Event};

impl DrivePlayer {
    /// Carries what the client has in flight.
    fn carry(&mut self, client: &ClientId, lines: &mut Vec<u8>) -> Result<(), Stop<Halt>>
        requires live { IsLive self.old }
        ensures writes { Writes (carried client.now) self.old self.new lines.old.items lines.new.items result }
        ensures live { OnOk result (IsLive self.new) }
        ensures records { self.new.group.records ≡ self.old.group.records }
    {
        self.driver.begin_want();
        self.take_turns(client, lines)
    }

    /// Whether the client has a request in flight.
    fn is_busy(&self, client: &ClientId) -> bool
        ensures { (d : Drives) → Stands self.now d → result ≡ is_some (driven.flight_of d client.now) }
    {
        self.group.world.flight(client).is_some()
    }

    /// A user of the client wants something, which is carried where it was taken up.
    fn want(
        &mut self,
        want: &Event,
        client: &ClientId,
        lines: &mut Vec<u8>,
    ) -> Result<(), Stop<Halt>>
        requires live { IsLive self.old }
        requires playable { IsPlayable self.old.group.world.begun want.now }
        ensures writes { Writes (wants_carried want.now client.now) self.old self.new lines.old.items lines.new.items result }
        ensures live { OnOk result (IsLive self.new) }
        ensures records { self.new.group.records ≡ self.old.group.records }
    {
        let busy = self.is_busy(client);
        self.event(want, lines)?;
        if !busy && self.is_busy(client) {
            return self.carry(client, lines);
        }
        Ok(())
    }

    /// Carries on what the client has in flight, where it has anything.
    fn again(&mut self, client: &ClientId, lines: &mut Vec<u8>) -> Result<(), Stop<Halt>>
        requires live { IsLive self.old }
        ensures writes { Writes (λ d. drives_on field d (event.Again client.now)) self.old self.new lines.old.items lines.new.items result }
        ensures live { OnOk result (IsLive self.new) }
        ensures records { self.new.group.records ≡ self.old.group.records }
    {
        if self.is_busy(client) {
            return self.carry(client, lines);
        }
        Ok(())
    }

    /// The group begins, and the driver is made, which asks the least voter first.
    fn begin(&mut self, begin: &Event, lines: &mut Vec<u8>) -> Result<(), Stop<Halt>>
        requires live { IsLive self.old }
        requires playable { IsPlayable self.old.group.world.begun begin.now }
        ensures writes { Writes (begins_driver begin.now) self.old self.new lines.old.items lines.new.items result }
        ensures live { OnOk result (IsLive self.new) }
        ensures records { self.new.group.records ≡ self.old.group.records }
    {
        self.event(begin, lines)?;
        let least = self.group.world.running().first().copied().unwrap_or(0);
        self.driver = Driver::new(least);
        Ok(())
    }

    /// Plays the event of a record, with what the driver makes of it.
    pub(crate) fn drive_on(
        &mut self,
        event: &Event,
        fields: &[&[u8]],
        lines: &mut Vec<u8>,
    ) -> Result<(), Stop<Halt>>
        requires live { IsLive self.old }
        requires says { event_of true self.old.group.world.begun (record_of fields.now) ≡ Ok (Some event.now) }
        ensures writes { Writes (λ d. drives_on field d event.now) self.old self.new lines.old.items lines.new.items result }
        ensures live { OnOk result (IsLive self.new) }
        ensures records { self.new.group.records ≡ self.old.group.records }
    {
        match event {
            Event::Want { client, .. } => self.want(event, client, lines),
            Event::Again { client } => self.again(client, lines),
            Event::Begin { .. } => self.begin(event, lines),
            Event::Settle { most } => self.settle(*most, lines),
            _ => self.event(event, lines),
        }
    }
}
