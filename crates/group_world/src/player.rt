//! A group plays the records of a schedule over a field of its own.
ghost use Rattle.std.specs.Prelude.{◌≡◌, ◌∷◌, ◌+◌, ◌<◌, ◌^◌, [], false, List, None, Ok, Some, OnOk};
ghost use Rattle.byte_streams.specs.Causes.{HasCauseAt};
ghost use Rattle.record_cutting.specs.Lines.{record_of};
ghost use Rattle.schedule_model.specs.Records.{event_of};
ghost use Rattle.schedule_text.specs.Read.{Reads};
ghost use Rattle.enclave_host.specs.Fields.{Gains};
ghost use Rattle.group_world.specs.Given.{Given, contents_in};
ghost use Rattle.group_world.specs.Openings.{answers_gained, answers_history, nothing_from, spent_from, unstopped_from};
ghost use Rattle.group_world.specs.Playable.{IsPlayable};
ghost use Rattle.group_world.specs.Plays.{passed_in};
ghost use Rattle.group_world.specs.Standing.{IsNew};
ghost use Rattle.group_world.specs.Playing.{CanPlay, Takes, Way, Writes, all_of, course, next_way, one_event};

use crate::came::Unplayed;
use crate::halt::{Halt, stop_for};
use crate::world::World;
use enclave_host::Field;
use record_stream::{Player, Stop};
use schedule_text::{Schedule, Unread};
use std::alloc::Global;
use values::{Event, Memory};

/// A group that plays records, with the field where its replicas run.
#[derive(Drop)]
pub struct GroupPlayer<F: Field> {
    pub alloc: Global,
    pub world: World,
    pub field: F,
    /// How many records were read, remarks included.
    pub records: u64,
}

impl<F: Field> GroupPlayer<F> {
    /// A group of which nothing has started, over this field, before the first record.
    pub fn new(alloc: Global, field: F) -> GroupPlayer<F>
        ensures new { IsNew result.world }
        ensures within { passed_in result.world ≡ None }
        ensures field { result.field ≡ field }
        ensures records { result.records ≡ 0 }
    {
        GroupPlayer {
            alloc,
            world: World::new(alloc),
            field,
            records: 0,
        }
    }

    /// The reading of the next record: it says whether the group has begun.
    fn schedule(&self) -> Schedule
        ensures { (result.driven ≡ false) × ((result.begun ≡ self.now.world.begun) × (result.records ≡ 0)) }
    {
        if self.world.begun {
            Schedule::in_group(self.alloc)
        } else {
            Schedule::new(self.alloc)
        }
    }

    /// The event of the next record, none for a remark.
    fn read(&self, fields: &[&[u8]]) -> Result<Option<Event>, Unread>
        ensures { Reads result (event_of false self.now.world.begun (record_of fields.now)) }
    {
        self.schedule().event(fields)
    }

    /// Plays one event, which is no settle and no `again`.
    pub fn play_event(&mut self, event: &Event, lines: &mut Vec<u8>) -> Result<(), Stop<Halt>>
        requires can { CanPlay self.old.world (F.map self.old.field) }
        requires playable { IsPlayable self.old.world.begun event.now }
        ensures writes { (given : List Given) × Gains (F.answers self.old.field) (F.answers self.new.field) (contents_in given)
            × Writes (one_event event.now) self.old.world self.new.world (F.map self.old.field) (F.map self.new.field) given lines.old.items lines.new.items result }
        ensures can { OnOk result (CanPlay self.new.world (F.map self.new.field)) }
        ensures cause { HasCauseAt Stop.Failed (F.faults self.old.field) (F.faults self.new.field) result }
        ensures records { self.new.records ≡ self.old.records }
    {
        let unplayed = match self.world.event(self.alloc, event, &mut self.field, lines) {
            Ok(_) => return Ok(()),
            Err(e) => e,
        };
        match unplayed {
            Unplayed::Memory => Err(Stop::Memory),
            Unplayed::FieldFault => Err(Stop::Failed),
            Unplayed::Limit(which) => stop_for(Halt::Limit(which), lines),
            Unplayed::Frame(at) => stop_for(Halt::Frame(at), lines),
        }
    }

    /// Plays what a record's event stands for.
    fn expand(
        &mut self,
        event: &Event,
        fields: &[&[u8]],
        lines: &mut Vec<u8>,
    ) -> Result<(), Stop<Halt>>
        requires can { CanPlay self.old.world (F.map self.old.field) }
        requires says { event_of false self.old.world.begun (record_of fields.now) ≡ Ok (Some event.now) }
        ensures writes { (given : List Given) × Gains (F.answers self.old.field) (F.answers self.new.field) (contents_in given)
            × Writes (all_of event.now) self.old.world self.new.world (F.map self.old.field) (F.map self.new.field) given lines.old.items lines.new.items result }
        ensures can { OnOk result (CanPlay self.new.world (F.map self.new.field)) }
        ensures cause { HasCauseAt Stop.Failed (F.faults self.old.field) (F.faults self.new.field) result }
        ensures records { self.new.records ≡ self.old.records }
    {
        match event {
            Event::Settle { most } => self.settle(*most, lines),
            _ => self.play_event(event, lines),
        }
    }

    /// Plays a record that says an event.
    fn play_said(
        &mut self,
        event: &Event,
        fields: &[&[u8]],
        lines: &mut Vec<u8>,
    ) -> Result<(), Stop<Halt>>
        requires can { CanPlay self.old.world (F.map self.old.field) }
        requires count { self.old.records < 2 ^ 62 }
        requires says { event_of false self.old.world.begun (record_of fields.now) ≡ Ok (Some event.now) }
        ensures writes { (given : List Given) × Gains (F.answers self.old.field) (F.answers self.new.field) (contents_in given)
            × Writes (all_of event.now) self.old.world self.new.world (F.map self.old.field) (F.map self.new.field) given lines.old.items lines.new.items result }
        ensures can { OnOk result (CanPlay self.new.world (F.map self.new.field)) }
        ensures cause { HasCauseAt Stop.Failed (F.faults self.old.field) (F.faults self.new.field) result }
        ensures records { OnOk result (self.new.records ≡ self.old.records + 1) }
    {
        self.expand(event, fields, lines)?;
        self.records += 1;
        Ok(())
    }
}

impl<F: Field> Player for GroupPlayer<F> {
    type Reason = Halt;

    ghost Given = { Given };

    ghost Way = { Way };

    ghost course = { course };

    ghost step = { next_way };

    ghost takes = { λ p. Takes p.world p.records (F.map p.field) };

    ghost gains = { answers_gained (λ p. F.answers p.field) };

    ghost live = { λ p. CanPlay p.world (F.map p.field) };

    ghost own_faults = { λ p. F.faults p.field };

    ghost count = { λ p. p.records };

    fn play(&mut self, fields: &[&[u8]], lines: &mut Vec<u8>) -> Result<(), Stop<Halt>> {
        match self.read(fields) {
            Ok(Some(event)) => self.play_said(&event, fields, lines),
            Ok(None) => {
                self.records += 1;
                Ok(())
            }
            Err(Unread::Memory) => Err(Stop::Memory),
            Err(Unread::Fault(fault)) => {
                let why = Halt::Record {
                    number: self.records + 1,
                    cause: fault.cause(),
                    field: fault.field(),
                };
                stop_for(why, lines)
            }
        }
    }

    fn close(&mut self, lines: &mut Vec<u8>) -> Result<(), Memory> {
        self.world.close(lines)
    }

    ghost nothing = { λ p fails given way takes. nothing_from way };

    ghost unstopped = { λ p fails given way takes. unstopped_from way };

    ghost spent = { λ p way takes here. spent_from p.world p.records (F.map p.field) way takes here };

    ghost history = { answers_history (λ p. F.answers p.field) };
}
