//! A group whose clients are driven plays the records of a schedule.
ghost use Rattle.std.specs.Prelude.{◌≡◌, ◌∷◌, ◌+◌, ◌<◌, ◌^◌, ⊤, true, List, [], Ok, Some, OnOk};
ghost use Rattle.record_cutting.specs.Lines.{record_of};
ghost use Rattle.record_stream.specs.Alone.{none_asked, none_asked_history};
ghost use Rattle.schedule_model.specs.Records.{event_of};
ghost use Rattle.schedule_text.specs.Read.{Reads};
ghost use Rattle.trace_model.specs.Driven.{drives_on};
ghost use Rattle.written_course.specs.Steps.{next};
ghost use Rattle.drive_command.specs.Course.{Drives, course, field, start, steps};
ghost use Rattle.drive_command.specs.Openings.{nothing_from, spent_from, unstopped_from};
ghost use Rattle.drive_command.specs.Pieces.{Counts, Writes, counted_in};
ghost use Rattle.drive_command.specs.Standing.{IsLive, Takes};

use client_driver::Driver;
use group_world::{GroupPlayer, Halt, LocalField, stop_for};
use record_stream::{Player, Stop};
use schedule_text::{Schedule, Unread};
use std::alloc::Global;
use values::{Event, Memory};

/// A group over enclaves in memory that plays a driven schedule, with the one driver of all its clients.
#[derive(Drop)]
pub struct DrivePlayer {
    pub(crate) alloc: Global,
    pub(crate) group: GroupPlayer<LocalField>,
    pub(crate) driver: Driver,
}

impl DrivePlayer {
    /// A group of which nothing has started, before the first record.
    pub fn new(alloc: Global) -> DrivePlayer
        ensures takes { Takes result start }
        ensures live { IsLive result }
        ensures records { result.group.records ≡ 0 }
    {
        DrivePlayer {
            alloc,
            group: GroupPlayer::new(alloc, LocalField::new(alloc)),
            // It drives nobody: the begin event makes the driver.
            driver: Driver::new(0),
        }
    }

    /// The reading of the next record: it says whether the group has begun.
    fn schedule(&self) -> Schedule
        ensures { (result.driven ≡ true) × ((result.begun ≡ self.now.group.world.begun) × (result.records ≡ 0)) }
    {
        if self.group.world.has_begun() {
            Schedule::driven_in_group(self.alloc)
        } else {
            Schedule::driven(self.alloc)
        }
    }

    /// The event of the next record, none for a remark.
    fn read(&self, fields: &[&[u8]]) -> Result<Option<Event>, Unread>
        ensures { Reads result (event_of true self.now.group.world.begun (record_of fields.now)) }
    {
        self.schedule().event(fields)
    }

    /// Plays a record that says an event, with what the driver makes of it.
    fn play_said(
        &mut self,
        event: &Event,
        fields: &[&[u8]],
        lines: &mut Vec<u8>,
    ) -> Result<(), Stop<Halt>>
        requires live { IsLive self.old }
        requires count { self.old.group.records < 2 ^ 62 }
        requires says { event_of true self.old.group.world.begun (record_of fields.now) ≡ Ok (Some event.now) }
        ensures writes { Writes (λ d. drives_on field (counted_in d) event.now) self.old self.new lines.old.items lines.new.items result }
        ensures live { OnOk result (IsLive self.new) }
        ensures records { OnOk result (self.new.group.records ≡ self.old.group.records + 1) }
    {
        self.count_record();
        self.drive_on(event, fields, lines)
    }

    /// One more record was read.
    fn count_record(&mut self)
        requires { self.old.group.records < 2 ^ 62 }
        ensures counts { Counts self.old self.new }
    {
        self.group.records += 1;
    }
}

impl Player for DrivePlayer {
    type Reason = Halt;

    ghost Given = { ⊤ };

    ghost Way = { Drives };

    ghost course = { course };

    ghost step = { next steps };

    ghost takes = { λ p fails given d. Takes p d };

    ghost gains = { λ p q given. none_asked p q given };

    ghost live = { IsLive };

    ghost own_faults = { λ p. 0 };

    ghost count = { λ p. p.group.records };

    fn play(&mut self, fields: &[&[u8]], lines: &mut Vec<u8>) -> Result<(), Stop<Halt>> {
        match self.read(fields) {
            Ok(Some(event)) => self.play_said(&event, fields, lines),
            Ok(None) => {
                self.count_record();
                Ok(())
            }
            Err(Unread::Memory) => Err(Stop::Memory),
            Err(Unread::Fault(fault)) => {
                let why = Halt::Record {
                    number: self.group.records + 1,
                    cause: fault.cause(),
                    field: fault.field(),
                };
                stop_for(why, lines)
            }
        }
    }

    fn close(&mut self, lines: &mut Vec<u8>) -> Result<(), Memory> {
        self.group.world.close(lines)
    }

    ghost nothing = { λ p fails given d taken. nothing_from d };

    ghost unstopped = { λ p fails given d taken. unstopped_from d };

    ghost spent = { λ p d taken here. spent_from d };

    ghost history = { none_asked_history };
}
