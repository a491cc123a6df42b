//! A schedule, read record by record.
ghost use Rattle.std.specs.Prelude.{◌≡◌, ◌<◌, ◌^◌, true, false, IfOk, OnErr};
ghost use Rattle.record_cutting.specs.Lines.{record_of};
ghost use Rattle.schedule_model.specs.Records as spec;
ghost use Rattle.schedule_text.specs.Read.{Reads};
ghost use Rattle.schedule_text.specs.Standing.{in_group, past, start};

use crate::fault::{RecordFault, Unread};
use crate::field::field;
use crate::record::read_fields;
use crate::word::{has_fields, placed, word_of};
use std::alloc::Global;
use std::marker::Model;
use values::{Cause, Event};

/// What was read of a schedule. Contracts see whether clients are driven, whether the group has begun, and how
/// many records were read.
#[derive(Debug, Drop)]
pub struct Schedule {
    alloc: Global,
    driven: bool,
    begun: bool,
    records: u64,
}

impl Model for Schedule {
    ghost use Rattle.schedule_text.specs.Standing.{Standing};

    ghost Value = { Standing };

    ghost view = { λ s. record { driven = s.driven; begun = s.begun; records = s.records } };
}

impl Schedule {
    /// No record was read. `again` is no word of this schedule.
    pub fn new(alloc: Global) -> Schedule
        ensures { result ≡ start false }
    {
        Schedule {
            alloc,
            driven: false,
            begun: false,
            records: 0,
        }
    }

    /// No record was read. `again` lets a client's driver go on with what it wants.
    pub fn driven(alloc: Global) -> Schedule
        ensures { result ≡ start true }
    {
        Schedule {
            driven: true,
            ..Schedule::new(alloc)
        }
    }

    /// No record was read here, and the group has begun before. `again` is no word of this schedule.
    pub fn in_group(alloc: Global) -> Schedule
        ensures { result ≡ in_group }
    {
        Schedule {
            begun: true,
            ..Schedule::new(alloc)
        }
    }

    /// No record was read here, and the group has begun before. `again` lets a client's driver go on with what it wants.
    pub fn driven_in_group(alloc: Global) -> Schedule
        ensures { result ≡ record in_group { driven = true } }
    {
        Schedule {
            begun: true,
            ..Schedule::driven(alloc)
        }
    }

    /// How many records were read, remarks included.
    pub fn records(&self) -> u64
        ensures { result ≡ self.now.records }
    {
        self.records
    }

    /// The event of the next record; `None` exactly for a remark, which is one whose first field begins with `#`.
    ///
    /// `Fault` says the first fault of the record and its field. `Memory` comes for a record without a fault alone.
    /// After an error the schedule is as before: the record was not read.
    pub fn event(&mut self, fields: &[&[u8]]) -> Result<Option<Event>, Unread>
        requires { self.old.records < 2 ^ 62 }
        ensures read { Reads result (spec.event_of self.old.driven self.old.begun (record_of fields.now)) }
        ensures after { IfOk result (λ event. self.new ≡ past self.old event) }
        ensures kept { OnErr result (self.new ≡ self.old) }
    {
        let event = self.read(fields)?;
        if let Some(Event::Begin { .. }) = &event {
            self.begun = true;
        }
        self.records += 1;
        Ok(event)
    }

    /// The event of a record that stands here, none for a remark.
    fn read(&self, fields: &[&[u8]]) -> Result<Option<Event>, Unread>
        ensures { Reads result (spec.event_of self.now.driven self.now.begun (record_of fields.now)) }
    {
        if field(fields, 1).starts_with(b"#") {
            return Ok(None);
        }
        let event = self.read_event(fields)?;
        Ok(Some(event))
    }

    /// The event of a record that is no remark: its word, the number of its fields, its place, and then each field.
    fn read_event(&self, fields: &[&[u8]]) -> Result<Event, Unread>
        ensures { Reads result (spec.event_at self.now.driven self.now.begun (record_of fields.now)) }
    {
        let word = word_of(self.driven, fields)?;
        if !has_fields(word, fields.len()) {
            return Err(Unread::Fault(RecordFault::new(Cause::Fields, 0)));
        }
        let word = placed(self.begun, word)?;
        read_fields(self.alloc, word, fields)
    }
}
