//! Why a record means nothing, and why a text ends before its schedule.
ghost use Rattle.std.specs.Prelude.{◌≡◌};
ghost use Rattle.schedule_text.specs.declared.fault.Unread.TheVariants as unread;

use std::alloc::AllocError;
use std::marker::Model;
use values::{Cause, Memory};

/// Why a record means nothing, and at which of its fields, from 1; 0 stands for the record as a whole.
#[derive(Debug, Drop)]
pub struct RecordFault {
    cause: Cause,
    field: usize,
}

impl Model for RecordFault {
    ghost use Rattle.schedule_model.specs.Reading.{RecordFault as Fault};

    ghost Value = { Fault };

    ghost view = { λ f. record { cause = f.cause; field = f.field } };
}

impl RecordFault {
    /// A fault of this cause at this field.
    pub fn new(cause: Cause, field: usize) -> RecordFault
        ensures { result ≡ record { cause = cause; field = field } }
    {
        RecordFault { cause, field }
    }

    /// Why the record means nothing.
    pub fn cause(&self) -> Cause
        ensures { result ≡ self.now.cause }
    {
        self.cause
    }

    /// At which field, from 1; 0 for the record as a whole.
    pub fn field(&self) -> usize
        ensures { result ≡ self.now.field }
    {
        self.field
    }
}

/// Why a field or a record was not read.
#[derive(Debug, Drop)]
pub enum Unread {
    /// Memory ran out.
    Memory,
    /// The record means nothing.
    Fault(RecordFault),
}

impl From<AllocError> for Unread {
    ghost from_gives = { λ _ e. e ≡ unread.Memory };

    fn from(_error: AllocError) -> Unread {
        Unread::Memory
    }
}

impl From<Memory> for Unread {
    ghost from_gives = { λ _ e. e ≡ unread.Memory };

    fn from(_memory: Memory) -> Unread {
        Unread::Memory
    }
}

impl From<RecordFault> for Unread {
    ghost from_gives = { λ fault e. e ≡ unread.Fault fault };

    fn from(fault: RecordFault) -> Unread {
        Unread::Fault(fault)
    }
}

/// Why a text ends before its schedule.
#[derive(Clone, Copy, Debug, PartialEq, Eq)]
pub enum Stopped {
    /// A record means nothing.
    AtRecord,
    /// A limit would be passed.
    AtLimit,
}
