//! The last line of a text that ends before its schedule.
ghost use Rattle.std.specs.Prelude.{◌≡◌};
ghost use Rattle.fixed_fields.specs.Written.{Puts};
ghost use Rattle.schedule_model.specs.Lines as spec;
ghost use Rattle.trace_text.specs.Refused.{quantity_of};

use crate::field::Field::{Number, Word};
use crate::writer::TraceWriter;
use schedule_text::{RecordFault, cause_word};
use std::alloc::AllocError;

/// What a run has a limit of.
#[derive(Clone, Copy, Debug, PartialEq, Eq)]
pub enum Quantity {
    Events,
    Messages,
    Answers,
    Replicas,
    States,
    Clients,
}

/// The word of a quantity.
fn quantity_word(which: Quantity) -> &'static str
    ensures { result.now ≡ spec.quantity_word (quantity_of which) }
{
    match which {
        Quantity::Events => "events",
        Quantity::Messages => "messages",
        Quantity::Answers => "answers",
        Quantity::Replicas => "replicas",
        Quantity::States => "states",
        Quantity::Clients => "clients",
    }
}

impl TraceWriter {
    /// The line of a text that ends at the record of this number, from 1.
    pub fn stopped_at_record(&mut self, number: u64, fault: &RecordFault) -> Result<(), AllocError>
        ensures { Puts result self.old self.new (spec.line_text (spec.stopped_at_record number fault.now)) }
    {
        self.line(
            "stopped",
            &[
                Word("schedule"),
                Number(number),
                Word(cause_word(fault.cause())),
                Number(fault.field() as u64),
            ],
        )
    }

    /// The line of a text that ends at a limit.
    pub fn stopped_at_limit(&mut self, which: Quantity) -> Result<(), AllocError>
        ensures { Puts result self.old self.new (spec.line_text (spec.stopped_at_limit (quantity_of which))) }
    {
        self.line("stopped", &[Word("limit"), Word(quantity_word(which))])
    }

    /// The line of a text that ends at a content that is no batch.
    pub fn stopped_at_frame(&mut self) -> Result<(), AllocError>
        ensures { Puts result self.old self.new (spec.line_text spec.stopped_at_frame) }
    {
        self.line("stopped", &[Word("frame")])
    }
}
