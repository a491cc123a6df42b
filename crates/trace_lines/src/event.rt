//! `event,E,` and a record.
ghost use Rattle.std.specs.Prelude.{◌≡◌, not, false};
ghost use Rattle.record_cutting.specs.Lines.{record_of};
ghost use Rattle.schedule_model.specs.Records as model;
ghost use Rattle.schedule_text.specs.Read.{Reads};
ghost use Rattle.trace_lines.specs.Lines as spec;
ghost use Rattle.trace_lines.specs.Meant.{GivesLine, GivesValue};

use crate::field::{are_lower, wide};
use crate::line::{LineError, TraceLine};
use schedule_text::{Schedule, Unread};
use std::alloc::Global;
use values::Event;

/// Whether a record is one by which a group begins.
fn begins(fields: &[&[u8]]) -> bool
    ensures { result ≡ spec.begins (record_of fields.now) }
{
    match fields {
        [] => false,
        [word, ..] => *word == b"begin".as_slice(),
    }
}

/// The event of a record, at its place in a schedule.
#[inline(never)]
fn event_of(alloc: Global, fields: &[&[u8]]) -> Result<Option<Event>, Unread>
    ensures { Reads result (model.event_of false (not (spec.begins (record_of fields.now))) (record_of fields.now)) }
{
    let mut schedule = if begins(fields) {
        Schedule::new(alloc)
    } else {
        Schedule::in_group(alloc)
    };
    schedule.event(fields)
}

/// The event of a record as it is printed: with no capital, and no settling.
fn record(alloc: Global, fields: &[&[u8]]) -> Result<Event, LineError>
    ensures { GivesValue result (spec.record_in (record_of fields.now)) }
{
    if !are_lower(fields) {
        return Err(LineError::Grammar);
    }
    match event_of(alloc, fields) {
        Ok(Some(Event::Settle { .. })) => Err(LineError::Grammar),
        Ok(Some(event)) => Ok(event),
        Ok(None) => Err(LineError::Grammar),
        Err(Unread::Memory) => Err(LineError::Memory),
        Err(Unread::Fault(_)) => Err(LineError::Grammar),
    }
}

/// What an event line says, behind its first word.
#[inline(never)]
pub fn event(alloc: Global, fields: &[&[u8]]) -> Result<TraceLine, LineError>
    ensures { GivesLine result (spec.event_in (record_of fields.now)) }
{
    let [number, fields @ ..] = fields else {
        return Err(LineError::Grammar);
    };
    let Some(number) = wide(number) else {
        return Err(LineError::Grammar);
    };
    let what = record(alloc, fields)?;
    Ok(TraceLine::Event { number, what })
}
