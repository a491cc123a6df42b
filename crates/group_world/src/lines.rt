//! The lines of an event.
ghost use Rattle.std.specs.Prelude.{◌≡◌, ◌≤◌, ◌++◌, ◌∷◌, OnOk, OnErr};
ghost use Rattle.fixed_fields.specs.Written.{Puts};
ghost use Rattle.values.specs.declared.limits.TheConstants.{TOP};
ghost use Rattle.schedule_model.specs.Lines.{event_line, lines_text};
ghost use Rattle.group_world.specs.Plays.{came_of, lines_by};

use crate::came::Came;
use std::mem;
use trace_text::TraceWriter;
use values::{Event, Memory};

/// Appends the line of the event of this number, and those of what came of it. The messages and the answers of a batch
/// are numbered over the run from these on. After `Memory` the text is as before.
pub(crate) fn write_lines(
    number: u64,
    what: &Event,
    came: &Came,
    first_message: u64,
    first_answer: u64,
    out: &mut Vec<u8>,
) -> Result<(), Memory>
    requires messages { first_message ≤ TOP }
    requires answers { first_answer ≤ TOP }
    ensures ok { OnOk result (out.new.items ≡ out.old.items
        ++ lines_text (event_line number what.now ∷ lines_by first_message first_answer (came_of came.now))) }
    ensures err { OnErr result (out.new.items ≡ out.old.items) }
{
    let alloc = *out.allocator();
    let mut lines = TraceWriter::behind(mem::replace(out, Vec::new(alloc)));
    let written = push_lines(&mut lines, number, what, came, first_message, first_answer);
    *out = lines.finish(written.is_ok());
    written
}

fn push_lines(
    lines: &mut TraceWriter,
    number: u64,
    what: &Event,
    came: &Came,
    first_message: u64,
    first_answer: u64,
) -> Result<(), Memory>
    requires messages { first_message ≤ TOP }
    requires answers { first_answer ≤ TOP }
    ensures { Puts result lines.old lines.new
        (lines_text (event_line number what.now ∷ lines_by first_message first_answer (came_of came.now))) }
{
    lines.event(number, what)?;
    push_came(lines, came, first_message, first_answer)
}

fn push_came(
    lines: &mut TraceWriter,
    came: &Came,
    first_message: u64,
    first_answer: u64,
) -> Result<(), Memory>
    requires messages { first_message ≤ TOP }
    requires answers { first_answer ≤ TOP }
    ensures { Puts result lines.old lines.new (lines_text (lines_by first_message first_answer (came_of came.now))) }
{
    match came {
        Came::Refused(refusal) => Ok(lines.refused_by_group(*refusal)?),
        Came::Replied(replica, batch) => lines.batch(*replica, first_message, first_answer, batch),
        Came::Reported(client, report) => Ok(lines.report(client, report)?),
        Came::Passed => Ok(()),
    }
}
