//! Why a schedule is not played to its end.
ghost use Rattle.std.specs.Prelude.{◌≡◌, ◌++◌, OnErr, OnOk};
ghost use Rattle.schedule_model.specs.Written.{stopped_text};
ghost use Rattle.group_world.specs.Halted.{Halts, stop_by};

use record_stream::Stop;
use schedule_text::RecordFault;
use std::mem;
use trace_text::{Quantity, TraceWriter};
use values::{Cause, Memory};

/// Why a schedule is not played to its end, where neither memory nor a fault is the reason.
#[derive(Clone, Copy, Debug, PartialEq, Eq)]
pub enum Halt {
    /// The record of this number, from 1, means nothing for this cause, at this field; 0 is the record as a whole.
    Record {
        number: u64,
        cause: Cause,
        field: usize,
    },
    /// An event would pass, or has passed, the run's limit of this.
    Limit(Quantity),
    /// What the field answered is no batch, from this offset on.
    Frame(u64),
}

/// Appends the last line of a text that ends before its schedule. After `Memory` the text is as before.
fn write_halt(why: Halt, lines: &mut Vec<u8>) -> Result<(), Memory>
    ensures ok { OnOk result (lines.new.items ≡ lines.old.items ++ stopped_text (stop_by why)) }
    ensures err { OnErr result (lines.new.items ≡ lines.old.items) }
{
    let alloc = *lines.allocator();
    let mut writer = TraceWriter::behind(mem::replace(lines, Vec::new(alloc)));
    let written = match why {
        Halt::Record {
            number,
            cause,
            field,
        } => writer.stopped_at_record(number, &RecordFault::new(cause, field)),
        Halt::Limit(which) => writer.stopped_at_limit(which),
        Halt::Frame(_) => writer.stopped_at_frame(),
    };
    *lines = writer.finish(written.is_ok());
    Ok(written?)
}

/// Says why playing ends, and ends it: with the last line, or for want of memory without it.
pub fn stop_for(why: Halt, lines: &mut Vec<u8>) -> Result<(), Stop<Halt>>
    ensures { Halts why lines.old.items lines.new.items result }
{
    write_halt(why, lines)?;
    Err(Stop::Stopped(why))
}
