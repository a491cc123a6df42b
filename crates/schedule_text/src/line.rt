//! Lines, which are fields joined by commas and ended by a line feed.
ghost use Rattle.std.specs.Prelude.{◌≡◌, ◌++◌, OnOk, OnErr, IfOk, decimal};
ghost use Rattle.schedule_model.specs.Lines as spec;
ghost use Rattle.schedule_model.specs.Quantities.{Events};
ghost use Rattle.schedule_text.specs.Joined.{after_comma};

use crate::fault::RecordFault;
use crate::hexadecimal::push_digits;
use itoa::Buffer;
use std::alloc::{AllocError, Global};
use values::{Cause, Part};

/// Appends the decimal digits of a number. After want of memory the line is as before.
pub fn push_number(line: &mut Vec<u8>, number: u64) -> Result<(), AllocError>
    ensures ok { OnOk result (line.new.items ≡ line.old.items ++ decimal number) }
    ensures err { OnErr result (line.new.items ≡ line.old.items) }
{
    // Ids and terms mostly have one digit.
    if number < 10 {
        line.push(b'0' + number as u8)?;
        return Ok(());
    }
    let mut buffer = Buffer::new();
    line.extend_from_slice(buffer.format(number).as_bytes())
}

/// Appends a comma and a field. After want of memory the line is as before.
pub fn push_field(line: &mut Vec<u8>, field: &[u8]) -> Result<(), AllocError>
    ensures ok { OnOk result (line.new.items ≡ line.old.items ++ after_comma field.now) }
    ensures err { OnErr result (line.new.items ≡ line.old.items) }
{
    line.reserve(1 + field.len())?;
    line.push_reserved(b',');
    line.extend_from_slice(field)
}

/// Appends a comma and bytes as lower-case hexadecimal. After want of memory the line is as before.
pub fn push_hex(line: &mut Vec<u8>, bytes: &[u8]) -> Result<(), AllocError>
    ensures ok { OnOk result (line.new.items ≡ line.old.items ++ after_comma (spec.hex bytes.now)) }
    ensures err { OnErr result (line.new.items ≡ line.old.items) }
{
    let size = line.len();
    line.push(b',')?;
    let pushed = push_digits(line, bytes);
    if pushed.is_err() {
        line.truncate(size);
    }
    pushed
}

/// The word of a cause.
pub fn cause_word(cause: Cause) -> &'static str
    ensures { result.now ≡ spec.cause_word cause }
{
    match cause {
        Cause::Word => "word",
        Cause::Fields => "fields",
        Cause::NoBegin => "nobegin",
        Cause::SecondBegin => "secondbegin",
        Cause::Number => "number",
        Cause::Range => "range",
        Cause::Hex => "hex",
        Cause::TooMany => "toomany",
        Cause::Double => "double",
        Cause::TooFew => "toofew",
    }
}

/// The word of a part of a request.
pub fn part_word(part: Part) -> &'static str
    ensures { result.now ≡ spec.part_word part }
{
    match part {
        Part::Nothing => "nothing",
        Part::Secret => "data",
        Part::Pin => "pin",
        Part::Tries => "tries",
    }
}

/// The last line of a text that ends at the record of this number, from 1.
pub fn record_line(alloc: Global, number: u64, fault: &RecordFault) -> Result<Vec<u8>, AllocError>
    ensures { IfOk result (λ line. line.items ≡ spec.line_text (spec.stopped_at_record number fault.now)) }
{
    let mut line = Vec::from_slice(alloc, b"stopped,schedule,")?;
    push_number(&mut line, number)?;
    push_field(&mut line, cause_word(fault.cause()).as_bytes())?;
    line.push(b',')?;
    push_number(&mut line, fault.field() as u64)?;
    line.push(b'\n')?;
    Ok(line)
}

/// The last line of a text that ends at the limit of events.
pub fn limit_line() -> &'static str
    ensures { result.now ≡ spec.line_text (spec.stopped_at_limit Events) }
{
    "stopped,limit,events\n"
}
