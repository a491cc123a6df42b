//! Reading a line.
ghost use Rattle.std.specs.Prelude.{◌≡◌, ◌<◌, [], ◌∷◌, IfOk, IfSome, IfNone, length, map};
ghost use Rattle.record_cutting.specs.Lines.{record_of};
ghost use Rattle.trace_model.specs.TraceLines as model;
ghost use Rattle.trace_lines.specs.Lines as spec;
ghost use Rattle.trace_lines.specs.Meant.{GivesLine, Tells, meant};

use crate::answer::answer;
use crate::entry::{commit, members};
use crate::event::event;
use crate::field::wide;
use crate::kind::{Kind, fits};
use crate::line::{LineError, TraceLine};
use crate::rows::{is_refusal, is_report, is_sent, is_stop};
use crate::word::{Head, bound_of, head_of};
use client_msgs::{requests_are_read_again, responses_are_read_again};
use memchr::memchr;
use std::alloc::{AllocError, Global};
use trace_model::fields_are_plain;

/// The most bytes of a line, without its line feed.
pub const MAX_LINE: usize = 68_000_000;

/// How many fields a line has mostly, at the most: a longer one takes memory twice.
const FIELDS: usize = 16;

/// What follows `lead`.
const LEAD: [Kind; 2] = [Kind::Replica, Kind::Index];

/// What follows `saved`.
const SAVED: [Kind; 2] = [Kind::Replica, Kind::Wide];

/// What follows `taken`.
const TAKEN: [Kind; 3] = [Kind::Replica, Kind::Index, Kind::Hash];

/// What follows `halt`.
const HALT: [Kind; 4] = [Kind::Replica, Kind::Index, Kind::Hash, Kind::Hash];

/// What follows `end`.
const END: [Kind; 3] = [Kind::Wide, Kind::Wide, Kind::Wide];

/// What a line says, without its line feed. `Grammar` comes exactly where it has none of the forms, `Memory` where
/// memory ran out.
pub fn read_line(alloc: Global, line: &[u8]) -> Result<TraceLine, LineError>
    // What is read is said so.
    ensures found { IfOk result (λ read. model.Says line.now (meant read)) }
    // What is said is read, and nothing else is said.
    ensures only { (what : model.TraceLine) → model.Says line.now what → Tells result what }
{
    fields_are_plain();
    requests_are_read_again();
    responses_are_read_again();
    read(alloc, line)
}

fn read(alloc: Global, line: &[u8]) -> Result<TraceLine, LineError>
    ensures { GivesLine result (spec.line_in line.now) }
{
    if line.len() > MAX_LINE {
        return Err(LineError::Grammar);
    }
    match cut(alloc, line) {
        Ok(fields) => read_fields(alloc, fields.as_slice()),
        Err(AllocError) => Err(LineError::Memory),
    }
}

/// The fields of a line.
fn cut<'a>(alloc: Global, line: &'a [u8]) -> Result<Vec<&'a [u8]>, AllocError>
    ensures { IfOk result (λ fields. map (λ field. field.now) fields.items ≡ spec.cut line.now) }
{
    let mut fields = Vec::with_capacity(alloc, FIELDS)?;
    let mut rest = line;
    while let Some((field, more)) = split_field(rest) {
        fields.push(field)?;
        rest = more;
    }
    fields.push(rest)?;
    Ok(fields)
}

/// The first field, and what follows its comma.
#[tactic(auto, using(crate::proofs::Cutting::cut_first, crate::proofs::Cutting::cut_none))]
fn split_field<'a>(text: &'a [u8]) -> Option<(&'a [u8], &'a [u8])>
    ensures found { IfSome result (λ parts. spec.cut text.now ≡ parts.0.now ∷ spec.cut parts.1.now) }
    ensures less { IfSome result (λ parts. length parts.1.now < length text.now) }
    ensures last { IfNone result (spec.cut text.now ≡ text.now ∷ []) }
{
    let comma = memchr(b',', text)?;
    Some((&text[..comma], &text[comma + 1..]))
}

/// What the fields of a line say.
fn read_fields(alloc: Global, fields: &[&[u8]]) -> Result<TraceLine, LineError>
    ensures { GivesLine result (spec.fields_in (record_of fields.now)) }
{
    let [word, fields @ ..] = fields else {
        return Err(LineError::Grammar);
    };
    match head_of(word) {
        Some(head) => read_rest(alloc, head, fields),
        None => Err(LineError::Grammar),
    }
}

/// What the fields behind the first word say. The functions that hold much are not inlined here, so that a line pays
/// for the locals of its own form alone.
fn read_rest(alloc: Global, head: Head, fields: &[&[u8]]) -> Result<TraceLine, LineError>
    ensures { GivesLine result (spec.rest_in head (record_of fields.now)) }
{
    match head {
        Head::Event => event(alloc, fields),
        Head::Sent => told_if(TraceLine::Other, is_sent(fields)),
        Head::Commit => commit(alloc, fields),
        Head::Answer => answer(alloc, fields),
        Head::Client => told_if(TraceLine::Other, is_report(fields)),
        Head::Lead => told_if(TraceLine::Other, fits(&LEAD, fields)),
        Head::Members => members(alloc, fields),
        Head::Refused => told_if(TraceLine::Refused, is_refusal(fields)),
        Head::Saved => told_if(TraceLine::Other, fits(&SAVED, fields)),
        Head::Taken => told_if(TraceLine::Other, fits(&TAKEN, fields)),
        Head::Halt => told_if(TraceLine::Other, fits(&HALT, fields)),
        Head::Log => log(fields),
        Head::Rollbacks => rollbacks(fields),
        Head::End => told_if(TraceLine::End, fits(&END, fields)),
        Head::Stopped => told_if(TraceLine::Stopped, is_stop(fields)),
    }
}

/// A line of which no more is told than that its fields are those of its form.
#[inline(always)]
fn told_if(line: TraceLine, holds: bool) -> Result<TraceLine, LineError>
    ensures { GivesLine result (spec.told_if (meant line) holds) }
{
    if holds {
        Ok(line)
    } else {
        Err(LineError::Grammar)
    }
}

/// `log,LENGTH`, behind the first word.
fn log(fields: &[&[u8]]) -> Result<TraceLine, LineError>
    ensures { GivesLine result (spec.log_in (record_of fields.now)) }
{
    match fields {
        [text] => match wide(text) {
            Some(length) => Ok(TraceLine::LogEnd(length)),
            None => Err(LineError::Grammar),
        },
        _ => Err(LineError::Grammar),
    }
}

/// `rollbacks,` and whether they were within the bound, behind the first word.
fn rollbacks(fields: &[&[u8]]) -> Result<TraceLine, LineError>
    ensures { GivesLine result (spec.rollbacks_in (record_of fields.now)) }
{
    match fields {
        [word] => match bound_of(word) {
            Some(within) => Ok(TraceLine::Rollbacks(within)),
            None => Err(LineError::Grammar),
        },
        _ => Err(LineError::Grammar),
    }
}
