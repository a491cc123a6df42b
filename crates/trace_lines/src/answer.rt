//! Answers, and what came of a request.
ghost use Rattle.std.specs.Prelude.{◌≡◌};
ghost use Rattle.record_cutting.specs.Lines.{record_of};
ghost use Rattle.trace_lines.specs.Lines as spec;
ghost use Rattle.trace_lines.specs.Meant.{GivesLine, GivesValue};

use crate::field::{client, hex, index, small, wide};
use crate::kind::{Kind, fits_field};
use crate::line::{LineError, TraceLine};
use crate::rows::is_answer;
use crate::word::{Outcome, outcome_of};
use client_msgs::{ResponseFault, read_response, write_response};
use std::alloc::Global;
use values::{ClientId, Memory, Reply, Response};

/// The response of canonical bytes, as hexadecimal.
fn response(alloc: Global, text: &[u8]) -> Result<Response, LineError>
    ensures { GivesValue result (spec.response_in text.now) }
{
    let bytes = hex(alloc, text)?;
    let response = match read_response(alloc, bytes.as_slice()) {
        Ok(response) => response,
        Err(ResponseFault::Memory) => return Err(LineError::Memory),
        Err(_) => return Err(LineError::Grammar),
    };
    match write_response(alloc, &response) {
        Ok(written) if written == bytes => Ok(response),
        Ok(_) => Err(LineError::Grammar),
        Err(Memory) => Err(LineError::Memory),
    }
}

/// What came of a request.
fn reply(alloc: Global, fields: &[&[u8]]) -> Result<Reply, LineError>
    ensures { GivesValue result (spec.reply_in (record_of fields.now)) }
{
    let [word, text] = fields else {
        return Err(LineError::Grammar);
    };
    match outcome_of(word) {
        Some(Outcome::Done) => Ok(Reply::Applied(response(alloc, text)?)),
        Some(Outcome::Stale) => match wide(text) {
            Some(last) => Ok(Reply::Stale(last)),
            None => Err(LineError::Grammar),
        },
        Some(Outcome::Full) => match small(text, u32::MAX) {
            Some(rows) => Ok(Reply::TableFull(rows)),
            None => Err(LineError::Grammar),
        },
        None => Err(LineError::Grammar),
    }
}

/// `INDEX` and what came of a request.
fn outcome(
    alloc: Global,
    client: ClientId,
    number: u64,
    fields: &[&[u8]],
) -> Result<TraceLine, LineError>
    ensures { GivesLine result (spec.outcome_in client number (record_of fields.now)) }
{
    let [place, fields @ ..] = fields else {
        return Err(LineError::Grammar);
    };
    let Some(index) = index(place) else {
        return Err(LineError::Grammar);
    };
    let reply = reply(alloc, fields)?;
    Ok(TraceLine::Outcome {
        client,
        number,
        index,
        reply,
    })
}

/// What is answered to the client's request of this number.
fn told(
    alloc: Global,
    client: ClientId,
    number: u64,
    fields: &[&[u8]],
) -> Result<TraceLine, LineError>
    ensures { GivesLine result (spec.told_in client number (record_of fields.now)) }
{
    match fields {
        [word, fields @ ..] if *word == b"outcome".as_slice() => {
            outcome(alloc, client, number, fields)
        }
        _ if is_answer(fields) => Ok(TraceLine::Other),
        _ => Err(LineError::Grammar),
    }
}

/// What an answer line says, behind its first word.
#[inline(never)]
pub fn answer(alloc: Global, fields: &[&[u8]]) -> Result<TraceLine, LineError>
    ensures { GivesLine result (spec.answer_in (record_of fields.now)) }
{
    let [number, replica, id, asked, fields @ ..] = fields else {
        return Err(LineError::Grammar);
    };
    if !fits_field(Kind::Wide, number) || !fits_field(Kind::Replica, replica) {
        return Err(LineError::Grammar);
    }
    let (Some(client), Some(asked)) = (client(id), wide(asked)) else {
        return Err(LineError::Grammar);
    };
    told(alloc, client, asked, fields)
}
