//! What stands in the log: commits and configurations.
ghost use Rattle.std.specs.Prelude.{◌≤◌, []};
ghost use Rattle.record_cutting.specs.Lines.{record_of};
ghost use Rattle.trace_lines.specs.Lines as spec;
ghost use Rattle.trace_lines.specs.Meant.{Gives, GivesLine, GivesValue};

use crate::field::{client, hex, index, replica, small, wide};
use crate::kind::{Kind, fits_field};
use crate::line::{LineError, TraceLine};
use crate::word::{Content, content_of};
use client_msgs::is_canonical_request;
use group_quorum::{Config, MAX_MARGIN};
use std::alloc::Global;
use values::{Body, Ids, LogEntry};

/// The ids of these texts.
fn read_ids(alloc: Global, texts: &[&[u8]]) -> Result<Vec<u32>, LineError>
    ensures { Gives (λ ids. ids.items) result (spec.ids_onto [] (record_of texts.now)) }
{
    let mut ids = Vec::new(alloc);
    for text in texts {
        let Some(id) = replica(text) else {
            return Err(LineError::Grammar);
        };
        if ids.push(id).is_err() {
            return Err(LineError::Memory);
        }
    }
    Ok(ids)
}

/// A margin and its voters.
fn configuration(alloc: Global, fields: &[&[u8]]) -> Result<(u8, Ids), LineError>
    ensures { GivesValue result (spec.conf_in (record_of fields.now)) }
{
    let [margin, texts @ ..] = fields else {
        return Err(LineError::Grammar);
    };
    let Some(margin) = small(margin, u32::from(MAX_MARGIN)) else {
        return Err(LineError::Grammar);
    };
    let ids = read_ids(alloc, texts)?;
    voters(alloc, margin as u8, ids.as_slice())
}

/// A margin with these voters, if they are rising and make a configuration.
#[tactic(auto, using(crate::proofs::Members::members_made, crate::proofs::Members::members_faulty, crate::proofs::Members::members_unsorted))]
fn voters(alloc: Global, margin: u8, ids: &[u32]) -> Result<(u8, Ids), LineError>
    requires { margin ≤ MAX_MARGIN }
    ensures { GivesValue result (spec.if_members margin ids.now) }
{
    match Config::new(ids, margin) {
        Ok(_) => match Ids::from_slice(alloc, ids) {
            Ok(Some(voters)) => Ok((margin, voters)),
            Ok(None) => Err(LineError::Grammar),
            Err(_) => Err(LineError::Memory),
        },
        Err(_) => Err(LineError::Grammar),
    }
}

/// What a members line says, behind its first word.
#[inline(never)]
pub fn members(alloc: Global, fields: &[&[u8]]) -> Result<TraceLine, LineError>
    ensures { GivesLine result (spec.members_in (record_of fields.now)) }
{
    let [replica, index, fields @ ..] = fields else {
        return Err(LineError::Grammar);
    };
    if !fits_field(Kind::Replica, replica) || !fits_field(Kind::Index, index) {
        return Err(LineError::Grammar);
    }
    let (margin, voters) = configuration(alloc, fields)?;
    Ok(TraceLine::Members { margin, voters })
}

/// `C,N,HEX` of a commit.
fn ask(alloc: Global, fields: &[&[u8]]) -> Result<Body, LineError>
    ensures { GivesValue result (spec.ask_in (record_of fields.now)) }
{
    let [id, number, request] = fields else {
        return Err(LineError::Grammar);
    };
    let (Some(client), Some(number)) = (client(id), wide(number)) else {
        return Err(LineError::Grammar);
    };
    let request = hex(alloc, request)?;
    if !is_canonical_request(request.as_slice()) {
        return Err(LineError::Grammar);
    }
    Ok(Body::Ask {
        client,
        number,
        request,
    })
}

/// The content of an entry.
fn body(alloc: Global, fields: &[&[u8]]) -> Result<Body, LineError>
    ensures { GivesValue result (spec.body_in (record_of fields.now)) }
{
    let [word, fields @ ..] = fields else {
        return Err(LineError::Grammar);
    };
    match content_of(word) {
        Some(Content::Noop) if fields.is_empty() => Ok(Body::Noop),
        Some(Content::Noop) | None => Err(LineError::Grammar),
        Some(Content::Ask) => ask(alloc, fields),
        Some(Content::Members) => {
            let (margin, voters) = configuration(alloc, fields)?;
            Ok(Body::Members { margin, voters })
        }
    }
}

/// What a commit line says, behind its first word.
#[inline(never)]
pub fn commit(alloc: Global, fields: &[&[u8]]) -> Result<TraceLine, LineError>
    ensures { GivesLine result (spec.commit_in (record_of fields.now)) }
{
    let [id, place, term, fields @ ..] = fields else {
        return Err(LineError::Grammar);
    };
    let (Some(replica), Some(index), Some(term)) = (replica(id), index(place), index(term)) else {
        return Err(LineError::Grammar);
    };
    let body = body(alloc, fields)?;
    Ok(TraceLine::Commit {
        replica,
        index,
        entry: LogEntry { term, body },
    })
}
