//! The items of committed entries.

ghost use Rattle.std.specs.Prelude.{◌≡◌};
ghost use Rattle.fixed_fields.specs.Fields.{Gives};
ghost use Rattle.host_msgs.specs.Items.{commit_in, commit_fields, body_in, ask_in, ask_fields, conf_in, conf_fields};
ghost use Rattle.host_msgs.specs.Reading.{Finds};
ghost use Rattle.host_msgs.specs.Wrapped.{is_request};

use crate::item::Item;
use crate::kinds;
use crate::voters::voters;
use client_msgs::is_canonical_request;
use fixed_fields::{ShortList, array_at, counted_u32s, end, u8_at, u64_at};
use std::alloc::Global;
use values::{Body, Bytes, ClientId, LogEntry, Memory, TOP};

pub fn commit(alloc: Global, content: &[u8]) -> Result<Option<Item>, Memory>
    ensures { Finds result (commit_in content.now) }
{
    let Some((index, term, kind, body)) = fields(content) else {
        return Ok(None);
    };
    if index > TOP || term > TOP {
        return Ok(None);
    }
    match entry_body(alloc, kind, body)? {
        Some(body) => Ok(Some(Item::Commit(index, LogEntry { term, body }))),
        None => Ok(None),
    }
}

/// Index, term, kind and body.
fn fields(content: &[u8]) -> Option<(u64, u64, u8, &[u8])>
    ensures { Gives (λ p. (p.0, (p.1, (p.2, p.3.now)))) result (commit_fields.read content.now) }
{
    let (index, rest) = u64_at(content)?;
    let (term, rest) = u64_at(rest)?;
    let (kind, body) = u8_at(rest)?;
    Some((index, term, kind, body))
}

#[tactic(auto, unfolding(crate::specs::Items::body_in))]
fn entry_body(alloc: Global, kind: u8, bytes: &[u8]) -> Result<Option<Body>, Memory>
    ensures { Finds result (body_in kind bytes.now) }
{
    match kind {
        kinds::body::NOOP => Ok(end(bytes).map(|()| Body::Noop)),
        kinds::body::ASK => ask(alloc, bytes),
        kinds::body::MEMBERS => configuration(alloc, bytes),
        _ => Ok(None),
    }
}

fn ask(alloc: Global, bytes: &[u8]) -> Result<Option<Body>, Memory>
    ensures { Finds result (ask_in bytes.now) }
{
    let Some((client, number, request)) = ask_fields(bytes) else {
        return Ok(None);
    };
    if !is_request(request) {
        return Ok(None);
    }
    let request = Bytes::from_slice(alloc, request)?;
    Ok(Some(Body::Ask {
        client,
        number,
        request,
    }))
}

/// Client, number and request.
fn ask_fields(bytes: &[u8]) -> Option<(ClientId, u64, &[u8])>
    ensures { Gives (λ p. (p.0.0, (p.1, p.2.now))) result (ask_fields.read bytes.now) }
{
    let (client, rest) = array_at::<16>(bytes)?;
    let (number, request) = u64_at(rest)?;
    Some((ClientId(client), number, request))
}

#[tactic(auto, unfolding(crate::specs::Wrapped::is_request))]
fn is_request(bytes: &[u8]) -> bool
    ensures { result ≡ is_request bytes.now }
{
    is_canonical_request(bytes)
}

fn configuration(alloc: Global, bytes: &[u8]) -> Result<Option<Body>, Memory>
    ensures { Finds result (conf_in bytes.now) }
{
    let Some((margin, ids)) = conf_fields(bytes) else {
        return Ok(None);
    };
    match voters(alloc, margin, ids.as_slice())? {
        Some(voters) => Ok(Some(Body::Members { margin, voters })),
        None => Ok(None),
    }
}

/// Margin and ids.
fn conf_fields(bytes: &[u8]) -> Option<(u8, ShortList)>
    ensures { Gives (λ p. (p.0, p.1)) result (conf_fields.read bytes.now) }
{
    let (margin, rest) = u8_at(bytes)?;
    let ids = counted_u32s(rest)?;
    Some((margin, ids))
}
