//! The items of answers to clients.

ghost use Rattle.std.specs.Prelude.{◌≡◌};
ghost use Rattle.fixed_fields.specs.Fields.{Gives};
ghost use Rattle.host_msgs.specs.Items.{answer_in, answer_fields, answer_of, outcome_in, outcome_fields, reply_in, not_leader_in, undecided_in, invalid_in, halt_fields, part_fields, part_of, long_field, word_field};
ghost use Rattle.host_msgs.specs.Reading.{Finds};
ghost use Rattle.host_msgs.specs.Wrapped.{response_in};

use crate::item::Item;
use crate::kinds;
use client_msgs::{ResponseFault, read_response};
use fixed_fields::{array_at, end, u8_at, u32_at, u64_at};
use group_quorum::MAX_ID;
use std::alloc::Global;
use values::{Answer, ClientId, Hash, Memory, Part, Reply, Response, TOP};

pub fn answer(alloc: Global, content: &[u8]) -> Result<Option<Item>, Memory>
    ensures { Finds result (answer_in content.now) }
{
    let Some((client, number, kind, bytes)) = fields(content) else {
        return Ok(None);
    };
    match answer_of(alloc, kind, bytes)? {
        Some(answer) => Ok(Some(Item::Answer(client, number, answer))),
        None => Ok(None),
    }
}

/// Client, number, kind and content.
fn fields(content: &[u8]) -> Option<(ClientId, u64, u8, &[u8])>
    ensures { Gives (λ p. (p.0.0, (p.1, (p.2, p.3.now)))) result (answer_fields.read content.now) }
{
    let (client, rest) = array_at::<16>(content)?;
    let (number, rest) = u64_at(rest)?;
    let (kind, bytes) = u8_at(rest)?;
    Some((ClientId(client), number, kind, bytes))
}

#[tactic(auto, unfolding(crate::specs::Items::answer_of))]
fn answer_of(alloc: Global, kind: u8, bytes: &[u8]) -> Result<Option<Answer>, Memory>
    ensures { Finds result (answer_of kind bytes.now) }
{
    match kind {
        kinds::answer::OUTCOME => outcome(alloc, bytes),
        kinds::answer::NOT_LEADER => Ok(not_leader(bytes)),
        kinds::answer::BUSY => Ok(whole_u64(bytes).map(Answer::Busy)),
        kinds::answer::UNDECIDED => Ok(undecided(bytes)),
        kinds::answer::MALFORMED => Ok(whole_u64(bytes).map(Answer::Malformed)),
        kinds::answer::INVALID => Ok(invalid(bytes)),
        kinds::answer::HALTED => Ok(
            whole_u64(bytes)
                .filter(|index| *index <= TOP)
                .map(Answer::Halted),
        ),
        _ => Ok(None),
    }
}

fn outcome(alloc: Global, bytes: &[u8]) -> Result<Option<Answer>, Memory>
    ensures { Finds result (outcome_in bytes.now) }
{
    let Some((index, kind, rest)) = outcome_fields(bytes) else {
        return Ok(None);
    };
    if index > TOP {
        return Ok(None);
    }
    match reply(alloc, kind, rest)? {
        Some(reply) => Ok(Some(Answer::Outcome(index, reply))),
        None => Ok(None),
    }
}

/// Index, kind and content.
fn outcome_fields(bytes: &[u8]) -> Option<(u64, u8, &[u8])>
    ensures { Gives (λ p. (p.0, (p.1, p.2.now))) result (outcome_fields.read bytes.now) }
{
    let (index, rest) = u64_at(bytes)?;
    let (kind, rest) = u8_at(rest)?;
    Some((index, kind, rest))
}

#[tactic(auto, unfolding(crate::specs::Items::reply_in))]
fn reply(alloc: Global, kind: u8, bytes: &[u8]) -> Result<Option<Reply>, Memory>
    ensures { Finds result (reply_in kind bytes.now) }
{
    match kind {
        kinds::reply::APPLIED => Ok(response(alloc, bytes)?.map(Reply::Applied)),
        kinds::reply::STALE => Ok(whole_u64(bytes).map(Reply::Stale)),
        kinds::reply::TABLE_FULL => Ok(whole_u32(bytes).map(Reply::TableFull)),
        _ => Ok(None),
    }
}

#[tactic(auto, unfolding(crate::specs::Wrapped::response_in))]
fn response(alloc: Global, bytes: &[u8]) -> Result<Option<Response>, Memory>
    ensures { Finds result (response_in bytes.now) }
{
    match read_response(alloc, bytes) {
        Ok(response) => Ok(Some(response)),
        Err(ResponseFault::Memory) => Err(Memory),
        Err(_) => Ok(None),
    }
}

fn not_leader(bytes: &[u8]) -> Option<Answer>
    ensures { result ≡ not_leader_in bytes.now }
{
    let leader = whole_u32(bytes)?;
    if leader > MAX_ID {
        return None;
    }
    Some(Answer::NotLeader(leader))
}

fn undecided(bytes: &[u8]) -> Option<Answer>
    ensures { result ≡ undecided_in bytes.now }
{
    let (at, rest) = u64_at(bytes)?;
    let (kept, rest) = array_at::<32>(rest)?;
    let (offered, rest) = array_at::<32>(rest)?;
    end(rest)?;
    if at > TOP {
        return None;
    }
    Some(Answer::Undecided(at, Hash(kept), Hash(offered)))
}

fn invalid(bytes: &[u8]) -> Option<Answer>
    ensures { result ≡ invalid_in bytes.now }
{
    let (part, rest) = u8_at(bytes)?;
    let (size, rest) = u64_at(rest)?;
    end(rest)?;
    let part = part_of(part)?;
    Some(Answer::Invalid(part, size))
}

fn part_of(number: u8) -> Option<Part>
    ensures { result ≡ part_of number }
{
    match number {
        kinds::part::NOTHING => Some(Part::Nothing),
        kinds::part::SECRET => Some(Part::Secret),
        kinds::part::PIN => Some(Part::Pin),
        kinds::part::TRIES => Some(Part::Tries),
        _ => None,
    }
}

/// A number of eight bytes, which are all of the bytes.
fn whole_u64(bytes: &[u8]) -> Option<u64>
    ensures { result ≡ long_field.read bytes.now }
{
    let (number, rest) = u64_at(bytes)?;
    end(rest)?;
    Some(number)
}

/// A number of four bytes, which are all of the bytes.
fn whole_u32(bytes: &[u8]) -> Option<u32>
    ensures { result ≡ word_field.read bytes.now }
{
    let (number, rest) = u32_at(bytes)?;
    end(rest)?;
    Some(number)
}
