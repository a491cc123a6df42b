//! The answers to clients, written.

ghost use Rattle.std.specs.Prelude.{◌≡◌, ◌++◌, OnOk};
ghost use Rattle.std.specs.Int.{w8};
ghost use Rattle.fixed_fields.specs.Fields.{number_bytes};
ghost use Rattle.fixed_fields.specs.Written.{Puts};
ghost use Rattle.client_msgs.specs.Canonical.{canonical_response};
ghost use Rattle.client_msgs.specs.Sizes.{FitsResponse};
ghost use Rattle.group_msgs.specs.Batches.{IsResponseInRange, IsReplyInRange, IsAnswerInRange};
ghost use Rattle.host_msgs.specs.Items.{halt_fields, outcome_fields, part_fields};
ghost use Rattle.host_msgs.specs.Needs.{IsBlock, IsShortPart};
ghost use Rattle.host_msgs.specs.Grammar.{IsHash, IsReply, IsAnswer};
ghost use Rattle.host_msgs.specs.Contents.{reply_kind, reply_content, part_number, answer_kind, answer_bytes};

use crate::kinds;
use crate::pieces::{push_block, push_hash, push_long, push_word};
use client_msgs::write_response;
use fixed_fields::Writer;
use std::alloc::Global;
use values::{Answer, Hash, Memory, Part, Reply, Response};

/// The number of an answer and its bytes.
pub fn push_answer(alloc: Global, out: &mut Writer, answer: &Answer) -> Result<(), Memory>
    requires { IsAnswerInRange answer.now }
    ensures puts { Puts result out.old out.new (number_bytes w8 (answer_kind answer.now) ++ answer_bytes answer.now) }
    ensures grammar { OnOk result (IsAnswer answer.now) }
    ensures short { OnOk result (IsShortPart (answer_bytes answer.now)) }
{
    match answer {
        Answer::Outcome(index, reply) => push_outcome(alloc, out, *index, reply),
        Answer::NotLeader(id) => push_word(out, kinds::answer::NOT_LEADER, *id),
        Answer::Busy(count) => push_long(out, kinds::answer::BUSY, *count),
        Answer::Undecided(at, kept, offered) => push_undecided(out, *at, kept, offered),
        Answer::Malformed(offset) => push_long(out, kinds::answer::MALFORMED, *offset),
        Answer::Invalid(part, size) => push_invalid(out, part_number(*part), *size),
        Answer::Halted(index) => push_long(out, kinds::answer::HALTED, *index),
    }
}

fn push_outcome(alloc: Global, out: &mut Writer, index: u64, reply: &Reply) -> Result<(), Memory>
    requires { IsReplyInRange reply.now }
    ensures puts { Puts result out.old out.new
        (number_bytes w8 0 ++ outcome_fields.spelled (index, (reply_kind reply.now, reply_content reply.now))) }
    ensures grammar { OnOk result (IsReply reply.now) }
    ensures short { OnOk result
        (IsShortPart (outcome_fields.spelled (index, (reply_kind reply.now, reply_content reply.now)))) }
{
    out.u8(kinds::answer::OUTCOME)?;
    out.u64(index)?;
    push_reply(alloc, out, reply)
}

/// The kind of a reply and its bytes.
fn push_reply(alloc: Global, out: &mut Writer, reply: &Reply) -> Result<(), Memory>
    requires { IsReplyInRange reply.now }
    ensures puts { Puts result out.old out.new (number_bytes w8 (reply_kind reply.now) ++ reply_content reply.now) }
    ensures grammar { OnOk result (IsReply reply.now) }
    ensures short { OnOk result (IsBlock (reply_content reply.now)) }
{
    match reply {
        Reply::Applied(response) => push_response(alloc, out, response),
        Reply::Stale(last) => push_long(out, kinds::reply::STALE, *last),
        Reply::TableFull(rows) => push_word(out, kinds::reply::TABLE_FULL, *rows),
    }
}

fn push_response(alloc: Global, out: &mut Writer, response: &Response) -> Result<(), Memory>
    requires { IsResponseInRange response.now }
    ensures puts { Puts result out.old out.new (number_bytes w8 0 ++ canonical_response response.now) }
    ensures grammar { OnOk result (FitsResponse response.now) }
    ensures short { OnOk result (IsBlock (canonical_response response.now)) }
{
    let _read = status_and_tries(response);
    let bytes = write_response(alloc, response)?;
    out.u8(kinds::reply::APPLIED)?;
    push_block(out, bytes.as_slice())
}

/// The status of a response and its tries, 0 where it has none. Its numbers are known to have their widths once they are
/// read.
fn status_and_tries(response: &Response) -> (u32, u32)
    requires { IsResponseInRange response.now }
    ensures { FitsResponse response.now }
{
    match response {
        Response::Backup { status } => (*status, 0),
        Response::Restore { status, tries, .. } => (*status, *tries),
        Response::Delete => (0, 0),
        Response::Expose { status } => (*status, 0),
    }
}

fn push_undecided(out: &mut Writer, at: u64, kept: &Hash, offered: &Hash) -> Result<(), Memory>
    ensures puts { Puts result out.old out.new
        (number_bytes w8 3 ++ halt_fields.spelled (at, (kept.now.0, offered.now.0))) }
    ensures kept { OnOk result (IsHash kept.now) }
    ensures offered { OnOk result (IsHash offered.now) }
{
    out.u8(kinds::answer::UNDECIDED)?;
    out.u64(at)?;
    push_hash(out, kept)?;
    push_hash(out, offered)?;
    Ok(())
}

fn push_invalid(out: &mut Writer, part: u8, size: u64) -> Result<(), Memory>
    ensures { Puts result out.old out.new (number_bytes w8 5 ++ part_fields.spelled (part, size)) }
{
    out.u8(kinds::answer::INVALID)?;
    out.u8(part)?;
    out.u64(size)?;
    Ok(())
}

fn part_number(part: Part) -> u8
    ensures { result ≡ part_number part }
{
    match part {
        Part::Nothing => kinds::part::NOTHING,
        Part::Secret => kinds::part::SECRET,
        Part::Pin => kinds::part::PIN,
        Part::Tries => kinds::part::TRIES,
    }
}
