//! The contents of items, written.

ghost use Rattle.std.specs.Prelude.{◌≡◌};
ghost use Rattle.std.specs.Int.{w32};
ghost use Rattle.fixed_fields.specs.Formats.{IsOfWidth};
ghost use Rattle.group_quorum.specs.Voters.{IsId, IsSound};
ghost use Rattle.group_msgs.specs.Ranges.{IsEntryInRange, IsInRange};
ghost use Rattle.group_msgs.specs.Batches.{IsAnswerInRange, IsRefusalInRange};
ghost use Rattle.host_msgs.specs.Items.{long_field, word_field};
ghost use Rattle.host_msgs.specs.Refusals.{refusal_numbers};
ghost use Rattle.host_msgs.specs.Grammar.{IsIndex, IsRefusal};
ghost use Rattle.host_msgs.specs.Again.{IsMembersItem, IsHaltItem, IsTakenItem, IsCommitItem, IsAnswerItem, IsSentItem};
ghost use Rattle.host_msgs.specs.Contents.{members_content, halt_content, taken_content, commit_content, answer_content, sent_content, refused_content};

use crate::bodies::push_body;
use crate::content::Content;
use crate::kinds::refusal as codes;
use crate::pieces::{push_block, push_client, push_hash};
use crate::replies::push_answer;
use fixed_fields::Writer;
use group_msgs::write_peer;
use std::alloc::Global;
use values::{Answer, ClientId, Hash, Ids, LogEntry, Memory, PeerMsg, Point, Refusal, ReplicaId};

/// The term in which a replica leads.
impl Content for u64 {
    ghost content = { long_field.spelled };

    ghost fits = { IsIndex };

    ghost grammar = { IsIndex };

    fn push(&self, _alloc: Global, out: &mut Writer) -> Result<(), Memory> {
        out.u64(*self)?;
        Ok(())
    }
}

/// The number of a saved state.
impl Content for u32 {
    ghost content = { word_field.spelled };

    ghost fits = { λ _. Unit {0} };

    ghost grammar = { IsOfWidth w32 };

    fn push(&self, _alloc: Global, out: &mut Writer) -> Result<(), Memory> {
        out.u32(*self)?;
        Ok(())
    }
}

/// A configuration with its index.
impl Content for (u64, u8, Ids) {
    ghost content = { members_content };

    ghost fits = { λ m. IsIndex m.0 × IsSound (record { margin = m.1; voters = m.2 }) };

    ghost grammar = { IsMembersItem };

    fn push(&self, _alloc: Global, out: &mut Writer) -> Result<(), Memory> {
        let (index, margin, voters) = self;
        out.u64(*index)?;
        out.u8(*margin)?;
        out.u32s(voters.as_slice())?;
        Ok(())
    }
}

/// An index, the hash kept there and the one offered.
impl Content for (u64, Hash, Hash) {
    ghost content = { halt_content };

    ghost fits = { λ h. IsIndex h.0 };

    ghost grammar = { IsHaltItem };

    fn push(&self, _alloc: Global, out: &mut Writer) -> Result<(), Memory> {
        let (index, kept, offered) = self;
        out.u64(*index)?;
        push_hash(out, kept)?;
        push_hash(out, offered)?;
        Ok(())
    }
}

/// The point of a table that was taken.
impl Content for Point {
    ghost content = { taken_content };

    ghost fits = { λ p. IsIndex p.index };

    ghost grammar = { IsTakenItem };

    fn push(&self, _alloc: Global, out: &mut Writer) -> Result<(), Memory> {
        out.u64(self.index)?;
        push_hash(out, &self.hash)?;
        Ok(())
    }
}

/// A committed entry with its index.
impl Content for (u64, LogEntry) {
    ghost content = { commit_content };

    ghost fits = { λ c. IsIndex c.0 × IsEntryInRange c.1 };

    ghost grammar = { IsCommitItem };

    fn push(&self, _alloc: Global, out: &mut Writer) -> Result<(), Memory> {
        let (index, entry) = self;
        out.u64(*index)?;
        out.u64(entry.term)?;
        push_body(out, &entry.body)?;
        Ok(())
    }
}

/// An answer with its client and number.
impl Content for (ClientId, u64, Answer) {
    ghost content = { answer_content };

    ghost fits = { λ a. IsAnswerInRange a.2 };

    ghost grammar = { IsAnswerItem };

    fn push(&self, alloc: Global, out: &mut Writer) -> Result<(), Memory> {
        let (client, number, answer) = self;
        push_client(out, client)?;
        out.u64(*number)?;
        push_answer(alloc, out, answer)?;
        Ok(())
    }
}

/// A message with its sender and its addressee.
#[derive(Drop)]
pub struct Frame<'a> {
    pub from: ReplicaId,
    pub to: ReplicaId,
    pub message: &'a PeerMsg,
}

impl Content for Frame<'_> {
    ghost content = { λ f. sent_content f.from (f.to, f.message.now) };

    ghost fits = { λ f. IsId f.from × (IsId f.to × IsInRange f.message.now) };

    ghost grammar = { λ f. IsSentItem f.from (f.to, f.message.now) };

    fn push(&self, alloc: Global, out: &mut Writer) -> Result<(), Memory> {
        let message = write_peer(alloc, self.message)?;
        out.u32(self.from)?;
        out.u32(self.to)?;
        push_block(out, message.as_slice())
    }
}

/// A refusal.
impl Content for Refusal {
    ghost content = { refused_content };

    ghost fits = { IsRefusalInRange };

    ghost grammar = { IsRefusal };

    fn push(&self, _alloc: Global, out: &mut Writer) -> Result<(), Memory> {
        let (code, first, second) = numbers(self);
        out.u8(code)?;
        out.u64(first)?;
        out.u64(second)?;
        Ok(())
    }
}

/// The code of a refusal and its two numbers, 0 where it has fewer.
fn numbers(refusal: &Refusal) -> (u8, u64, u64)
    requires { IsRefusalInRange refusal.now }
    ensures numbers { refusal_numbers refusal.now ≡ (result.0, (result.1, result.2)) }
    ensures grammar { IsRefusal refusal.now }
{
    match refusal {
        Refusal::NotLeader(known) => (codes::NOT_LEADER, u64::from(*known), 0),
        Refusal::ChangePending(newest, committed) => (codes::CHANGE_PENDING, *newest, *committed),
        Refusal::AlreadyVoter(id) => (codes::ALREADY_VOTER, u64::from(*id), 0),
        Refusal::NotVoter(id) => (codes::NOT_VOTER, u64::from(*id), 0),
        Refusal::TooFew(count) => (codes::TOO_FEW, u64::from(*count), 0),
        Refusal::TooMany(count) => (codes::TOO_MANY, u64::from(*count), 0),
        Refusal::NotCaughtUp(mark, committed) => (codes::NOT_CAUGHT_UP, *mark, *committed),
        Refusal::NoLink(id) => (codes::NO_LINK, u64::from(*id), 0),
        Refusal::LogFull(last) => (codes::LOG_FULL, *last, 0),
        Refusal::NoState(k) => (codes::NO_STATE, u64::from(*k), 0),
        Refusal::NotForMe(to) => (codes::NOT_FOR_ME, u64::from(*to), 0),
        Refusal::BadPeer(offset) => (codes::BAD_PEER, *offset, 0),
        Refusal::SameMargin(margin) => (codes::SAME_MARGIN, u64::from(*margin), 0),
    }
}
