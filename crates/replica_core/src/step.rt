//! One call of a replica that holds a log.
ghost use Rattle.std.specs.Prelude.{◌≡◌, ◌≤◌, OnOk, IfOk};
ghost use Rattle.values.specs.declared.limits.TheConstants.{TOP};
ghost use Rattle.replica_model.specs.Term.{higher_term};
ghost use Rattle.values.specs.Terms.{term_of};
ghost use Rattle.replica_model.specs.Linked.{sha_link};
ghost use Rattle.replica_model.specs.Replica as model;
ghost use Rattle.replica_model.specs.Call as model_call;
ghost use Rattle.replica_model.specs.Call.{empty_batch};
ghost use Rattle.replica_model.specs.Step.{hears, hears_older, holder_hears, acts, acts_on, acts_halted, step};
ghost use Rattle.group_quorum.specs.Voters.{IsId};
ghost use Rattle.group_msgs.specs.Ranges.{IsInRange};
ghost use Rattle.replica_core.specs.Standing.{HoldsFor};
ghost use Rattle.replica_core.specs.Inputs.{IsInput, IsInputInRange};
ghost use Rattle.replica_core.specs.Keeping.{IsSound};
ghost use Rattle.replica_core.specs.Calling.{Follows, Does};
ghost use Rattle.replica_core.specs.InRange.{IsHolderInRange, KeepsRange, ActsInRange};

use crate::appends::Offer;
use crate::clients::Ask;
use crate::holder::Holder;
use crate::input::Input;
use crate::role::Role;
use crate::send::Appends;
use values::{Batch, Memory, PeerMsg, Refusal, ReplicaId};
use vote_rules::{Ballot, LastEntry};

impl Holder {
    /// Takes a step. Where the replica halts in it, nothing comes after that.
    pub fn step(&mut self, input: &Input<'_>, batch: &mut Batch) -> Result<(), Memory>
        requires sound { IsSound self.old }
        requires range { IsInputInRange input.now }
        requires empty { batch.old ≡ empty_batch }
        ensures sound { OnOk result (IsSound self.new) }
        ensures model { (s : model.Replica) (i : model_call.Input) → HoldsFor self.old s → IsInput s input.now i
            → OnOk result (HoldsFor self.new (step sha_link s i).state × (batch.new ≡ (step sha_link s i).batch)) }
        ensures in_range { KeepsRange self.old batch.old result self.new batch.new }
    {
        let appends = self.answer(input, batch)?;
        if self.halted.is_none() {
            self.end_call(appends, batch)?;
        }
        Ok(())
    }

    /// What it does before the end of the call.
    fn answer(&mut self, input: &Input<'_>, batch: &mut Batch) -> Result<Appends, Memory>
        requires sound { IsSound self.old }
        requires range { IsInputInRange input.now }
        requires empty { batch.old ≡ empty_batch }
        ensures sound { OnOk result (IsSound self.new) }
        ensures model { (s : model.Replica) (i : model_call.Input) → HoldsFor self.old s → IsInput s input.now i
            → IfOk result (λ to. Does self.new batch.new to (acts sha_link s s.halted i)) }
        ensures in_range { ActsInRange self.old batch.old result self.new batch.new }
    {
        if self.halted.is_some() {
            self.act_halted(input, batch)
        } else {
            self.act(input, batch)
        }
    }

    /// What it does that has not halted.
    fn act(&mut self, input: &Input<'_>, batch: &mut Batch) -> Result<Appends, Memory>
        requires sound { IsSound self.old }
        requires range { IsInputInRange input.now }
        requires empty { batch.old ≡ empty_batch }
        ensures sound { OnOk result (IsSound self.new) }
        ensures model { (s : model.Replica) (i : model_call.Input) → HoldsFor self.old s → IsInput s input.now i
            → IfOk result (λ to. Does self.new batch.new to (acts_on sha_link s i)) }
        ensures in_range { ActsInRange self.old batch.old result self.new batch.new }
    {
        match input {
            Input::Tick => self.tick(batch),
            Input::Peer { from, msg } => self.peer_heard(*from, msg, batch),
            Input::Client {
                client,
                number,
                request,
            } => self.client_request(
                Ask {
                    client: *client,
                    number: *number,
                    request,
                },
                batch,
            ),
            Input::Join { id, linked } => self.join(*id, *linked, batch),
            Input::Admit { id } => self.admit(*id, batch),
            Input::Remove { id } => self.remove(*id, batch),
            Input::Margin { margin } => self.set_margin(*margin, batch),
        }
    }

    /// Halted, it answers clients, refuses changes, and does nothing else.
    fn act_halted(&mut self, input: &Input<'_>, batch: &mut Batch) -> Result<Appends, Memory>
        requires sound { IsSound self.old }
        requires empty { batch.old ≡ empty_batch }
        ensures sound { OnOk result (IsSound self.new) }
        ensures model { (s : model.Replica) (i : model_call.Input) → HoldsFor self.old s → IsInput s input.now i
            → IfOk result (λ to. Does self.new batch.new to (acts_halted s i)) }
        ensures in_range { ActsInRange self.old batch.old result self.new batch.new }
    {
        match input {
            Input::Tick | Input::Peer { .. } => {}
            Input::Client {
                client,
                number,
                request,
            } => {
                let ask = Ask {
                    client: *client,
                    number: *number,
                    request,
                };
                return self.client_request(ask, batch);
            }
            Input::Join { .. }
            | Input::Admit { .. }
            | Input::Remove { .. }
            | Input::Margin { .. } => {
                batch.refused = Some(Refusal::NotLeader(0));
            }
        }
        Ok(Appends::Nobody)
    }

    /// Hears a message: a higher term comes first, then the message's own rule.
    fn peer_heard(
        &mut self,
        from: ReplicaId,
        msg: &PeerMsg,
        batch: &mut Batch,
    ) -> Result<Appends, Memory>
        requires sound { IsSound self.old }
        requires range { IsInRange msg.now }
        requires empty { batch.old ≡ empty_batch }
        ensures sound { OnOk result (IsSound self.new) }
        ensures model { Follows self.old self.new batch.new result (λ s. holder_hears sha_link s from msg.now) }
        ensures in_range { IsId from → ActsInRange self.old batch.old result self.new batch.new }
    {
        let term = term_of(msg);
        if term < self.ballot.term {
            return self.hear_older(from, msg, batch);
        }
        self.take_term(term);
        self.hear(from, msg, batch)
    }

    /// Takes a higher term, without a vote and a known leader, and follows.
    fn take_term(&mut self, term: u64)
        requires sound { IsSound self.old }
        requires top { term ≤ TOP }
        ensures sound { IsSound self.new }
        ensures model { (s : model.Replica) → HoldsFor self.old s → HoldsFor self.new (higher_term s term) }
        ensures in_range { IsHolderInRange self.old → IsHolderInRange self.new }
    {
        if term > self.ballot.term {
            self.ballot = Ballot { term, vote: 0 };
            self.follow(0);
        }
    }

    /// Hears a message of its own term.
    fn hear(&mut self, from: ReplicaId, msg: &PeerMsg, batch: &mut Batch) -> Result<Appends, Memory>
        requires sound { IsSound self.old }
        requires range { IsInRange msg.now }
        requires empty { batch.old ≡ empty_batch }
        ensures sound { OnOk result (IsSound self.new) }
        ensures model { Follows self.old self.new batch.new result (λ s. hears sha_link s from msg.now) }
        ensures in_range { IsId from → ActsInRange self.old batch.old result self.new batch.new }
    {
        match msg {
            PeerMsg::AskVote {
                last_index,
                last_term,
                ..
            } => {
                let asked = LastEntry {
                    index: *last_index,
                    term: *last_term,
                };
                self.vote_asked(from, asked, batch)
            }
            PeerMsg::Vote { granted, .. } => self.vote_heard(from, *granted, batch),
            PeerMsg::Append {
                prev,
                entries,
                promise,
                commit,
                ..
            } => {
                let offer = Offer {
                    prev: *prev,
                    entries,
                    promise: *promise,
                    commit: *commit,
                };
                self.append_heard(from, offer, batch)
            }
            PeerMsg::Accepted { end, promised, .. } => self.accepted_heard(
                from, *end, *promised, batch,
            ),
            PeerMsg::Rejected { hint, .. } => self.rejected_heard(from, *hint, batch),
            PeerMsg::Part { part, .. } => self.part_heard(from, part, batch),
            PeerMsg::PartTaken { point, next, .. } => self.part_taken(from, point, *next, batch),
        }
    }

    /// Hears a message of an older term. What was taken of a table counts in any term.
    fn hear_older(
        &mut self,
        from: ReplicaId,
        msg: &PeerMsg,
        batch: &mut Batch,
    ) -> Result<Appends, Memory>
        requires sound { IsSound self.old }
        requires range { IsInRange msg.now }
        requires empty { batch.old ≡ empty_batch }
        ensures sound { OnOk result (IsSound self.new) }
        ensures model { Follows self.old self.new batch.new result (λ s. hears_older sha_link s from msg.now) }
        ensures in_range { IsId from → ActsInRange self.old batch.old result self.new batch.new }
    {
        match msg {
            PeerMsg::AskVote { .. } => {
                let term = self.ballot.term;
                let vote = PeerMsg::Vote {
                    term,
                    granted: false,
                };
                batch.sent.push((from, vote))?;
                Ok(Appends::Nobody)
            }
            PeerMsg::Append { prev, .. } => self.stale_append(from, prev.index, batch),
            PeerMsg::Part { part, .. } => self.stale_append(from, part.point.index, batch),
            PeerMsg::PartTaken { point, next, .. } => self.part_taken(from, point, *next, batch),
            PeerMsg::Vote { .. } | PeerMsg::Accepted { .. } | PeerMsg::Rejected { .. } => Ok(
                Appends::Nobody,
            ),
        }
    }
}

/// The term that a message carries.
fn term_of(msg: &PeerMsg) -> u64
    ensures { result ≡ term_of msg.now }
{
    let (PeerMsg::AskVote { term, .. }
    | PeerMsg::Vote { term, .. }
    | PeerMsg::Append { term, .. }
    | PeerMsg::Accepted { term, .. }
    | PeerMsg::Rejected { term, .. }
    | PeerMsg::Part { term, .. }
    | PeerMsg::PartTaken { term, .. }) = msg;
    *term
}
