//! The promised and the committed index: to where they rise, and what comes of it.
ghost use Rattle.std.specs.Prelude.{◌≡◌, ◌≤◌, ◌<◌, ◌++◌, IfOk, OnOk, IfSome};
ghost use Rattle.values.specs.declared.limits.TheConstants.{TOP};
ghost use Rattle.group_msgs.specs.Ranges.{IsIndex};
ghost use Rattle.record_rules.specs.Places.{apply_place};
ghost use Rattle.replica_model.specs.Folds.{place_of};
ghost use Rattle.replica_model.specs.Replica as model;
ghost use Rattle.replica_model.specs.Call.{Call};
ghost use Rattle.replica_model.specs.Raise.{raise};
ghost use Rattle.replica_log.specs.Window.{IsOrdered, base_index, last_index, entry_at};
ghost use Rattle.replica_core.specs.Keeping.{IsSound};
ghost use Rattle.replica_core.specs.Applying.{reply_in, rest_of, answers_at, applied_one, before_applied, holder_applied, batch_applied, applied_from};
ghost use Rattle.replica_core.specs.Calling.{Reaches};
ghost use Rattle.replica_core.specs.InRange.{KeepsRange};
ghost use Rattle.group_msgs.specs.Batches.{IsReplyInRange};
ghost use Rattle.replica_core.specs.Ranges.{IsStepBatch};

use crate::holder::{Holder, logs_are_the_models};
use crate::role::{Mark, Role};
use client_msgs::{RequestFault, read_request};
use promise_rules::{raise_commit, raise_promise};
use record_table::Table;
use std::alloc::Global;
use values::{Answer, Batch, Body, LogEntry, Memory, Reply, TryCopy};

impl Holder {
    /// Raises the promised index of a leader by what its peers have accepted, and then the committed index by what they
    /// have promised.
    pub fn raise(&mut self, batch: &mut Batch) -> Result<(), Memory>
        requires { IsSound self.old }
        ensures sound { OnOk result (IsSound self.new) }
        ensures model { (c : Call) (l : model.Leading) → Reaches self.old batch.old c → c.state.role ≡ model.Leader l
            → OnOk result (Reaches self.new batch.new (raise c l)) }
        ensures in_range { KeepsRange self.old batch.old result self.new batch.new }
    {
        logs_are_the_models();
        let Role::Leader(leading) = &self.role else {
            return Ok(());
        };
        let last = self.log.last().index;
        let mut marks = Vec::with_capacity(self.alloc, leading.progress.as_slice().len() + 1)?;
        leading.put_marks(&mut marks, Mark::Accepted, self.me, last)?;
        raise_promise(&mut self.log, self.ballot.term, marks.as_slice());
        let promised = self.log.promised();
        leading.put_marks(&mut marks, Mark::Promised, self.me, promised)?;
        let had = self.log.committed();
        raise_commit(&mut self.log, marks.as_slice());
        self.apply_committed(had, batch)
    }

    /// Applies the entries above an index, up to the committed one, to the table, tells them, and answers those that
    /// have a ticket.
    pub fn apply_committed(&mut self, had: u64, batch: &mut Batch) -> Result<(), Memory>
        requires base { base_index self.old.log ≤ had }
        requires had { had ≤ self.old.log.committed }
        ensures ordered { IsOrdered self.old.log }
        ensures after { OnOk result (self.new ≡ holder_applied self.old (applied_from self.old batch.old had)) }
        ensures batch { OnOk result (batch.new ≡ batch_applied batch.old (applied_from self.old batch.old had)) }
        ensures in_range { KeepsRange self.old batch.old result self.new batch.new }
    {
        for index in had..self.log.committed() {
            self.apply_entry(index + 1, batch)?;
        }
        Ok(())
    }

    /// Applies the entry at an index.
    fn apply_entry(&mut self, index: u64, batch: &mut Batch) -> Result<(), Memory>
        requires base { base_index self.old.log < index }
        requires last { index ≤ last_index self.old.log }
        requires top { index ≤ TOP }
        ensures after { OnOk result (IfSome (entry_at self.old.log index)
            (λ e. self.new ≡ holder_applied self.old (applied_one (before_applied self.old batch.old) (index, e)))) }
        ensures batch { OnOk result (IfSome (entry_at self.old.log index)
            (λ e. batch.new ≡ batch_applied batch.old (applied_one (before_applied self.old batch.old) (index, e)))) }
        ensures in_range { KeepsRange self.old batch.old result self.new batch.new }
    {
        let Some(entry) = self.log.entry_at(index) else {
            unreachable!()
        };
        batch.commits.push((index, entry.copy(self.alloc)?))?;
        let reply = apply_body(self.alloc, &mut self.table, &entry.body)?;
        self.answer_due(index, reply, batch)
    }

    /// Answers the ticket of an index, if there is one, with the reply to its request.
    fn answer_due(
        &mut self,
        index: u64,
        reply: Option<Reply>,
        batch: &mut Batch,
    ) -> Result<(), Memory>
        ensures after { OnOk result (self.new ≡ record self.old { tickets = rest_of self.old.tickets index }) }
        ensures batch { OnOk result (batch.new ≡ record batch.old { answers = batch.old.answers ++ answers_at self.old.tickets index reply }) }
        ensures in_range { IsIndex index → IfSome reply IsReplyInRange → IsStepBatch batch.old → OnOk result (IsStepBatch batch.new) }
    {
        let due = self.tickets.take_due(index);
        if let (Some(ticket), Some(reply)) = (due, reply) {
            let answer = Answer::Outcome(index, reply);
            batch.answers.push((ticket.client, ticket.number, answer))?;
        }
        Ok(())
    }
}

/// Applies the body of an entry to the table, and gives the reply to a request.
fn apply_body(alloc: Global, table: &mut Table, body: &Body) -> Result<Option<Reply>, Memory>
    ensures table { OnOk result (table.new ≡ apply_place table.old (place_of body.now)) }
    ensures reply { IfOk result (λ reply. reply ≡ reply_in table.old body.now) }
    ensures in_range { IfOk result (λ reply. IfSome reply IsReplyInRange) }
{
    let Body::Ask {
        client,
        number,
        request,
    } = body
    else {
        return Ok(None);
    };
    // what holds of every table bounds its replies
    let _ = table.count();
    match read_request(alloc, request.as_slice()) {
        Ok(request) => Ok(Some(table.apply_owned(client, *number, request)?)),
        Err(RequestFault::Memory) => Err(Memory),
        Err(_) => Ok(None),
    }
}
