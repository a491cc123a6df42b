//! The lines of a batch.
ghost use Rattle.std.specs.Prelude.{◌≡◌, ◌≤◌, ◌+◌, ◌++◌, ◌∷◌, OnOk, OnErr, map};
ghost use Rattle.std.specs.List.{enumerate_from};
ghost use Rattle.fixed_fields.specs.Written.{Puts};
ghost use Rattle.schedule_model.specs.Lines as spec;
ghost use Rattle.values.specs.declared.limits.TheConstants.{TOP as GREATEST};

use crate::field::Field::{Hex, Number};
use crate::field::small;
use crate::writer::TraceWriter;
use std::alloc::AllocError;
use std::mem;
use values::{
    AnswerList, Batch, CommitList, Event, Hash, MemberList, Memory, Point, Refusal, ReplicaId,
    SentList,
};

impl TraceWriter {
    /// The lines of the configurations that a replica took up.
    fn members(&mut self, replica: ReplicaId, members: &MemberList) -> Result<(), AllocError>
        ensures { Puts result self.old self.new (spec.lines_text (map (spec.members_line replica) members.now)) }
    {
        let items = members.as_slice();
        for (index, margin, voters) in items {
            let numbers = [u64::from(replica), *index, u64::from(*margin)];
            self.number_line("members", &numbers, voters.as_slice())?;
        }
        Ok(())
    }

    /// The lines of the entries that committed on a replica.
    fn commits(&mut self, replica: ReplicaId, commits: &CommitList) -> Result<(), AllocError>
        ensures { Puts result self.old self.new (spec.lines_text (map (spec.commit_line replica) commits.now)) }
    {
        let items = commits.as_slice();
        for (index, entry) in items {
            self.commit(replica, *index, entry)?;
        }
        Ok(())
    }

    /// The lines of a replica's answers, numbered from `first` on.
    fn answers(
        &mut self,
        replica: ReplicaId,
        first: u64,
        answers: &AnswerList,
    ) -> Result<(), Memory>
        requires { first ≤ GREATEST }
        ensures { Puts result self.old self.new (spec.lines_text (map (spec.answer_line replica) (enumerate_from first answers.now))) }
    {
        let items = answers.as_slice();
        for (place, (client, asked, what)) in items.iter().enumerate() {
            self.answer(replica, first + place as u64, client, *asked, what)?;
        }
        Ok(())
    }

    /// The lines of a replica's messages, numbered from `first` on.
    fn messages(
        &mut self,
        replica: ReplicaId,
        first: u64,
        sent: &SentList,
    ) -> Result<(), AllocError>
        requires { first ≤ GREATEST }
        ensures { Puts result self.old self.new (spec.lines_text (map (spec.sent_line replica) (enumerate_from first sent.now))) }
    {
        let items = sent.as_slice();
        for (place, (to, message)) in items.iter().enumerate() {
            self.sent(replica, first + place as u64, *to, message)?;
        }
        Ok(())
    }

    /// The line of the term in which a replica began to lead, where it did.
    fn lead(&mut self, replica: ReplicaId, lead: Option<u64>) -> Result<(), AllocError>
        ensures { Puts result self.old self.new (spec.lines_text (spec.item_line (spec.lead_line replica) lead)) }
    {
        match lead {
            Some(term) => self.number_line("lead", &[u64::from(replica), term], &[]),
            None => Ok(()),
        }
    }

    /// The line of where a replica halted, if it did.
    fn halt(
        &mut self,
        replica: ReplicaId,
        halt: &Option<(u64, Hash, Hash)>,
    ) -> Result<(), AllocError>
        ensures { Puts result self.old self.new (spec.lines_text (spec.item_line (spec.halt_line replica) halt.now)) }
    {
        match halt {
            Some((index, kept, offered)) => {
                let fields = [
                    small(replica),
                    Number(*index),
                    Hex(&kept.0),
                    Hex(&offered.0),
                ];
                self.line("halt", &fields)
            }
            None => Ok(()),
        }
    }

    /// The line of the table that a replica took over, if it did.
    fn taken(&mut self, replica: ReplicaId, taken: &Option<Point>) -> Result<(), AllocError>
        ensures { Puts result self.old self.new (spec.lines_text (spec.item_line (spec.taken_line replica) taken.now)) }
    {
        match taken {
            Some(point) => {
                let fields = [small(replica), Number(point.index), Hex(&point.hash.0)];
                self.line("taken", &fields)
            }
            None => Ok(()),
        }
    }

    /// The line of the state that was saved, where one was.
    fn saved(&mut self, replica: ReplicaId, saved: Option<u32>) -> Result<(), AllocError>
        ensures { Puts result self.old self.new (spec.lines_text (spec.item_line (spec.saved_line replica) saved)) }
    {
        match saved {
            Some(state) => self.number_line("saved", &[u64::from(replica), u64::from(state)], &[]),
            None => Ok(()),
        }
    }

    /// The line of why nothing was done, where nothing was.
    fn refusal(&mut self, refused: Option<Refusal>) -> Result<(), AllocError>
        ensures { Puts result self.old self.new (spec.lines_text (spec.item_line (λ refusal. spec.refused_line (spec.refusal_fields refusal)) refused)) }
    {
        match refused {
            Some(refusal) => self.refused(refusal),
            None => Ok(()),
        }
    }

    /// The lines of a replica's batch in its order. Its messages and its answers are numbered from these on.
    pub fn batch(
        &mut self,
        replica: ReplicaId,
        first_message: u64,
        first_answer: u64,
        batch: &Batch,
    ) -> Result<(), Memory>
        requires messages { first_message ≤ GREATEST }
        requires answers { first_answer ≤ GREATEST }
        ensures { Puts result self.old self.new (spec.lines_text (spec.batch_lines replica first_message first_answer batch.now)) }
    {
        self.lead(replica, batch.lead)?;
        self.members(replica, &batch.members)?;
        self.halt(replica, &batch.halt)?;
        self.taken(replica, &batch.taken)?;
        self.commits(replica, &batch.commits)?;
        self.answers(replica, first_answer, &batch.answers)?;
        self.messages(replica, first_message, &batch.sent)?;
        self.saved(replica, batch.saved)?;
        self.refusal(batch.refused)?;
        Ok(())
    }

    /// The lines of an event that a replica took: its own, and those of the batch.
    fn taken_event(
        &mut self,
        event: u64,
        what: &Event,
        batch: &Batch,
        first_message: u64,
        first_answer: u64,
        replica: ReplicaId,
    ) -> Result<(), Memory>
        requires messages { first_message ≤ GREATEST }
        requires answers { first_answer ≤ GREATEST }
        ensures { Puts result self.old self.new (spec.lines_text (spec.event_line event what.now ∷ spec.batch_lines replica first_message first_answer batch.now)) }
    {
        self.event(event, what)?;
        self.batch(replica, first_message, first_answer, batch)
    }
}

/// Appends the line of the event of this number, and the lines of the batch that the replica answered. The batch's messages
/// and answers are numbered over the run from these on. After `Memory` the text is as before.
pub fn trace_lines(
    event: u64,
    what: &Event,
    batch: &Batch,
    first_message: u64,
    first_answer: u64,
    replica: ReplicaId,
    out: &mut Vec<u8>,
) -> Result<(), Memory>
    requires messages { first_message ≤ GREATEST }
    requires answers { first_answer ≤ GREATEST }
    ensures ok { OnOk result (out.new.items ≡ out.old.items ++ spec.lines_text (spec.event_line event what.now ∷ spec.batch_lines replica first_message first_answer batch.now)) }
    ensures err { OnErr result (out.new.items ≡ out.old.items) }
{
    let alloc = *out.allocator();
    let mut lines = TraceWriter::behind(mem::replace(out, Vec::new(alloc)));
    let written = lines.taken_event(event, what, batch, first_message, first_answer, replica);
    *out = lines.finish(written.is_ok());
    written
}
