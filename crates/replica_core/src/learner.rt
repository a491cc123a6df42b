//! A learner that holds nothing yet.
ghost use Rattle.std.specs.Prelude.{◌≡◌, ◌≤◌, IfOk, OnOk, IfSome};
ghost use Rattle.values.specs.declared.limits.TheConstants.{TOP};
ghost use Rattle.values.specs.declared.peer.PeerMsg.TheVariants.{Part};
ghost use Rattle.client_msgs.specs.Reading.{request_of};
ghost use Rattle.group_quorum.specs.Voters.{IsId};
ghost use Rattle.group_msgs.specs.Ranges.{IsPartInRange};
ghost use Rattle.replica_model.specs.Linked.{sha_link};
ghost use Rattle.replica_model.specs.Replica as model;
ghost use Rattle.replica_model.specs.Call as model_call;
ghost use Rattle.replica_model.specs.Call.{empty_batch};
ghost use Rattle.replica_model.specs.Send.{with_sent};
ghost use Rattle.replica_model.specs.Step.{step, with_end};
ghost use Rattle.replica_model.specs.Tables.{IsTruePart, learner_hears};
ghost use Rattle.replica_log.specs.Models.{IsSummedUp, StandsFor as LogStandsFor};
ghost use Rattle.table_transfer.specs.Taken.{TakesPartsOf, GoesOn};
ghost use Rattle.replica_core.specs.Inputs.{IsInput, IsInputInRange};
ghost use Rattle.replica_core.specs.Keeping.{IsSound};
ghost use Rattle.replica_core.specs.Learning.{summary_in, holder_at, expecting, unled, LearnsOrHolds};
ghost use Rattle.replica_core.specs.Standing.{LearnsFor};
ghost use Rattle.replica_core.specs.Ranges.{IsStepBatch};
ghost use Rattle.replica_core.specs.InRange.{IsLearnerInRange, IsHolderInRange};

use crate::clients::{Ask, read_ask};
use crate::holder::Holder;
use crate::input::Input;
use crate::role::Role;
use crate::tickets::Tickets;
use group_quorum::Config;
use record_table::Table;
use replica_log::Log;
use std::alloc::Global;
use table_transfer::{TakePart, Taking};
use values::{Answer, Batch, Memory, PeerMsg, Point, Refusal, ReplicaId, TablePart};
use vote_rules::Ballot;

/// A learner that holds nothing: it takes the parts of a table, and nothing else.
#[derive(Debug, Drop)]
pub(crate) struct Learner {
    pub alloc: Global,
    pub me: ReplicaId,
    pub term: u64,
    pub taking: Taking,
}

impl Learner {
    /// Takes a step, and gives what holds a log where a table was taken whole.
    pub fn step(&mut self, input: &Input<'_>, batch: &mut Batch) -> Result<Option<Holder>, Memory>
        requires sound { self.old.term ≤ TOP }
        requires range { IsInputInRange input.now }
        requires empty { batch.old ≡ empty_batch }
        ensures sound { OnOk result (self.new.term ≤ TOP) }
        ensures holder { IfOk result (λ found. IfSome found IsSound) }
        ensures model { (s : model.Replica) (i : model_call.Input) → LearnsFor self.old s → IsInput s input.now i
            → IfOk result (λ found. LearnsOrHolds self.new found batch.new (step sha_link s i)) }
        ensures in_range { IsLearnerInRange self.old → IsStepBatch batch.old
            → IfOk result (λ found. IsLearnerInRange self.new × (IfSome found IsHolderInRange × IsStepBatch batch.new)) }
    {
        match input {
            Input::Tick => Ok(None),
            Input::Peer { from, msg } => match msg {
                PeerMsg::Part { term, part } => self.part_heard(*from, *term, part, batch),
                _ => Ok(None),
            },
            Input::Client {
                client,
                number,
                request,
            } => {
                let ask = Ask {
                    client: *client,
                    number: *number,
                    request,
                };
                self.ask_heard(ask, batch)?;
                Ok(None)
            }
            Input::Join { .. }
            | Input::Admit { .. }
            | Input::Remove { .. }
            | Input::Margin { .. } => {
                batch.refused = Some(Refusal::NotLeader(0));
                Ok(None)
            }
        }
    }

    /// A client asks: bytes that are no request are answered as everywhere, and a request that no leader is known.
    fn ask_heard(&self, ask: Ask<'_>, batch: &mut Batch) -> Result<(), Memory>
        ensures { OnOk result (batch.new ≡ unled batch.old ask.entry.client ask.entry.number (request_of ask.entry.request.now)) }
    {
        if read_ask(self.alloc, ask, batch)?.is_some() {
            batch
                .answers
                .push((ask.client, ask.number, Answer::NotLeader(0)))?;
        }
        Ok(())
    }

    /// Hears a part, of whatever term; it takes a higher one. It answers with the point and the number of the part that
    /// it expects then.
    fn part_heard(
        &mut self,
        from: ReplicaId,
        term: u64,
        part: &TablePart,
        batch: &mut Batch,
    ) -> Result<Option<Holder>, Memory>
        requires sound { self.old.term ≤ TOP }
        requires top { term ≤ TOP }
        requires range { IsPartInRange part.now }
        requires empty { batch.old ≡ empty_batch }
        ensures sound { OnOk result (self.new.term ≤ TOP) }
        ensures holder { IfOk result (λ found. IfSome found IsSound) }
        ensures model { (s : model.Replica) (taking : model.Taking) (names : model.Named)
            → s ≡ record (model.learner self.old.me) { term = self.old.term; role = model.Learner taking }
            → TakesPartsOf sha_link self.old.taking taking → IsTruePart sha_link part.now names → GoesOn sha_link taking part.now names
            → IfOk result (λ found. LearnsOrHolds self.new found batch.new
            (with_sent (with_end sha_link (learner_hears sha_link s taking from names (Part term part.now))))) }
        ensures in_range { IsId from → IsLearnerInRange self.old → IsStepBatch batch.old
            → IfOk result (λ found. IsLearnerInRange self.new × (IfSome found IsHolderInRange × IsStepBatch batch.new)) }
    {
        self.term = self.term.max(term);
        match self.taking.take_part(part)? {
            TakePart::Taken(next) => {
                self.expect(from, part.point, next, batch)?;
                Ok(None)
            }
            TakePart::Other { point, next } => {
                self.expect(from, point, next, batch)?;
                Ok(None)
            }
            TakePart::Whole(table) => {
                batch.taken = Some(part.point);
                self.expect(from, part.point, part.parts, batch)?;
                Ok(Some(self.with_table(from, part, table)))
            }
        }
    }

    /// Tells a replica the number of the part that it expects next of the table at a point.
    fn expect(
        &self,
        to: ReplicaId,
        point: Point,
        next: u32,
        batch: &mut Batch,
    ) -> Result<(), Memory>
        ensures { OnOk result (batch.new ≡ expecting batch.old to self.now.term point next) }
    {
        let taken = PeerMsg::PartTaken {
            term: self.term,
            point,
            next,
        };
        batch.sent.push((to, taken))?;
        Ok(())
    }

    /// With its table it follows the sender: its log begins at the table's point, all promised and committed.
    fn with_table(&self, from: ReplicaId, part: &TablePart, table: Table) -> Holder
        requires { IsPartInRange part.now }
        ensures holder { result ≡ holder_at self.now from part.now table }
        ensures log { (s : model.Replica) → IsSummedUp sha_link s (summary_in part.now) → LogStandsFor sha_link result.log s }
    {
        let Ok(config) = Config::new(part.voters.as_slice(), part.margin) else {
            unreachable!()
        };
        Holder {
            alloc: self.alloc,
            me: self.me,
            ballot: Ballot {
                term: self.term,
                vote: 0,
            },
            known: from,
            log: Log::at(
                self.alloc,
                part.point,
                part.last_term,
                config,
                part.conf_index,
            ),
            table,
            role: Role::Follower,
            tickets: Tickets::new(self.alloc),
            halted: None,
        }
    }
}
