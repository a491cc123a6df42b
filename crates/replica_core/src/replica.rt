//! A replica.
ghost use Rattle.std.specs.Prelude.{◌≡◌, ◌≤◌, ◌↔◌, None, Err, IfSome, IfOk, OnOk};
ghost use Rattle.group_quorum.specs.Voters.{IsId};
ghost use Rattle.values.specs.declared.limits.TheConstants.{MOST_ROWS};
ghost use Rattle.replica_model.specs.Linked.{sha_link};
ghost use Rattle.replica_model.specs.Replica as model;
ghost use Rattle.replica_model.specs.Call as model_call;
ghost use Rattle.replica_model.specs.Call.{empty_batch};
ghost use Rattle.replica_model.specs.Step.{step};
ghost use Rattle.replica_core.specs.Standing.{StandsFor, IsSpent, HoldsLog};
ghost use Rattle.replica_core.specs.declared.replica.State.TheVariants as kept;
ghost use Rattle.replica_core.specs.Inputs.{IsInput, IsInputInRange};
ghost use Rattle.group_msgs.specs.Batches.{IsBatchInRange};
ghost use Rattle.replica_core.specs.Ranges.{IsStepBatch};
ghost use Rattle.replica_core.specs.Keeping.{IsSoundState};
ghost use Rattle.replica_core.specs.Raised.{IsRaised};
ghost use Rattle.replica_core.specs.Due.{DueAreTold};
ghost use Rattle.replica_core.specs.InRange.{IsStateInRange};

use crate::holder::{Holder, logs_are_the_models};
use crate::input::{Input, StepFault};
use crate::learner::Learner;
use crate::role::Role;
use crate::tickets::Tickets;
use group_quorum::Config;
use record_table::Table;
use replica_log::Log;
use replica_model::steps_raise_to_the_greatest;
use std::alloc::Global;
use std::marker::Model;
use table_transfer::Taking;
use values::{Batch, Memory, ReplicaId};
use vote_rules::Ballot;

/// A replica of a group. It keeps the part of a model replica that its steps need: contracts see what it keeps, and say
/// of which model replicas that is a part.
#[derive(Debug, Drop)]
pub struct Replica {
    pub(crate) state: State,
}

/// What a replica keeps.
#[derive(Debug, Drop)]
pub(crate) enum State {
    /// It holds nothing yet.
    Learner(Learner),
    /// It holds a log.
    Holder(Holder),
    /// Memory ran out in a step, and the replica can no longer be used.
    Spent,
}

impl Model for Replica {
    ghost use Rattle.replica_core.specs.declared.replica.State.{State};

    ghost Value = { State };

    ghost use Rattle.replica_core.specs.Keeping.{IsSoundState};
    ghost use Rattle.replica_core.specs.InRange.{IsStateInRange};

    ghost view = { λ r. r.state };

    ghost invariant = { λ r. IsSoundState r.state × IsStateInRange r.state };
}

impl Replica {
    /// A voter of a group that begins with this configuration and this greatest number of rows.
    pub fn begin(alloc: Global, id: ReplicaId, config: Config, limit: u32) -> Replica
        requires id { IsId id }
        requires least { 1 ≤ limit }
        requires most { limit ≤ MOST_ROWS }
        ensures model { StandsFor result (model.begin id config limit) }
    {
        Replica {
            state: State::Holder(Holder {
                alloc,
                me: id,
                ballot: Ballot { term: 0, vote: 0 },
                known: 0,
                log: Log::first(alloc, config),
                table: Table::new(alloc, limit),
                role: Role::Follower,
                tickets: Tickets::new(alloc),
                halted: None,
            }),
        }
    }

    /// A learner that holds nothing yet.
    pub fn learner(alloc: Global, id: ReplicaId) -> Replica
        requires { IsId id }
        ensures model { StandsFor result (model.learner id) }
    {
        Replica {
            state: State::Learner(Learner {
                alloc,
                me: id,
                term: 0,
                taking: Taking::new(alloc),
            }),
        }
    }

    /// Takes one step: what the replica does with an input, and what it leaves for its host in an empty batch.
    ///
    /// `Spent` comes exactly where the replica was spent, and changes nothing. After `Memory` it is spent, and nothing of
    /// the batch counts.
    pub fn step(&mut self, input: &Input<'_>, batch: &mut Batch) -> Result<(), StepFault>
        requires range { IsInputInRange input.now }
        requires empty { batch.old ≡ empty_batch }
        ensures model { (s : model.Replica) (i : model_call.Input) → StandsFor self.old s → IsInput s input.now i
            → OnOk result (StandsFor self.new (step sha_link s i).state × (batch.new ≡ (step sha_link s i).batch)) }
        ensures greatest { (s : model.Replica) (i : model_call.Input) → StandsFor self.old s → IsInput s input.now i
            → OnOk result (IsRaised s (step sha_link s i) self.new batch.new) }
        ensures due { (s : model.Replica) (i : model_call.Input) → StandsFor self.old s → IsInput s input.now i
            → OnOk result (DueAreTold s i (step sha_link s i) batch.new) }
        ensures in_range { OnOk result (IsBatchInRange batch.new) }
        ensures unsaved { OnOk result (batch.new.saved ≡ None) }
        ensures holds { OnOk result (HoldsLog self.old → HoldsLog self.new) }
        ensures spent { (result ≡ Err StepFault.Spent) ↔ IsSpent self.old }
        ensures unchanged { result ≡ Err StepFault.Spent → (self.new ≡ self.old) × (batch.new ≡ batch.old) }
        ensures memory { result ≡ Err StepFault.Memory → IsSpent self.new }
        ensures goes_on { OnOk result (¬ (IsSpent self.new)) }
    {
        // what a call raises, and answers, rests on these laws
        steps_raise_to_the_greatest();
        logs_are_the_models();
        if let State::Spent = self.state {
            return Err(StepFault::Spent);
        }
        match self.state.step(input, batch) {
            Ok(()) => Ok(()),
            Err(Memory) => {
                spend(&mut self.state);
                Err(StepFault::Memory)
            }
        }
    }

    /// Its id, or `None` where it is spent.
    pub fn id(&self) -> Option<ReplicaId>
        ensures spent { (result ≡ None) ↔ IsSpent self.now }
        ensures model { (s : model.Replica) → StandsFor self.now s → IfSome result (λ id. id ≡ s.me) }
        ensures range { IfSome result IsId }
    {
        match &self.state {
            State::Learner(learner) => Some(learner.me),
            State::Holder(holder) => Some(holder.me),
            State::Spent => None,
        }
    }

    /// A copy of it.
    pub fn copy(&self) -> Result<Replica, Memory>
        ensures { IfOk result (λ replica. replica ≡ self.now) }
    {
        let state = match &self.state {
            State::Learner(learner) => State::Learner(learner.copy()?),
            State::Holder(holder) => State::Holder(holder.copy()?),
            State::Spent => State::Spent,
        };
        Ok(Replica { state })
    }
}

impl State {
    /// Takes a step of what is kept.
    fn step(&mut self, input: &Input<'_>, batch: &mut Batch) -> Result<(), Memory>
        requires sound { IsSoundState self.old }
        requires range { IsInputInRange input.now }
        requires empty { batch.old ≡ empty_batch }
        ensures sound { OnOk result (IsSoundState self.new) }
        ensures model { (s : model.Replica) (i : model_call.Input) → StandsFor self.old s → IsInput s input.now i
            → OnOk result (StandsFor self.new (step sha_link s i).state × (batch.new ≡ (step sha_link s i).batch)) }
        ensures in_range { IsStateInRange self.old → IsStepBatch batch.old
            → OnOk result (IsStateInRange self.new × IsStepBatch batch.new) }
        ensures goes_on { ¬ (IsSpent self.old) → OnOk result (¬ (IsSpent self.new)) }
        ensures holds { OnOk result (HoldsLog self.old → HoldsLog self.new) }
    {
        match self {
            State::Learner(_) => self.learn(input, batch),
            State::Holder(holder) => holder.step(input, batch),
            State::Spent => Ok(()),
        }
    }

    /// Takes a step of what holds no log, apart from that of a holder, which so takes no room for one that a learner becomes.
    #[inline(never)]
    fn learn(&mut self, input: &Input<'_>, batch: &mut Batch) -> Result<(), Memory>
        requires learns { ¬ (HoldsLog self.old) }
        requires sound { IsSoundState self.old }
        requires range { IsInputInRange input.now }
        requires empty { batch.old ≡ empty_batch }
        ensures sound { OnOk result (IsSoundState self.new) }
        ensures model { (s : model.Replica) (i : model_call.Input) → StandsFor self.old s → IsInput s input.now i
            → OnOk result (StandsFor self.new (step sha_link s i).state × (batch.new ≡ (step sha_link s i).batch)) }
        ensures in_range { IsStateInRange self.old → IsStepBatch batch.old
            → OnOk result (IsStateInRange self.new × IsStepBatch batch.new) }
        ensures goes_on { ¬ (IsSpent self.old) → OnOk result (¬ (IsSpent self.new)) }
    {
        if let State::Learner(learner) = self {
            if let Some(holder) = learner.step(input, batch)? {
                *self = State::Holder(holder);
            }
        }
        Ok(())
    }
}

/// Gives up what a spent replica kept, apart from a step that goes well, which so takes no room for it.
#[inline(never)]
fn spend(state: &mut State)
    ensures { state.new ≡ kept.Spent }
{
    *state = State::Spent;
}
