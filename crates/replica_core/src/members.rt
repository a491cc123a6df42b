//! Changes of the members, at a leader.
ghost use Rattle.std.specs.Prelude.{◌≡◌, ◌≤◌, ◌<◌, take, true, OnOk, IfOk, Some};
ghost use Rattle.values.specs.declared.batch.Refusal.TheVariants.{NotLeader};
ghost use Rattle.values.specs.declared.limits.TheConstants.{TOP};
ghost use Rattle.group_quorum.specs.Voters.{IsId};
ghost use Rattle.replica_model.specs.Linked.{sha_link};
ghost use Rattle.replica_model.specs.Replica as model;
ghost use Rattle.replica_model.specs.Call.{empty_batch};
ghost use Rattle.replica_model.specs.Changes as changes;
ghost use Rattle.replica_model.specs.Peers.{others};
ghost use Rattle.replica_log.specs.Window.{last_index};
ghost use Rattle.replica_core.specs.InRange.{IsSendingInRange, IsHolderInRange, ActsInRange};
ghost use Rattle.replica_core.specs.Leads.{holder_leading, with_learner, learner_mark_in};
ghost use Rattle.replica_core.specs.Keeping.{IsSound, leads_now};
ghost use Rattle.member_rules.specs.Refusals.{refusal_of};
ghost use Rattle.replica_core.specs.Standing.{HoldsFor, SendsAs};
ghost use Rattle.replica_core.specs.Calling.{Follows, Does};

use crate::holder::{Holder, logs_are_the_models};
use crate::role::Role;
use crate::send::Appends;
use group_quorum::Config;
use member_rules::{MemberFault, admit, join, remove, set_margin};
use replica_model::Progress;
use table_transfer::{Sending, voters_of};
use values::{Batch, Body, Memory, PeerMsg, Point, Refusal, ReplicaId};

impl Holder {
    /// Takes a replica as a learner, and begins to send it the table at the committed index.
    pub fn join(
        &mut self,
        id: ReplicaId,
        linked: bool,
        batch: &mut Batch,
    ) -> Result<Appends, Memory>
        requires sound { IsSound self.old }
        requires empty { batch.old ≡ empty_batch }
        ensures sound { OnOk result (IsSound self.new) }
        ensures model { Follows self.old self.new batch.new result (λ s.
            changes.at_leader s s.role (λ l. changes.join sha_link s l id linked)) }
        ensures in_range { IsId id → ActsInRange self.old batch.old result self.new batch.new }
    {
        let Role::Leader(leading) = &self.role else {
            return Ok(self.refuse_as_follower(batch));
        };
        if let Err(fault) = join(&self.log, id, linked, leading.learners.len() as u32) {
            return Ok(refuse(fault, batch));
        }
        let sending = self.begin_sending()?;
        let part = sending.part()?;
        let next = self.log.committed() + 1;
        self.take_learner(id, next, sending)?;
        let term = self.ballot.term;
        batch.sent.push((id, PeerMsg::Part { term, part }))?;
        Ok(Appends::Nobody)
    }

    /// The table at the committed index, to be sent from its first part on.
    fn begin_sending(&self) -> Result<Sending, Memory>
        ensures model { (s : model.Replica) → HoldsFor self.now s
            → IfOk result (λ kept. SendsAs s.limit s.first kept (record { path = take s.committed s.path; part = 0 })) }
        ensures committed { IfOk result (λ kept. kept.point.index ≡ self.now.log.committed) }
        ensures in_range { IsHolderInRange self.now → IfOk result IsSendingInRange }
    {
        logs_are_the_models();
        let index = self.log.committed();
        let configs = self.log.configs_to(index);
        let (Some(hash), Some(last_term)) = (self.log.hash_at(index), self.log.term_at(index))
        else {
            unreachable!()
        };
        Ok(Sending::new(
            self.alloc,
            Point { index, hash },
            last_term,
            configs.newest,
            configs.newest_index,
            self.table.copy()?,
        ))
    }

    /// Makes a learner a voter.
    pub fn admit(&mut self, id: ReplicaId, batch: &mut Batch) -> Result<Appends, Memory>
        requires sound { IsSound self.old }
        requires id { IsId id }
        requires empty { batch.old ≡ empty_batch }
        ensures sound { OnOk result (IsSound self.new) }
        ensures model { Follows self.old self.new batch.new result (λ s.
            changes.at_leader s s.role (λ l. changes.admit s l id)) }
        ensures in_range { IsId id → ActsInRange self.old batch.old result self.new batch.new }
    {
        if !self.leads() {
            return Ok(self.refuse_as_follower(batch));
        }
        match admit(&self.log, id, self.learner_mark(id)) {
            Ok(config) => {
                self.drop_learner(id);
                self.push_members(&config, batch)
            }
            Err(fault) => Ok(refuse(fault, batch)),
        }
    }

    /// Takes a voter away.
    pub fn remove(&mut self, id: ReplicaId, batch: &mut Batch) -> Result<Appends, Memory>
        requires sound { IsSound self.old }
        requires empty { batch.old ≡ empty_batch }
        ensures sound { OnOk result (IsSound self.new) }
        ensures model { Follows self.old self.new batch.new result (λ s.
            changes.at_leader s s.role (λ l. changes.remove s l id)) }
        ensures in_range { IsId id → ActsInRange self.old batch.old result self.new batch.new }
    {
        if !self.leads() {
            return Ok(self.refuse_as_follower(batch));
        }
        match remove(&self.log, id) {
            Ok(config) => self.push_members(&config, batch),
            Err(fault) => Ok(refuse(fault, batch)),
        }
    }

    /// Changes the margin.
    pub fn set_margin(&mut self, margin: u8, batch: &mut Batch) -> Result<Appends, Memory>
        requires sound { IsSound self.old }
        requires margin { margin ≤ 15 }
        requires empty { batch.old ≡ empty_batch }
        ensures sound { OnOk result (IsSound self.new) }
        ensures model { Follows self.old self.new batch.new result (λ s.
            changes.at_leader s s.role (λ l. changes.set_margin s l margin)) }
        ensures in_range { ActsInRange self.old batch.old result self.new batch.new }
    {
        if !self.leads() {
            return Ok(self.refuse_as_follower(batch));
        }
        match set_margin(&self.log, margin) {
            Ok(config) => self.push_members(&config, batch),
            Err(fault) => Ok(refuse(fault, batch)),
        }
    }

    /// Pushes a configuration; then it raises, and sends to every peer.
    fn push_members(&mut self, config: &Config, batch: &mut Batch) -> Result<Appends, Memory>
        requires sound { IsSound self.old }
        requires leads { leads_now self.old.role ≡ true }
        requires room { last_index self.old.log < TOP }
        requires empty { batch.old ≡ empty_batch }
        ensures sound { OnOk result (IsSound self.new) }
        ensures model { (s : model.Replica) (l : model.Leading) → HoldsFor self.old (record s { role = model.Leader l })
            → IfOk result (λ to. Does self.new batch.new to (changes.push_members s l config.now)) }
        ensures in_range { ActsInRange self.old batch.old result self.new batch.new }
    {
        logs_are_the_models();
        // what holds of every configuration
        let _ = config.voters();
        let index = self.last() + 1;
        let margin = config.margin();
        batch
            .members
            .push((index, margin, voters_of(self.alloc, config)?))?;
        self.push(Body::Members {
            margin,
            voters: voters_of(self.alloc, config)?,
        })?;
        self.raise(batch)?;
        Ok(Appends::Everyone)
    }

    /// Takes a learner anew: nothing is known of it, and this table is sent to it.
    fn take_learner(&mut self, id: ReplicaId, next: u64, sending: Sending) -> Result<(), Memory>
        ensures { OnOk result (self.new ≡ holder_leading self.old (λ l. with_learner l id next sending)) }
    {
        let progress = Progress {
            next,
            mark: 0,
            promised: 0,
        };
        match &mut self.role {
            Role::Leader(leading) => {
                leading.progress.put(id, progress)?;
                leading.learners.insert(id)?;
                leading.sendings.put(id, sending)
            }
            _ => Ok(()),
        }
    }

    /// The mark of a learner; of any other id it is 0.
    fn learner_mark(&self, id: ReplicaId) -> u64
        ensures { result ≡ learner_mark_in self.now.role id }
    {
        match &self.role {
            Role::Leader(leading) if leading.learners.contains(id) => leading.progress_of(id).mark,
            _ => 0,
        }
    }

    /// An id is no learner any more.
    fn drop_learner(&mut self, id: ReplicaId)
        ensures { self.new ≡ holder_leading self.old (λ l. record l { learners = others id l.learners }) }
    {
        if let Role::Leader(leading) = &mut self.role {
            leading.learners.remove(id);
        }
    }

    /// A replica that does not lead refuses, with the leader that it knows.
    fn refuse_as_follower(&self, batch: &mut Batch) -> Appends
        ensures batch { batch.new ≡ record batch.old { refused = Some (NotLeader self.now.known) } }
        ensures nobody { result ≡ Appends.Nobody }
    {
        batch.refused = Some(Refusal::NotLeader(self.known));
        Appends::Nobody
    }
}

/// Refuses a change of the members.
fn refuse(fault: MemberFault, batch: &mut Batch) -> Appends
    ensures batch { batch.new ≡ record batch.old { refused = Some (refusal_of fault) } }
    ensures nobody { result ≡ Appends.Nobody }
{
    batch.refused = Some(fault.into());
    Appends::Nobody
}
