//! The end of a call: appends, a leader that stops, and the base.
ghost use Rattle.std.specs.Prelude.{◌≡◌, ◌+◌, ◌≤◌, ◌<◌, ◌++◌, OnOk, All};
ghost use Rattle.replica_log.specs.Window.{IsOrdered, last_index};
ghost use Rattle.replica_log.specs.Models.{OfEach};
ghost use Rattle.replica_core.specs.Leads.{can_append_at, after_sent};
ghost use Rattle.replica_core.specs.Calling.{SendsAppend};
ghost use Rattle.replica_model.specs.Linked.{sha_link};
ghost use Rattle.replica_model.specs.Replica as model;
ghost use Rattle.replica_model.specs.Call.{Call};
ghost use Rattle.replica_model.specs.Send.{send_append, send_appends, stepped_down, base_moved, concluded};
ghost use Rattle.replica_core.specs.Standing.{HoldsFor, LeadsAs};
ghost use Rattle.replica_core.specs.Keeping.{IsSound, progress_in};
ghost use Rattle.replica_core.specs.Calling.{Reaches, Does};
ghost use Rattle.group_quorum.specs.Voters.{IsId};
ghost use Rattle.group_msgs.specs.Ranges.{IsIndex, IsEntryInRange};
ghost use Rattle.replica_core.specs.Ranges.{IsStepBatch};
ghost use Rattle.replica_core.specs.InRange.{IsHolderInRange, KeepsRange, IsForId};

use crate::holder::{Holder, logs_are_the_models};
use crate::role::{Leading, Role};
use append_rules::make_append;
use replica_log::Log;
use replica_model::KEPT_BELOW;
use std::alloc::Global;
use values::{Batch, Memory, ReplicaId};

/// Who is to be sent an append at the end of a call.
#[derive(Clone, Copy, Debug, PartialEq, Eq)]
pub(crate) enum Appends {
    Nobody,
    One(ReplicaId),
    /// Each peer of the leader.
    Everyone,
}

impl Holder {
    /// Sends the appends of a call; then a leader may stop, and the base moves last of all.
    pub fn end_call(&mut self, appends: Appends, batch: &mut Batch) -> Result<(), Memory>
        requires { IsSound self.old }
        ensures sound { OnOk result (IsSound self.new) }
        ensures model { (c : Call) → Does self.old batch.old appends c
            → OnOk result (Reaches self.new batch.new (concluded (send_appends sha_link c c.appends))) }
        ensures in_range { IsForId appends → KeepsRange self.old batch.old result self.new batch.new }
    {
        self.send_all(appends, batch)?;
        self.step_down();
        self.move_base();
        Ok(())
    }

    /// Sends an append to each who is to be sent one.
    fn send_all(&mut self, appends: Appends, batch: &mut Batch) -> Result<(), Memory>
        requires { IsSound self.old }
        ensures sound { OnOk result (IsSound self.new) }
        ensures model { (c : Call) → Does self.old batch.old appends c
            → OnOk result (Reaches self.new batch.new (send_appends sha_link c c.appends)) }
        ensures in_range { IsForId appends → KeepsRange self.old batch.old result self.new batch.new }
    {
        logs_are_the_models();
        match appends {
            Appends::Nobody => Ok(()),
            Appends::One(peer) => self.send_appends(&[peer], batch),
            Appends::Everyone => {
                let peers = self.peers()?;
                self.send_appends(peers.as_slice(), batch)
            }
        }
    }

    /// Sends each of these peers an append, in their order.
    fn send_appends(&mut self, peers: &[ReplicaId], batch: &mut Batch) -> Result<(), Memory>
        requires { IsSound self.old }
        ensures sound { OnOk result (IsSound self.new) }
        ensures model { (c : Call) → Reaches self.old batch.old c
            → OnOk result (Reaches self.new batch.new (send_appends sha_link c peers.now)) }
        ensures in_range { All IsId peers.now → KeepsRange self.old batch.old result self.new batch.new }
    {
        for peer in peers {
            self.send_append(*peer, batch)?;
        }
        Ok(())
    }

    /// Sends a peer the entries from its next one on. It is sent none while a table is being sent to it, nor where the
    /// hash before its next entry is kept no more.
    fn send_append(&mut self, peer: ReplicaId, batch: &mut Batch) -> Result<(), Memory>
        requires { IsSound self.old }
        ensures sound { OnOk result (IsSound self.new) }
        ensures model { (c : Call) → Reaches self.old batch.old c
            → OnOk result (Reaches self.new batch.new (send_append sha_link c c.state.role peer)) }
        ensures in_range { IsId peer → KeepsRange self.old batch.old result self.new batch.new }
    {
        match &mut self.role {
            Role::Leader(leading) => {
                leading.send_append(self.alloc, &self.log, self.ballot.term, peer, batch)
            }
            _ => Ok(()),
        }
    }

    /// A leader that is no voter of its newest configuration, once that is committed, follows nobody that it knows.
    fn step_down(&mut self)
        requires { IsSound self.old }
        ensures sound { IsSound self.new }
        ensures model { (s : model.Replica) → HoldsFor self.old s → HoldsFor self.new (stepped_down s s.role) }
        ensures in_range { IsHolderInRange self.old → IsHolderInRange self.new }
    {
        logs_are_the_models();
        if !self.leads() {
            return;
        }
        let configs = self.configs();
        if !configs.newest.holds(self.me) && configs.newest_index <= self.log.committed() {
            self.follow(0);
        }
    }

    /// Moves the base after the committed index, behind which some entries stay.
    fn move_base(&mut self)
        requires { IsSound self.old }
        ensures sound { IsSound self.new }
        ensures model { (s : model.Replica) → HoldsFor self.old s → HoldsFor self.new (base_moved s) }
        ensures in_range { IsHolderInRange self.old → IsHolderInRange self.new }
    {
        let committed = self.log.committed();
        self.log.drop_below(committed.saturating_sub(KEPT_BELOW));
    }
}

impl Leading {
    /// Sends a peer an append of this log in this term.
    fn send_append(
        &mut self,
        alloc: Global,
        log: &Log,
        term: u64,
        peer: ReplicaId,
        batch: &mut Batch,
    ) -> Result<(), Memory>
        requires next { (progress_in self.old.progress peer).next ≤ last_index log.now + 1 }
        ensures after { OnOk result (self.new ≡ after_sent self.old log.now peer) }
        ensures model { OfEach sha_link log.now (λ s. (m : model.Leading) → s.term ≡ term → LeadsAs s.limit s.first self.old m
            → OnOk result (SendsAppend s m peer self.new batch.old batch.new)) }
        ensures in_range { IsId peer → IsIndex term → All IsEntryInRange log.now.entries → IsStepBatch batch.old
            → OnOk result (IsStepBatch batch.new) }
    {
        logs_are_the_models();
        if !self.can_append(log, peer) {
            return Ok(());
        }
        let mut progress = self.progress_of(peer);
        let Some(append) = make_append(alloc, log, &mut progress, term)? else {
            unreachable!()
        };
        self.progress.put(peer, progress)?;
        batch.sent.push((peer, append))?;
        Ok(())
    }

    /// Whether a peer can be sent an append: no table is being sent to it, and the hash before its next entry is kept.
    fn can_append(&self, log: &Log, peer: ReplicaId) -> bool
        ensures answer { result ≡ can_append_at self.now log.now peer }
        ensures ordered { IsOrdered log.now }
    {
        let base = log.base().index;
        !self.sendings.holds(peer) && self.progress_of(peer).next > base
    }
}
