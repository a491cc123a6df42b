//! The timer of a replica that holds a log has run out.
ghost use Rattle.std.specs.Prelude.{◌≡◌, ℕ, List, ◌≤◌, ◌++◌, All, OnOk};
ghost use Rattle.values.specs.declared.limits.TheConstants.{TOP};
ghost use Rattle.replica_model.specs.declared.Progress.{Progress};
ghost use Rattle.replica_core.specs.Sending.{parts_as, fallen_back, all_fallen_back};
ghost use Rattle.replica_log.specs.Window.{base_index};
ghost use Rattle.group_quorum.specs.Conf.{Conf};
ghost use Rattle.replica_core.specs.Standing.{SendingsAs, HoldsFor};
ghost use Rattle.replica_core.specs.Leads.{holder_leading};
ghost use Rattle.replica_model.specs.Linked.{sha_link};
ghost use Rattle.replica_model.specs.Replica as model;
ghost use Rattle.replica_model.specs.Call.{empty_batch};
ghost use Rattle.replica_model.specs.Ticks.{tick};
ghost use Rattle.replica_core.specs.Keeping.{IsSound, IsWithin};
ghost use Rattle.replica_core.specs.Calling.{Follows};
ghost use Rattle.replica_core.specs.Ranges.{IsStepBatch};
ghost use Rattle.replica_core.specs.InRange.{IsLeadingInRange, KeepsRange, ActsInRange};
ghost use Rattle.group_quorum.specs.Voters.{IsId};
ghost use Rattle.group_msgs.specs.Ranges.{IsIndex};

use crate::holder::{Holder, logs_are_the_models};
use crate::role::{Leading, Role};
use crate::send::Appends;
use replica_model::Progress;
use values::{Batch, Memory, PeerMsg, ReplicaId};

impl Holder {
    /// A leader sends the outstanding parts again, and appends to the other peers; a follower or a candidate stands for
    /// election.
    pub fn tick(&mut self, batch: &mut Batch) -> Result<Appends, Memory>
        requires sound { IsSound self.old }
        requires empty { batch.old ≡ empty_batch }
        ensures sound { OnOk result (IsSound self.new) }
        ensures model { Follows self.old self.new batch.new result (λ s. tick sha_link s s.role) }
        ensures in_range { ActsInRange self.old batch.old result self.new batch.new }
    {
        logs_are_the_models();
        if !self.leads() {
            return self.stand(batch);
        }
        let peers = self.peers()?;
        self.send_again(peers.as_slice(), batch)?;
        Ok(Appends::Everyone)
    }

    /// Sends the outstanding parts again to those of these peers to which tables are being sent; the others fall back.
    fn send_again(&mut self, peers: &[ReplicaId], batch: &mut Batch) -> Result<(), Memory>
        requires { IsSound self.old }
        ensures after { OnOk result (self.new ≡ holder_leading self.old (λ l. record l {
          progress = all_fallen_back (base_index self.old.log) l.sendings l.progress peers.now;
        })) }
        ensures model { (s : model.Replica) (m : model.Leading) → HoldsFor self.old s → s.role ≡ model.Leader m → OnOk result (batch.new ≡
            record batch.old { sent = batch.old.sent ++ parts_as s.limit s.first s.term m.sendings peers.now }) }
        ensures in_range { All IsId peers.now → KeepsRange self.old batch.old result self.new batch.new }
    {
        let base = self.log.base().index;
        match &mut self.role {
            Role::Leader(leading) => {
                leading.send_parts_again(self.ballot.term, peers, batch)?;
                leading.fall_back(base, peers)
            }
            _ => Ok(()),
        }
    }
}

impl Leading {
    /// Sends the outstanding parts again of the tables that are being sent to these peers.
    pub fn send_parts_again(
        &self,
        term: u64,
        peers: &[ReplicaId],
        batch: &mut Batch,
    ) -> Result<(), Memory>
        ensures model { (limit : ℕ) (first : Conf) (sendings : List (ℕ × model.Sending)) → SendingsAs limit first self.now.sendings sendings
            → OnOk result (batch.new ≡ record batch.old { sent = batch.old.sent ++ parts_as limit first term sendings peers.now }) }
        ensures in_range { All IsId peers.now → IsIndex term → IsLeadingInRange self.now → IsStepBatch batch.old → OnOk result (IsStepBatch batch.new) }
    {
        for peer in peers {
            let Some(sending) = self.sendings.get(*peer) else {
                continue;
            };
            let part = sending.part()?;
            batch.sent.push((*peer, PeerMsg::Part { term, part }))?;
        }
        Ok(())
    }

    /// The next entry of each of these peers goes back to what follows its mark, or the base where that is higher: what
    /// was sent since may be lost. A peer to which a table is being sent waits.
    fn fall_back(&mut self, base: u64, peers: &[ReplicaId]) -> Result<(), Memory>
        requires within { All (λ (p : ℕ × Progress). IsWithin TOP p.1) self.old.progress }
        requires base { base ≤ TOP }
        ensures { OnOk result (self.new ≡ record self.old { progress = all_fallen_back base self.old.sendings self.old.progress peers.now }) }
    {
        for peer in peers {
            if self.sendings.holds(*peer) {
                continue;
            }
            let progress = fallen_back(self.progress_of(*peer), base);
            self.progress.put(*peer, progress)?;
        }
        Ok(())
    }
}

/// The progress whose next entry is the one after the mark, or the base where that is higher. Of a peer that has accepted
/// nothing it stays.
fn fallen_back(progress: Progress, base: u64) -> Progress
    requires mark { progress.mark ≤ TOP }
    requires base { base ≤ TOP }
    ensures { result ≡ fallen_back base progress }
{
    if progress.mark == 0 {
        return progress;
    }
    Progress {
        next: progress.mark.max(base) + 1,
        mark: progress.mark,
        promised: progress.promised,
    }
}
