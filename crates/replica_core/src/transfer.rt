//! The transfer of a table, where a log is held.
ghost use Rattle.std.specs.Prelude.{◌≡◌, ◌≤◌, ◌++◌, ◌∷◌, [], OnOk};
ghost use Rattle.values.specs.declared.limits.TheConstants.{TOP};
ghost use Rattle.group_quorum.specs.Voters.{IsId};
ghost use Rattle.replica_core.specs.InRange.{KeepsRange, ActsInRange};
ghost use Rattle.replica_core.specs.Heard.{taken_heard_by, after_taken};
ghost use Rattle.replica_core.specs.Leads.{holder_leading, with_progress_in, without_sending};
ghost use Rattle.replica_core.specs.Sending.{parts_as};
ghost use Rattle.replica_core.specs.Standing.{HoldsFor};
ghost use Rattle.values.specs.declared.peer.TablePart.{TablePart};
ghost use Rattle.group_msgs.specs.Ranges.{IsIndex};
ghost use Rattle.replica_model.specs.Linked.{sha_link};
ghost use Rattle.replica_model.specs.Replica as model;
ghost use Rattle.replica_model.specs.Call.{empty_batch};
ghost use Rattle.replica_model.specs.Tables.{part_heard, part_taken};
ghost use Rattle.replica_core.specs.Keeping.{IsSound, progress_in};
ghost use Rattle.replica_core.specs.Calling.{Follows};

use crate::holder::Holder;
use crate::role::Role;
use crate::send::Appends;
use table_transfer::Sent;
use values::{Batch, Memory, PeerMsg, Point, ReplicaId, TablePart};

impl Holder {
    /// Hears a part of its own term: it takes nothing, and answers whether its log has the table's point.
    pub fn part_heard(
        &mut self,
        from: ReplicaId,
        part: &TablePart,
        batch: &mut Batch,
    ) -> Result<Appends, Memory>
        requires sound { IsSound self.old }
        requires top { part.now.point.index ≤ TOP }
        requires empty { batch.old ≡ empty_batch }
        ensures same { self.new ≡ self.old }
        ensures model { Follows self.old self.new batch.new result (λ s. part_heard sha_link s from part.now) }
        ensures in_range { IsId from → ActsInRange self.old batch.old result self.new batch.new }
    {
        let term = self.ballot.term;
        let asked = part.point.index;
        let reply = if self.log.matches(part.point) {
            PeerMsg::PartTaken {
                term,
                point: part.point,
                next: part.parts,
            }
        } else if self.last() < asked {
            PeerMsg::Rejected {
                term,
                asked,
                hint: self.last(),
            }
        } else {
            PeerMsg::Rejected {
                term,
                asked,
                hint: self.log.promised(),
            }
        };
        batch.sent.push((from, reply))?;
        Ok(Appends::Nobody)
    }

    /// Hears that a learner has taken the parts of a table before a number.
    pub fn part_taken(
        &mut self,
        from: ReplicaId,
        point: &Point,
        next: u32,
        batch: &mut Batch,
    ) -> Result<Appends, Memory>
        requires sound { IsSound self.old }
        requires top { point.now.index ≤ TOP }
        requires empty { batch.old ≡ empty_batch }
        ensures sound { OnOk result (IsSound self.new) }
        ensures model { Follows self.old self.new batch.new result (λ s. part_taken sha_link s s.role from point.now next) }
        ensures in_range { IsId from → ActsInRange self.old batch.old result self.new batch.new }
    {
        match self.hear_taken(from, point, next) {
            Sent::Ignored => Ok(Appends::Nobody),
            Sent::Next => {
                self.send_part(from, batch)?;
                Ok(Appends::Nobody)
            }
            Sent::Done => {
                self.end_sending(from, point.index + 1)?;
                Ok(Appends::One(from))
            }
        }
    }

    /// Hears what a learner has taken of the table that is being sent to it.
    fn hear_taken(&mut self, from: ReplicaId, point: &Point, next: u32) -> Sent
        requires { IsSound self.old }
        ensures answer { result ≡ taken_heard_by self.old.role from point.now next }
        ensures after { self.new ≡ holder_leading self.old (λ l. after_taken l from point.now next) }
    {
        match &mut self.role {
            Role::Leader(leading) if leading.learners.contains(from) => {
                leading.sendings.hear(from, point, next)
            }
            _ => Sent::Ignored,
        }
    }

    /// Sends the outstanding part of the table that is being sent to a replica.
    fn send_part(&self, to: ReplicaId, batch: &mut Batch) -> Result<(), Memory>
        ensures model { (s : model.Replica) (m : model.Leading) → HoldsFor self.now s → s.role ≡ model.Leader m → OnOk result (batch.new ≡
            record batch.old { sent = batch.old.sent ++ parts_as s.limit s.first s.term m.sendings (to ∷ []) }) }
        ensures in_range { IsId to → IsIndex self.now.ballot.term → KeepsRange self.now batch.old result self.now batch.new }
    {
        match &self.role {
            Role::Leader(leading) => leading.send_parts_again(self.ballot.term, &[to], batch),
            _ => Ok(()),
        }
    }

    /// The table is sent no more to a replica, whose next entry is this one.
    fn end_sending(&mut self, to: ReplicaId, next: u64) -> Result<(), Memory>
        ensures { OnOk result (self.new ≡ holder_leading self.old (λ l.
            with_progress_in (without_sending l to) to (record (progress_in l.progress to) { next = next }))) }
    {
        match &mut self.role {
            Role::Leader(leading) => {
                leading.sendings.remove(to);
                let mut progress = leading.progress_of(to);
                progress.next = next;
                leading.progress.put(to, progress)
            }
            _ => Ok(()),
        }
    }
}
