//! Appends and the replies to them.
ghost use Rattle.std.specs.Prelude.{◌≡◌, ◌≤◌, ◌<◌, ◌++◌, ◌&&◌, OnOk, IfOk, IfSome};
ghost use Rattle.values.specs.declared.limits.TheConstants.{TOP};
ghost use Rattle.append_rules.specs.Replies.{is_sent_anew};
ghost use Rattle.group_quorum.specs.Voters.{IsId};
ghost use Rattle.replica_core.specs.InRange.{ActsInRange};
ghost use Rattle.replica_core.specs.Leads.{holder_leading, lacks_entries_at, is_sent_anew_at, appends_after, after_accepted, after_rejected};
ghost use Rattle.replica_log.specs.Window.{base_index, last_index, entry_at, matches};
ghost use Rattle.replica_core.specs.Replacing.{members_in, members_above, kept_upto};
ghost use Rattle.values.specs.declared.peer.PeerMsg.TheVariants.{Append};
ghost use Rattle.group_msgs.specs.Ranges.{IsIndex, IsAppendInRange};
ghost use Rattle.replica_model.specs.Linked.{sha_link};
ghost use Rattle.replica_model.specs.Replica as model;
ghost use Rattle.replica_model.specs.Call.{empty_batch};
ghost use Rattle.replica_model.specs.Graft.{append_heard, stale_append};
ghost use Rattle.replica_model.specs.Heard.{accepted_heard, rejected_heard};
ghost use Rattle.replica_core.specs.Keeping.{IsSound, leads_now, progress_in};
ghost use Rattle.replica_core.specs.Calling.{Follows};

use crate::holder::{Holder, logs_are_the_models};
use crate::role::{Leading, Role};
use crate::send::Appends;
use append_rules::{Taken, take_accepted, take_append, take_rejected};
use replica_log::{Log, hashes_are_the_models};
use values::{Batch, Body, Entries, Hash, Memory, PeerMsg, Point, ReplicaId, TryCopy};

/// An append as it is heard.
#[derive(Clone, Copy, Debug)]
pub(crate) struct Offer<'a> {
    pub prev: Point,
    pub entries: &'a Entries,
    pub promise: u64,
    pub commit: u64,
}

impl Holder {
    /// Hears an append of its own term. Where it differs from what is promised, the replica halts; else it follows the
    /// sender, and takes what joins its log.
    pub fn append_heard(
        &mut self,
        from: ReplicaId,
        offer: Offer<'_>,
        batch: &mut Batch,
    ) -> Result<Appends, Memory>
        requires sound { IsSound self.old }
        requires range { IsAppendInRange offer.prev offer.entries.now offer.promise offer.commit }
        requires empty { batch.old ≡ empty_batch }
        ensures sound { OnOk result (IsSound self.new) }
        ensures model { Follows self.old self.new batch.new result (λ s. append_heard sha_link s
            (record { from = from; prev = offer.entry.prev; entries = offer.entry.entries.now; promise = offer.entry.promise; commit = offer.entry.commit })) }
        ensures in_range { IsId from → ActsInRange self.old batch.old result self.new batch.new }
    {
        logs_are_the_models();
        let last = self.last();
        let committed = self.log.committed();
        let taken = take_append(
            &mut self.log,
            self.ballot.term,
            offer.prev,
            offer.entries.as_slice(),
            offer.promise,
            offer.commit,
        )?;
        match taken {
            Taken::Conflict {
                index,
                kept,
                offered,
            } => {
                let halt = Some((index, kept, offered));
                self.halted = halt;
                batch.halt = halt;
            }
            Taken::Replied { reply, cut } => {
                self.follow(from);
                self.tell_members(kept_upto(last, cut), batch)?;
                self.tickets.give_up(cut, &mut batch.answers)?;
                self.apply_committed(committed, batch)?;
                batch.sent.push((from, reply))?;
            }
        }
        Ok(Appends::Nobody)
    }

    /// Tells the configurations of the entries above an index.
    fn tell_members(&self, above: u64, batch: &mut Batch) -> Result<(), Memory>
        requires base { base_index self.now.log ≤ above }
        ensures { OnOk result (batch.new ≡ record batch.old { members = batch.old.members ++ members_above self.now.log above }) }
    {
        for index in above..self.last() {
            self.tell_entry(index + 1, batch)?;
        }
        Ok(())
    }

    /// Tells the configuration of the entry at an index, where it is one.
    fn tell_entry(&self, index: u64, batch: &mut Batch) -> Result<(), Memory>
        ensures { OnOk result (IfSome (entry_at self.now.log index)
            (λ e. batch.new ≡ record batch.old { members = batch.old.members ++ members_in (index, e) })) }
    {
        let Some(entry) = self.log.entry_at(index) else {
            return Ok(());
        };
        if let Body::Members { margin, voters } = &entry.body {
            let voters = voters.copy(self.alloc)?;
            batch.members.push((index, *margin, voters))?;
        }
        Ok(())
    }

    /// Refuses an append of an older term, or a part of one.
    pub fn stale_append(
        &mut self,
        from: ReplicaId,
        asked: u64,
        batch: &mut Batch,
    ) -> Result<Appends, Memory>
        requires sound { IsSound self.old }
        requires empty { batch.old ≡ empty_batch }
        ensures same { self.new ≡ self.old }
        ensures model { Follows self.old self.new batch.new result (λ s. stale_append s from asked) }
        ensures in_range { IsId from → IsIndex asked → ActsInRange self.old batch.old result self.new batch.new }
    {
        let reply = PeerMsg::Rejected {
            term: self.ballot.term,
            asked,
            hint: self.log.promised(),
        };
        batch.sent.push((from, reply))?;
        Ok(Appends::Nobody)
    }

    /// Hears, in its own term, that a peer has accepted the log up to a point, and promised it up to an index.
    pub fn accepted_heard(
        &mut self,
        from: ReplicaId,
        end: Point,
        promised: u64,
        batch: &mut Batch,
    ) -> Result<Appends, Memory>
        requires sound { IsSound self.old }
        requires empty { batch.old ≡ empty_batch }
        ensures sound { OnOk result (IsSound self.new) }
        ensures model { Follows self.old self.new batch.new result (λ s. accepted_heard sha_link s s.role from end promised) }
        ensures in_range { IsId from → ActsInRange self.old batch.old result self.new batch.new }
    {
        logs_are_the_models();
        // which points match rests on this law
        hashes_are_the_models();
        let committed_before = self.log.committed();
        let promised_before = self.log.promised();
        if !self.is_peer(from) {
            return Ok(Appends::Nobody);
        }
        if !self.note_accepted(from, end, promised)? {
            return Ok(Appends::Nobody);
        }
        self.raise(batch)?;
        Ok(self.appends_after(promised_before, committed_before, from))
    }

    /// Who is to be sent an append after a raise: each peer where promised or committed is above what it was, else this
    /// one, where it lacks entries.
    fn appends_after(&self, promised_before: u64, committed_before: u64, peer: ReplicaId) -> Appends
        ensures { result ≡ appends_after self.now promised_before committed_before peer }
    {
        if self.log.promised() > promised_before || self.log.committed() > committed_before {
            Appends::Everyone
        } else if self.lacks_entries(peer) {
            Appends::One(peer)
        } else {
            Appends::Nobody
        }
    }

    /// Notes what a peer has accepted and promised. False, and nothing is changed, where the replica does not lead or its
    /// log does not match.
    fn note_accepted(&mut self, from: ReplicaId, end: Point, promised: u64) -> Result<bool, Memory>
        requires { last_index self.old.log ≤ TOP }
        ensures answer { IfOk result (λ noted. noted ≡ (leads_now self.old.role && matches sha_link self.old.log end)) }
        ensures after { OnOk result (self.new ≡ holder_leading self.old (λ l. after_accepted l self.old.log from end promised)) }
    {
        match &mut self.role {
            Role::Leader(leading) => leading.note_accepted(&self.log, from, end, promised),
            _ => Ok(false),
        }
    }

    /// Whether a peer is not yet sent all of the leader's log.
    fn lacks_entries(&self, peer: ReplicaId) -> bool
        ensures { result ≡ lacks_entries_at self.now peer }
    {
        match &self.role {
            Role::Leader(leading) => leading.progress_of(peer).next <= self.last(),
            _ => false,
        }
    }

    /// Hears, in its own term, that a peer has refused an append; it may join the log after the hint. A table that is
    /// being sent to the peer is no more.
    pub fn rejected_heard(
        &mut self,
        from: ReplicaId,
        hint: u64,
        batch: &mut Batch,
    ) -> Result<Appends, Memory>
        requires sound { IsSound self.old }
        requires empty { batch.old ≡ empty_batch }
        ensures sound { OnOk result (IsSound self.new) }
        ensures model { Follows self.old self.new batch.new result (λ s. rejected_heard s s.role from hint) }
        ensures in_range { IsId from → ActsInRange self.old batch.old result self.new batch.new }
    {
        logs_are_the_models();
        if !self.is_peer(from) {
            return Ok(Appends::Nobody);
        }
        if self.note_rejected(from, hint)? {
            Ok(Appends::One(from))
        } else {
            Ok(Appends::Nobody)
        }
    }

    /// Notes that a peer has refused an append, and answers whether it is to be sent one anew.
    fn note_rejected(&mut self, from: ReplicaId, hint: u64) -> Result<bool, Memory>
        requires { last_index self.old.log ≤ TOP }
        ensures answer { IfOk result (λ anew. anew ≡ is_sent_anew_at self.old from hint) }
        ensures after { OnOk result (self.new ≡ holder_leading self.old (λ l. after_rejected l self.old.log from hint)) }
    {
        match &mut self.role {
            Role::Leader(leading) => leading.note_rejected(&self.log, from, hint),
            _ => Ok(false),
        }
    }
}

impl Leading {
    /// Notes what a peer has accepted and promised of this log, where it matches.
    fn note_accepted(
        &mut self,
        log: &Log,
        from: ReplicaId,
        end: Point,
        promised: u64,
    ) -> Result<bool, Memory>
        requires { last_index log.now < u64.MAX }
        ensures answer { IfOk result (λ noted. noted ≡ matches sha_link log.now end) }
        ensures after { OnOk result (self.new ≡ after_accepted self.old log.now from end promised) }
    {
        let mut progress = self.progress_of(from);
        if !take_accepted(log, &mut progress, end, promised) {
            return Ok(false);
        }
        self.progress.put(from, progress)?;
        Ok(true)
    }

    /// Notes that a peer has refused an append of this log, and answers whether it is to be sent one anew. A table that
    /// is being sent to it is no more.
    fn note_rejected(&mut self, log: &Log, from: ReplicaId, hint: u64) -> Result<bool, Memory>
        requires { last_index log.now < u64.MAX }
        ensures answer { IfOk result (λ anew. anew ≡ is_sent_anew log.now (progress_in self.old.progress from) hint) }
        ensures after { OnOk result (self.new ≡ after_rejected self.old log.now from hint) }
    {
        self.sendings.remove(from);
        let mut progress = self.progress_of(from);
        if !take_rejected(log, &mut progress, hint) {
            return Ok(false);
        }
        self.progress.put(from, progress)?;
        Ok(true)
    }
}

/// The last index that stays where a log is cut.
fn kept_upto(last: u64, cut: Option<(u64, Hash, Hash)>) -> u64
    ensures { result ≡ kept_upto last cut }
{
    match cut {
        Some((index, ..)) => index.saturating_sub(1),
        None => last,
    }
}
