//! Elections: a replica stands, is asked for its vote, and hears votes.
ghost use Rattle.std.specs.Prelude.{◌≡◌, ◌<◌, OnOk};
ghost use Rattle.values.specs.declared.limits.TheConstants.{TOP};
ghost use Rattle.replica_model.specs.Replica as model;
ghost use Rattle.replica_model.specs.Call.{empty_batch};
ghost use Rattle.replica_model.specs.Votes.{stand as model_stand, asks_votes, win, vote_asked, vote_heard};
ghost use Rattle.replica_log.specs.Window.{last_index};
ghost use Rattle.replica_core.specs.Keeping.{IsSound};
ghost use Rattle.replica_core.specs.Calling.{Follows};
ghost use Rattle.group_quorum.specs.Voters.{IsId};
ghost use Rattle.replica_core.specs.InRange.{ActsInRange};

use crate::holder::{Holder, logs_are_the_models};
use crate::role::{Leading, Role};
use crate::send::Appends;
use replica_model::TOP;
use values::{Batch, Body, Memory, PeerMsg, ReplicaId};
use vote_rules::{LastEntry, Votes, judge_ask, stand};

impl Holder {
    /// Stands for election. Nothing happens where it is no voter of its newest configuration, or where its term or its
    /// last index is the greatest there is.
    pub fn stand(&mut self, batch: &mut Batch) -> Result<Appends, Memory>
        requires sound { IsSound self.old }
        requires empty { batch.old ≡ empty_batch }
        ensures sound { OnOk result (IsSound self.new) }
        ensures model { Follows self.old self.new batch.new result (λ s. model_stand s) }
        ensures in_range { ActsInRange self.old batch.old result self.new batch.new }
    {
        logs_are_the_models();
        let configs = self.configs();
        if !configs.newest.holds(self.me) || self.ballot.term == TOP || self.last() == TOP {
            return Ok(Appends::Nobody);
        }
        stand(&mut self.ballot, self.me);
        self.known = 0;
        let votes = Votes::new(self.me);
        let won = votes.win(&configs, self.log.committed());
        self.role = Role::Candidate(votes);
        if won {
            self.win(batch)
        } else {
            self.ask_votes(batch)
        }
    }

    /// Asks the other voters that count for their votes, in rising id.
    fn ask_votes(&mut self, batch: &mut Batch) -> Result<Appends, Memory>
        requires sound { IsSound self.old }
        requires empty { batch.old ≡ empty_batch }
        ensures same { self.new ≡ self.old }
        ensures model { Follows self.old self.new batch.new result (λ s. asks_votes s) }
        ensures in_range { ActsInRange self.old batch.old result self.new batch.new }
    {
        logs_are_the_models();
        let last_index = self.last();
        let last_term = self.log.last_term();
        for voter in self.other_voters()?.as_slice() {
            let ask = PeerMsg::AskVote {
                term: self.ballot.term,
                last_index,
                last_term,
            };
            batch.sent.push((*voter, ask))?;
        }
        Ok(Appends::Nobody)
    }

    /// Wins the election: it leads, pushes an entry of its term, raises, and sends to every peer.
    fn win(&mut self, batch: &mut Batch) -> Result<Appends, Memory>
        requires sound { IsSound self.old }
        requires room { last_index self.old.log < TOP }
        requires empty { batch.old ≡ empty_batch }
        ensures sound { OnOk result (IsSound self.new) }
        ensures model { Follows self.old self.new batch.new result (λ s. win s) }
        ensures in_range { ActsInRange self.old batch.old result self.new batch.new }
    {
        logs_are_the_models();
        let voters = self.other_voters()?;
        let leading = Leading::anew(self.alloc, voters.as_slice(), self.last() + 1)?;
        self.role = Role::Leader(leading);
        self.known = self.me;
        batch.lead = Some(self.ballot.term);
        self.push(Body::Noop)?;
        self.raise(batch)?;
        Ok(Appends::Everyone)
    }

    /// Is asked for its vote, in its own term, by one with this last entry.
    pub fn vote_asked(
        &mut self,
        from: ReplicaId,
        asked: LastEntry,
        batch: &mut Batch,
    ) -> Result<Appends, Memory>
        requires sound { IsSound self.old }
        requires empty { batch.old ≡ empty_batch }
        ensures sound { OnOk result (IsSound self.new) }
        ensures model { Follows self.old self.new batch.new result (λ s. vote_asked s from asked.index asked.term) }
        ensures in_range { IsId from → ActsInRange self.old batch.old result self.new batch.new }
    {
        logs_are_the_models();
        let own = LastEntry {
            index: self.last(),
            term: self.log.last_term(),
        };
        let granted = judge_ask(&mut self.ballot, own, from, asked);
        let vote = PeerMsg::Vote {
            term: self.ballot.term,
            granted,
        };
        batch.sent.push((from, vote))?;
        Ok(Appends::Nobody)
    }

    /// Hears a vote of its own term. A candidate counts a granted one, and every other does nothing.
    pub fn vote_heard(
        &mut self,
        from: ReplicaId,
        granted: bool,
        batch: &mut Batch,
    ) -> Result<Appends, Memory>
        requires sound { IsSound self.old }
        requires empty { batch.old ≡ empty_batch }
        ensures sound { OnOk result (IsSound self.new) }
        ensures model { Follows self.old self.new batch.new result (λ s. vote_heard s s.role from granted) }
        ensures in_range { ActsInRange self.old batch.old result self.new batch.new }
    {
        logs_are_the_models();
        let configs = self.configs();
        let committed = self.log.committed();
        let Role::Candidate(votes) = &mut self.role else {
            return Ok(Appends::Nobody);
        };
        if granted && votes.count_vote(from, &configs, committed) {
            self.win(batch)
        } else {
            Ok(Appends::Nobody)
        }
    }
}
