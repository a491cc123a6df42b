//! A replica's vote in its term.
ghost use Rattle.std.specs.Prelude.{◌≡◌, ◌≢◌, ◌+◌, ◌<◌, ◌&&◌, if◌then◌else◌};
ghost use Rattle.values.specs.declared.peer.PeerMsg.TheVariants.{Vote};
ghost use Rattle.values.specs.declared.limits.TheConstants.{TOP};
ghost use Rattle.replica_model.specs.Replica.{Replica};
ghost use Rattle.replica_model.specs.Call.{says};
ghost use Rattle.replica_model.specs.Votes.{vote_asked};
ghost use Rattle.vote_rules.specs.Ballots.{is_free, is_as_new, HasBallot};

use values::ReplicaId;

/// A term, and the id that has the replica's vote in it, or 0.
#[derive(Clone, Copy, Debug, PartialEq, Eq)]
pub struct Ballot {
    pub term: u64,
    pub vote: ReplicaId,
}

/// The index and the term of a log's last entry, both 0 where it has none.
#[derive(Clone, Copy, Debug, PartialEq, Eq)]
pub struct LastEntry {
    pub index: u64,
    pub term: u64,
}

impl LastEntry {
    /// Whether it is at least as new as another: compared by their terms first, then by their indices. This is Raft's
    /// election restriction (Ongaro, "Consensus: Bridging Theory and Practice", 2014, chapter 3).
    pub fn is_as_new_as(self, other: LastEntry) -> bool
        ensures { result ≡ is_as_new other self }
    {
        (self.term, self.index) >= (other.term, other.index)
    }
}

/// Stands for election: the next term, and a vote for itself.
pub fn stand(ballot: &mut Ballot, me: ReplicaId)
    requires { ballot.old.term < TOP }
    ensures { ballot.new ≡ record { term = ballot.old.term + 1; vote = me } }
{
    ballot.term += 1;
    ballot.vote = me;
}

/// Whether the vote is granted to one who asks for it in the ballot's own term: where no other id has it, and the
/// asker's last entry is at least as new as the own one.
pub fn judge_ask(ballot: &mut Ballot, own: LastEntry, from: ReplicaId, asked: LastEntry) -> bool
    ensures answer { result ≡ (is_free ballot.old from && is_as_new own asked) }
    ensures ballot { ballot.new ≡ (if result then record (ballot.old) { vote = from } else ballot.old) }
    ensures once { ballot.old.vote ≢ 0 → ballot.new ≡ ballot.old }
    ensures model { (s : Replica) → HasBallot s ballot.old own
        → vote_asked s from asked.index asked.term ≡ says (record s { vote = ballot.new.vote }) from (Vote s.term result) }
{
    let is_free = ballot.vote == 0 || ballot.vote == from;
    let granted = is_free && asked.is_as_new_as(own);
    if granted {
        ballot.vote = from;
    }
    granted
}
