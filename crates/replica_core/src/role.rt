//! What a replica that holds a log is to its group.
ghost use Rattle.std.specs.Prelude.{◌≡◌, ◌+◌, [], map, IfOk, OnOk};
ghost use Rattle.replica_model.specs.Keyed.{put};
ghost use Rattle.replica_core.specs.Keeping.{progress_in, mark_in, marks_by};

use crate::by_replica::ByReplica;
use crate::rising::RisingIds;
use replica_model::Progress;
use std::alloc::Global;
use table_transfer::Sending;
use values::{Memory, ReplicaId};
use vote_rules::Votes;

/// The role of a replica that holds a log.
#[derive(Debug, Drop)]
pub(crate) enum Role {
    Follower,
    /// It stands for election, with the votes that it has.
    Candidate(Votes),
    Leader(Leading),
}

/// What a leader keeps.
#[derive(Debug, Drop)]
pub(crate) struct Leading {
    /// What it knows of each peer.
    pub progress: ByReplica<Progress>,
    /// The learners, in rising order.
    pub learners: RisingIds,
    /// The tables that are being sent.
    pub sendings: ByReplica<Sending>,
}

/// What a peer's mark says of the leader's log.
#[derive(Clone, Copy, Debug, PartialEq, Eq)]
pub(crate) enum Mark {
    /// Up to where it has accepted it.
    Accepted,
    /// Up to where it has promised it.
    Promised,
}

/// What is known of a peer of which nothing is.
const UNKNOWN: Progress = Progress {
    next: 0,
    mark: 0,
    promised: 0,
};

impl Leading {
    /// A new leader expects each peer's next entry at this index, and knows nothing of it.
    pub fn anew(alloc: Global, peers: &[ReplicaId], next: u64) -> Result<Leading, Memory>
        ensures progress { IfOk result (λ l. l.progress ≡ map (λ v. (v, record { next = next; mark = 0; promised = 0 })) peers.now) }
        ensures learners { IfOk result (λ l. l.learners ≡ []) }
        ensures sendings { IfOk result (λ l. l.sendings ≡ []) }
    {
        let items = expected_from(alloc, peers, next)?;
        Ok(Leading {
            progress: ByReplica::from(items),
            learners: RisingIds::new(alloc),
            sendings: ByReplica::new(alloc),
        })
    }

    /// What it knows of a peer.
    pub fn progress_of(&self, id: ReplicaId) -> Progress
        ensures { result ≡ progress_in self.now.progress id }
    {
        self.progress.get(id).copied().unwrap_or(UNKNOWN)
    }

    /// Makes a list that of the marks of the peers, and first the leader's own. So one list serves both marks.
    pub fn put_marks(
        &self,
        marks: &mut Vec<(u32, u64)>,
        mark: Mark,
        me: ReplicaId,
        own: u64,
    ) -> Result<(), Memory>
        ensures { OnOk result (marks.new.items ≡ marks_by mark me own self.now.progress) }
    {
        marks.clear();
        marks.push((me, own))?;
        let peers = self.progress.as_slice();
        for (id, progress) in peers {
            marks.push((*id, mark.of(progress)))?;
        }
        Ok(())
    }
}

impl Mark {
    /// This mark of a peer.
    fn of(self, progress: &Progress) -> u64
        ensures { result ≡ mark_in self progress.now }
    {
        match self {
            Mark::Accepted => progress.mark,
            Mark::Promised => progress.promised,
        }
    }
}

/// Each peer's next entry is the one at this index.
fn expected_from(
    alloc: Global,
    peers: &[ReplicaId],
    next: u64,
) -> Result<Vec<(ReplicaId, Progress)>, Memory>
    ensures { IfOk result (λ all. all.items ≡ map (λ v. (v, record { next = next; mark = 0; promised = 0 })) peers.now) }
{
    let mut items = Vec::with_capacity(alloc, peers.len())?;
    for peer in peers {
        let progress = Progress {
            next,
            mark: 0,
            promised: 0,
        };
        items.push((*peer, progress))?;
    }
    Ok(items)
}
