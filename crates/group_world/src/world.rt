//! A group as far as later events ask for it.
ghost use Rattle.std.specs.Prelude.{◌≡◌, Bool};
ghost use Rattle.group_quorum.specs.Voters.{is_in};
ghost use Rattle.group_world.specs.Roster.{IsRoster};

use crate::answered::Answered;
use crate::clients::Clients;
use crate::post::Post;
use crate::told::Told;
use values::ReplicaId;

/// A group that plays events.
#[derive(Drop)]
pub struct World {
    pub(crate) begun: bool,
    /// Who runs, in rising order.
    pub(crate) running: Vec<ReplicaId>,
    /// Every id that was ever used.
    pub(crate) started: Vec<ReplicaId>,
    /// All messages by number.
    pub(crate) post: Post,
    /// All answers by number, the first with number 1.
    pub(crate) answers: Vec<Answered>,
    pub(crate) clients: Clients,
    /// The replica of each saved state, and of each accepted roll.
    pub(crate) saves: Vec<ReplicaId>,
    pub(crate) rolled: Vec<ReplicaId>,
    /// Each configuration that was told.
    pub(crate) confs: Vec<Told>,
    /// The greatest committed index that was told.
    pub(crate) committed: u64,
    pub(crate) events: u64,
    // Who runs was started, and before the begin nobody runs.
    ghost roster: { IsRoster begun running.items started.items },
}

impl World {
    /// Who runs, in rising order.
    pub fn running(&self) -> &[ReplicaId]
        ensures { result.now ≡ self.now.running.items }
    {
        self.running.as_slice()
    }

    /// Whether a replica runs.
    pub(crate) fn runs(&self, id: ReplicaId) -> bool
        ensures { result ≡ is_in self.now.running.items id }
    {
        self.running.as_slice().contains(&id)
    }
}
