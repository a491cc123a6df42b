//! The voters that count, and the peers of a leader.
ghost use Rattle.std.specs.Prelude.{◌≡◌, IfOk};
ghost use Rattle.replica_log.specs.Window.{IsOrdered};
ghost use Rattle.replica_core.specs.Keeping.{counted_at, others_counted, learners_in, peers_at, is_peer_at};

use crate::holder::Holder;
use crate::rising::RisingIds;
use crate::role::Role;
use values::{Memory, ReplicaId};

impl Holder {
    /// The other voters of the newest configuration, and of the one before it while the newest is not committed.
    pub fn other_voters(&self) -> Result<RisingIds, Memory>
        ensures { IfOk result (λ ids. ids ≡ others_counted self.now.me self.now.log) }
    {
        let mut ids = self.voters_counted()?;
        ids.remove(self.me);
        Ok(ids)
    }

    /// The peers of a leader: the other voters, and its learners.
    pub fn peers(&self) -> Result<RisingIds, Memory>
        ensures ids { IfOk result (λ ids. ids ≡ peers_at self.now.me self.now.log (learners_in self.now.role)) }
        ensures ordered { IsOrdered self.now.log }
    {
        let mut ids = self.voters_counted()?;
        if let Role::Leader(leading) = &self.role {
            ids.unite(leading.learners.as_slice())?;
        }
        ids.remove(self.me);
        Ok(ids)
    }

    /// Whether an id is a peer of the leader.
    pub fn is_peer(&self, id: ReplicaId) -> bool
        ensures peer { result ≡ is_peer_at self.now.me self.now.log (learners_in self.now.role) id }
        ensures ordered { IsOrdered self.now.log }
    {
        let learns = match &self.role {
            Role::Leader(leading) => leading.learners.contains(id),
            _ => false,
        };
        let configs = self.configs();
        let is_pending = configs.newest_index > self.log.committed();
        let votes = configs.newest.holds(id) || is_pending && configs.older.holds(id);
        id != self.me && (learns || votes)
    }

    fn voters_counted(&self) -> Result<RisingIds, Memory>
        ensures ids { IfOk result (λ ids. ids ≡ counted_at self.now.log) }
        ensures ordered { IsOrdered self.now.log }
    {
        let configs = self.configs();
        let committed = self.log.committed();
        let mut ids = RisingIds::from_slice(self.alloc, configs.newest.voters())?;
        if configs.newest_index <= committed {
            return Ok(ids);
        }
        ids.unite(configs.older.voters())?;
        Ok(ids)
    }
}
