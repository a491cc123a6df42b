//! A replica that holds a log.
ghost use Rattle.std.specs.Prelude.{◌≡◌, IfOk};
ghost use Rattle.replica_model.specs.Linked.{sha_link};
ghost use Rattle.replica_model.specs.Replica as model;
ghost use Rattle.replica_model.specs.Graft.{following};
ghost use Rattle.replica_log.specs.Window.{last_index, configs_at, IsOrdered};
ghost use Rattle.replica_core.specs.Standing.{HoldsFor};
ghost use Rattle.replica_core.specs.Logs.{LogsAreTheModels};
ghost use Rattle.replica_core.specs.Keeping.{IsSound, leads_now};

use crate::role::Role;
use crate::tickets::Tickets;
use record_table::Table;
use replica_log::{
    Configs, Log, configs_are_the_models, indices_are_the_models, newest_are_the_models,
};
use std::alloc::Global;
use values::{Hash, Memory, ReplicaId};
use vote_rules::Ballot;

/// A replica that holds a log, with the record table at its committed index.
#[derive(Debug, Drop)]
pub(crate) struct Holder {
    pub alloc: Global,
    pub me: ReplicaId,
    pub ballot: Ballot,
    /// The id that it takes for the leader, or 0.
    pub known: ReplicaId,
    pub log: Log,
    pub table: Table,
    pub role: Role,
    pub tickets: Tickets,
    /// The index where it halted, its own hash there and the one offered.
    pub halted: Option<(u64, Hash, Hash)>,
}

impl Holder {
    /// The index of the last entry.
    pub fn last(&self) -> u64
        ensures last { result ≡ last_index self.now.log }
        ensures ordered { IsOrdered self.now.log }
    {
        self.log.last().index
    }

    /// The configurations of the whole log.
    pub fn configs(&self) -> Configs
        ensures { result ≡ configs_at self.now.log (last_index self.now.log) }
    {
        self.log.configs_to(self.last())
    }

    /// Whether it leads.
    pub fn leads(&self) -> bool
        ensures { result ≡ leads_now self.now.role }
    {
        matches!(self.role, Role::Leader(_))
    }

    /// Follows a leader, or nobody that it knows.
    pub fn follow(&mut self, leader: ReplicaId)
        ensures after { self.new ≡ record self.old { role = Role.Follower; known = leader } }
    {
        self.role = Role::Follower;
        self.known = leader;
    }
}

/// The law that the indices and configurations that a log tells are those of each model replica for which it stands. It
/// only names the laws of the log.
pub(crate) fn logs_are_the_models()
    ensures { LogsAreTheModels }
{
    indices_are_the_models();
    newest_are_the_models();
    configs_are_the_models();
}
