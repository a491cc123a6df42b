//! Copies of replicas.
ghost use Rattle.std.specs.Prelude.{◌≡◌, IfOk};

use crate::by_replica::ByReplica;
use crate::holder::Holder;
use crate::learner::Learner;
use crate::role::{Leading, Role};
use replica_model::Progress;
use std::alloc::Global;
use table_transfer::Sending;
use values::Memory;

impl Learner {
    /// A copy of it.
    pub fn copy(&self) -> Result<Learner, Memory>
        ensures { IfOk result (λ learner. learner ≡ self.now) }
    {
        Ok(Learner {
            alloc: self.alloc,
            me: self.me,
            term: self.term,
            taking: self.taking.copy()?,
        })
    }
}

impl Holder {
    /// A copy of it.
    pub fn copy(&self) -> Result<Holder, Memory>
        ensures { IfOk result (λ holder. holder ≡ self.now) }
    {
        Ok(Holder {
            alloc: self.alloc,
            me: self.me,
            ballot: self.ballot,
            known: self.known,
            log: self.log.copy()?,
            table: self.table.copy()?,
            role: self.role.copy(self.alloc)?,
            tickets: self.tickets.copy()?,
            halted: self.halted,
        })
    }
}

impl Role {
    /// A copy of it.
    fn copy(&self, alloc: Global) -> Result<Role, Memory>
        ensures { IfOk result (λ role. role ≡ self.now) }
    {
        match self {
            Role::Follower => Ok(Role::Follower),
            Role::Candidate(votes) => Ok(Role::Candidate(*votes)),
            Role::Leader(leading) => Ok(Role::Leader(leading.copy(alloc)?)),
        }
    }
}

impl Leading {
    /// A copy of it.
    fn copy(&self, alloc: Global) -> Result<Leading, Memory>
        ensures { IfOk result (λ leading. leading ≡ self.now) }
    {
        Ok(Leading {
            progress: ByReplica::from(Vec::from_slice(alloc, self.progress.as_slice())?),
            learners: self.learners.copy()?,
            sendings: copy_sendings(alloc, &self.sendings)?,
        })
    }
}

fn copy_sendings(alloc: Global, sendings: &ByReplica<Sending>) -> Result<ByReplica<Sending>, Memory>
    ensures { IfOk result (λ copy. copy ≡ sendings.now) }
{
    let sendings = sendings.as_slice();
    let mut items = Vec::with_capacity(alloc, sendings.len())?;
    for (id, sending) in sendings {
        items.push((*id, sending.copy()?))?;
    }
    Ok(ByReplica::from(items))
}
