//! Ids of replicas in rising order.
ghost use Rattle.std.specs.Prelude.{◌≡◌, [], length, nat_lt, OnOk, IfOk};
ghost use Rattle.std.specs.List.{position_or_len};
ghost use Rattle.group_quorum.specs.Voters.{is_in};
ghost use Rattle.replica_model.specs.Peers.{with_id, united, others};

use std::alloc::Global;
use std::marker::Model;
use values::{Memory, ReplicaId};

/// Ids of replicas in rising order. Contracts see the list of them.
#[derive(Debug, Drop)]
pub(crate) struct RisingIds {
    ids: Vec<ReplicaId>,
}

impl Model for RisingIds {
    ghost use Rattle.std.specs.Prelude.{List, ℕ};

    ghost Value = { List ℕ };

    ghost view = { λ a. a.ids.items };
}

impl RisingIds {
    /// An empty list.
    pub fn new(alloc: Global) -> RisingIds
        ensures { result ≡ [] }
    {
        RisingIds {
            ids: Vec::new(alloc),
        }
    }

    /// A list of these ids.
    pub fn from_slice(alloc: Global, ids: &[ReplicaId]) -> Result<RisingIds, Memory>
        ensures { IfOk result (λ rising. rising ≡ ids.now) }
    {
        let ids = Vec::from_slice(alloc, ids)?;
        Ok(RisingIds { ids })
    }

    /// The ids.
    pub fn as_slice(&self) -> &[ReplicaId]
        ensures { result.now ≡ self.now }
    {
        self.ids.as_slice()
    }

    /// How many there are.
    pub fn len(&self) -> usize
        ensures { result ≡ length self.now }
    {
        self.ids.len()
    }

    /// Whether an id is among them.
    pub fn contains(&self, id: ReplicaId) -> bool
        ensures { result ≡ is_in self.now id }
    {
        self.ids.contains(&id)
    }

    /// Puts an id at its place, where it is not among them.
    pub fn insert(&mut self, id: ReplicaId) -> Result<(), Memory>
        ensures { OnOk result (self.new ≡ with_id id self.old) }
    {
        if self.contains(id) {
            return Ok(());
        }
        let place = self.place_of(id);
        self.ids.insert(place, id)?;
        Ok(())
    }

    /// The first place of an id above this one; the end where there is none.
    fn place_of(&self, id: ReplicaId) -> usize
        ensures { result ≡ position_or_len (λ other. nat_lt id other) self.now }
    {
        for (place, other) in self.ids.as_slice().iter().enumerate() {
            if *other > id {
                return place;
            }
        }
        self.ids.len()
    }

    /// Puts each of these ids at its place.
    pub fn unite(&mut self, more: &[ReplicaId]) -> Result<(), Memory>
        ensures { OnOk result (self.new ≡ united more.now self.old) }
    {
        for id in more.iter().rev() {
            self.insert(*id)?;
        }
        Ok(())
    }

    /// Takes an id away.
    pub fn remove(&mut self, id: ReplicaId)
        ensures { self.new ≡ others id self.old }
    {
        self.ids.retain(|other| *other != id);
    }

    /// A copy of them.
    pub fn copy(&self) -> Result<RisingIds, Memory>
        ensures { IfOk result (λ ids. ids ≡ self.now) }
    {
        RisingIds::from_slice(*self.ids.allocator(), self.ids.as_slice())
    }
}
