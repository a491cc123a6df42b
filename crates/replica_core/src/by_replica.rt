//! Values under the ids of replicas.
ghost use Rattle.std.specs.Prelude.{◌≡◌, [], OnOk, IfOk, option_copied, nat_le, map, MatchOption};
ghost use Rattle.std.specs.List.{position_or_len};
ghost use Rattle.values.specs.Rising.{Rising};
ghost use Rattle.table_transfer.specs.SentTable.{heard};
ghost use Rattle.replica_model.specs.Keyed.{value_at, has, put, without};

use std::alloc::Global;
use std::marker::Model;
use table_transfer::{Sending, Sent};
use values::{Memory, Point, ReplicaId};

/// At most one value under each id, in rising order of the ids. Contracts see the list of them.
#[derive(Debug, Drop)]
pub(crate) struct ByReplica<T> {
    items: Vec<(ReplicaId, T)>,
}

impl<T> Model for ByReplica<T> {
    ghost use Rattle.std.specs.Prelude.{List, ℕ};

    ghost Value = { List (ℕ × T) };

    ghost view = { λ a. a.items.items };
}

impl<T: Drop> ByReplica<T> {
    /// An empty map.
    pub fn new(alloc: Global) -> ByReplica<T>
        ensures { result ≡ [] }
    {
        ByReplica {
            items: Vec::new(alloc),
        }
    }

    /// The value of an id.
    pub fn get(&self, id: ReplicaId) -> Option<&T>
        ensures { option_copied result ≡ value_at self.now id }
    {
        for (key, value) in self.items.as_slice() {
            if *key == id {
                return Some(value);
            }
        }
        None
    }

    /// Whether something stands under an id.
    pub fn holds(&self, id: ReplicaId) -> bool
        ensures { result ≡ has self.now id }
    {
        self.get(id).is_some()
    }

    /// Puts a value under an id, in the place of what stood there.
    pub fn put(&mut self, id: ReplicaId, value: T) -> Result<(), Memory>
        ensures { OnOk result (self.new ≡ put self.old id value) }
    {
        let place = self.place_of(id);
        if place < self.items.len() && self.items[place].0 == id {
            self.items[place].1 = value;
        } else {
            self.items.insert(place, (id, value))?;
        }
        Ok(())
    }

    /// Removes the value of an id.
    pub fn remove(&mut self, id: ReplicaId)
        ensures { self.new ≡ without self.old id }
    {
        self.items.retain(|item| item.0 != id);
    }

    /// The ids with their values.
    pub fn as_slice(&self) -> &[(ReplicaId, T)]
        ensures { result.now ≡ self.now }
    {
        self.items.as_slice()
    }

    /// The first place of an id that is not below this one; the end where there is none.
    fn place_of(&self, id: ReplicaId) -> usize
        ensures { result ≡ position_or_len (λ item. nat_le id item.0) self.now }
    {
        for (place, item) in self.items.as_slice().iter().enumerate() {
            if item.0 >= id {
                return place;
            }
        }
        self.items.len()
    }
}

impl<T> From<Vec<(ReplicaId, T)>> for ByReplica<T> {
    ghost from_gives = { λ v a. a ≡ v.items };

    fn from(items: Vec<(ReplicaId, T)>) -> ByReplica<T> {
        ByReplica { items }
    }
}

impl ByReplica<Sending> {
    ghost use Rattle.replica_core.specs.Heard.{sendings_after};

    /// Hears that the parts of a table before a number were taken by a replica. It is nothing where none is being sent
    /// to it.
    pub fn hear(&mut self, id: ReplicaId, point: &Point, next: u32) -> Sent
        requires { Rising (map (λ item. item.0) self.old) }
        ensures heard { MatchOption (value_at self.old id) ((result ≡ Sent.Ignored) × (self.new ≡ self.old))
            (λ s. (result ≡ heard s point.now next) × (self.new ≡ sendings_after self.old id s next result)) }
    {
        let place = self.place_of(id);
        if place < self.items.len() && self.items[place].0 == id {
            self.items[place].1.heard(point, next)
        } else {
            Sent::Ignored
        }
    }
}
