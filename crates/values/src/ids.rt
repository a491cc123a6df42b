//! The ids of replicas and clients.
ghost use Rattle.std.specs.Prelude.{◌≡◌, ◌==◌, ◌↔◌, nat_eq, IsTrue, IfOk, length};
ghost use Rattle.std.specs.Cmp.{partial_equiv_from_equiv};
ghost use Rattle.std.specs.Cmp.Lexicographic.{pointwise};
ghost use Rattle.std.proofs.lemmas.Cmp.{nat_list_eq_equiv};
ghost use Rattle.std.specs.Option.{SomeIff};
ghost use Rattle.std.specs.List.Sorted.{IsStrictlyIncreasing};
ghost use Rattle.values.specs.Rising.{Rising};

use crate::copies::TryCopy;
use crate::memory::Memory;
use std::alloc::Global;
use std::marker::Model;

/// The id of a replica, from 1 to 65,535; 0 stands for none.
pub type ReplicaId = u32;

/// The id of a client. Ids are ordered as their bytes.
#[derive(Clone, Copy, Debug, PartialEq, Eq, PartialOrd, Ord)]
pub struct ClientId(pub [u8; 16]);

/// Replica ids in strictly rising order. Contracts see the list of them.
#[derive(Debug, Drop)]
pub struct Ids {
    ids: Vec<ReplicaId>,
}

impl Model for Ids {
    ghost use Rattle.std.specs.Prelude.{List, ℕ};
    ghost use Rattle.values.specs.Rising.{Rising};

    ghost Value = { List ℕ };

    ghost view = { λ a. a.ids.items };

    ghost invariant = { λ a. Rising a.ids.items };
}

impl Ids {
    /// These ids; `None` exactly where they are not in strictly rising order.
    pub fn from_slice(alloc: Global, ids: &[ReplicaId]) -> Result<Option<Ids>, Memory>
        ensures { IfOk result (λ found. SomeIff found (Rising ids.now) ids.now) }
    {
        if !is_rising(ids) {
            return Ok(None);
        }
        let ids = Vec::from_slice(alloc, ids)?;
        Ok(Some(Ids { ids }))
    }

    /// The ids.
    pub fn as_slice(&self) -> &[ReplicaId]
        ensures same { result.now ≡ self.now }
        ensures rising { Rising self.now }
    {
        self.ids.as_slice()
    }

    /// How many there are.
    pub fn len(&self) -> usize
        ensures { result ≡ length self.now }
    {
        self.ids.len()
    }

    /// Whether there are none.
    pub fn is_empty(&self) -> bool
        ensures { result ≡ (length self.now == 0) }
    {
        self.ids.is_empty()
    }
}

impl PartialEq for Ids {
    ghost eq = { pointwise nat_eq };

    ghost laws = { partial_equiv_from_equiv nat_list_eq_equiv };

    fn eq(&self, other: &Ids) -> bool {
        self.as_slice() == other.as_slice()
    }
}

impl Eq for Ids {
    ghost laws = { nat_list_eq_equiv };
}

impl TryCopy for Ids {
    fn copy(&self, alloc: Global) -> Result<Ids, Memory> {
        let ids = Vec::from_slice(alloc, self.ids.as_slice())?;
        Ok(Ids { ids })
    }
}

/// Whether each id is below the next.
fn is_rising(ids: &[ReplicaId]) -> bool
    ensures { IsTrue result ↔ IsStrictlyIncreasing ids.now }
{
    ids.windows(2).all(|pair| pair[0] < pair[1])
}
