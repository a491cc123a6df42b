ghost use Rattle.std.specs.Prelude.{◌≡◌, ◌==◌, ◌||◌, ◌<◌, ◌^◌, ℕ, List, false, IsTrue, IfOk, IsOkAnd, OnOk, OnErr};
ghost use Rattle.attested_link.specs.Frames.{Gives, accepted_of, frame_bytes};

use crate::frames::{LinkFault, parts};
use std::alloc::Global;
use std::collections::BTreeSet;
use values::{Memory, ReplicaId};

/// The replicas that are linked.
#[derive(Drop)]
pub struct Links {
    ids: BTreeSet<ReplicaId>,
}

impl Links {
    ghost use Rattle.attested_link.specs.Links.{is_linked};

    /// No replica is linked.
    pub fn new(alloc: Global) -> Links
        ensures { (id : ℕ) → is_linked result id ≡ false }
    {
        Links {
            ids: BTreeSet::new(alloc),
        }
    }

    /// Links a replica, if it is not linked yet. After `Memory` the links are unchanged.
    pub fn add(&mut self, id: ReplicaId) -> Result<(), Memory>
        ensures ok { OnOk result ((v : ℕ) → is_linked self.new v ≡ (v == id || is_linked self.old v)) }
        ensures err { OnErr result ((v : ℕ) → is_linked self.new v ≡ is_linked self.old v) }
    {
        self.ids.insert(id)?;
        Ok(())
    }

    /// Whether the replica is linked.
    pub fn holds(&self, id: ReplicaId) -> bool
        ensures { result ≡ is_linked self.now id }
    {
        self.ids.contains(&id)
    }

    /// The sender and the message of a link frame for this replica, from one that is linked; else the first of its faults.
    pub fn accept_frame<'a>(
        &self,
        me: ReplicaId,
        frame: &'a [u8],
    ) -> Result<(ReplicaId, &'a [u8]), LinkFault>
        // What is taken is a frame for this replica, from one that is linked.
        ensures found { IfOk result
            (λ p. (frame.now ≡ frame_bytes p.0 me p.1.now) × IsTrue (is_linked self.now p.0)) }
        // Each such frame is taken.
        ensures only { (from : ℕ) (message : List ℕ) → from < 2 ^ 32
            → frame.now ≡ frame_bytes from me message
            → IsTrue (is_linked self.now from)
            → IsOkAnd result (λ p. (p.0 ≡ from) × (p.1.now ≡ message)) }
        // Which fault it is.
        ensures exact { Gives (λ p. (p.0, p.1.now)) result (accepted_of (is_linked self.now) me frame.now) }
    {
        self.accepted(me, frame)
    }

    fn accepted<'a>(
        &self,
        me: ReplicaId,
        frame: &'a [u8],
    ) -> Result<(ReplicaId, &'a [u8]), LinkFault>
        ensures { Gives (λ p. (p.0, p.1.now)) result (accepted_of (is_linked self.now) me frame.now) }
    {
        let Some((from, to, message)) = parts(frame) else {
            return Err(LinkFault::Short(frame.len() as u64));
        };
        if to != me {
            return Err(LinkFault::NotForMe(to));
        }
        if !self.holds(from) {
            return Err(LinkFault::NoLink(from));
        }
        Ok((from, message))
    }
}
