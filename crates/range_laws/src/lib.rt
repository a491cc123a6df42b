//! What is in range in every run of a group: all that a replica holds and tells.
//!
//! Laws alone. Each function is empty, and its contract is the law.
#![tactic(auto)]

ghost use Rattle.replica_model.specs.Linked.{sha_link};
ghost use Rattle.trace_model.specs.Hashing.{GivesHashes};
ghost use Rattle.range_laws.specs.Laws.{CallsInRange, BytesTellCollisions};

use hash_chain::bytes_tell_inputs;
use replica_model::bytes_tell_bodies;

/// The law that the program's own link gives hashes of 32 bytes.
pub fn own_link_gives_hashes()
    ensures { GivesHashes sha_link }
{}

/// The law that every call of every run is in range: the state that it leaves, its messages and its batch; where the
/// events are, of which there are no more than a schedule may have, over every link function that gives hashes of 32
/// bytes.
pub fn calls_are_in_range()
    ensures { CallsInRange }
{}

/// The law that in such a run, over the program's own link, entries do not collide where the bytes that are hashed do
/// not: so the premise of the laws of runs is that SHA-256 does not collide. It only names the laws below.
pub fn bytes_tell_collisions()
    ensures { BytesTellCollisions }
{
    bytes_tell_inputs();
    bytes_tell_bodies();
}
