//! The four changes.
ghost use Rattle.std.specs.Prelude.{◌≡◌, ◌≤◌, length, IfErr};
ghost use Rattle.values.specs.declared.limits.TheConstants.{TOP};
ghost use Rattle.group_quorum.specs.Voters.{IsId};
ghost use Rattle.replica_model.specs.Linked.{sha_link};
ghost use Rattle.replica_model.specs.Replica.{Leading};
ghost use Rattle.replica_model.specs.Peers.{newest};
ghost use Rattle.replica_model.specs.Changes.{join_refusal, learner_mark, admit_refusal, with_voter, remove_refusal, without_voter, margin_refusal};
ghost use Rattle.replica_log.specs.Models.{OfEach};
ghost use Rattle.member_rules.specs.Faults.{join_of, admit_of, remove_of, margin_of};
ghost use Rattle.member_rules.specs.Refusals.{Refuses, RefusesOr};
ghost use Rattle.member_rules.specs.Standings.{standing_of};
ghost use Rattle.member_rules.specs.InRange.{IsFaultInRange};

use crate::fault::MemberFault;
use crate::standing::Standing;
use group_quorum::Config;
use replica_log::Log;
use values::ReplicaId;

/// Whether an id may join as a learner, where so many learn already: no voter, an id with a link, and no learner too
/// many. The faults are tried in this order.
pub fn join(log: &Log, id: ReplicaId, linked: bool, learners: u32) -> Result<(), MemberFault>
    ensures faults { result ≡ join_of (standing_of log.now) id linked learners }
    ensures model { OfEach sha_link log.now (λ s. (l : Leading) → length l.learners ≡ learners
        → Refuses result (join_refusal s l id linked)) }
    ensures range { IfErr result IsFaultInRange }
{
    Standing::of(log).join(id, linked, learners)
}

/// The newest configuration with a learner as one more voter. Its mark is that up to which it has accepted the log; of
/// an id that does not learn it is 0, and is refused even where nothing is committed.
///
/// The faults are tried in this order: the log is full, a change is pending, the id is a voter, too many voters, not
/// caught up.
pub fn admit(log: &Log, id: ReplicaId, mark: u64) -> Result<Config, MemberFault>
    requires { IsId id }
    ensures faults { result ≡ admit_of (standing_of log.now) id mark }
    ensures model { OfEach sha_link log.now (λ s. (l : Leading) → learner_mark l id ≡ mark
        → RefusesOr result (admit_refusal s l id) (with_voter (newest s) id)) }
    ensures range { mark ≤ TOP → IfErr result IsFaultInRange }
{
    Standing::of(log).admit(id, mark)
}

/// The newest configuration without a voter.
///
/// The faults are tried in this order: the log is full, a change is pending, the id is no voter, too few voters.
pub fn remove(log: &Log, id: ReplicaId) -> Result<Config, MemberFault>
    ensures faults { result ≡ remove_of (standing_of log.now) id }
    ensures model { OfEach sha_link log.now (λ s. RefusesOr result (remove_refusal s id) (without_voter (newest s) id)) }
    ensures range { IfErr result IsFaultInRange }
{
    Standing::of(log).remove(id)
}

/// The voters of the newest configuration under another margin.
///
/// The faults are tried in this order: the log is full, a change is pending, the same margin, too few voters.
pub fn set_margin(log: &Log, margin: u8) -> Result<Config, MemberFault>
    requires { margin ≤ 15 }
    ensures faults { result ≡ margin_of (standing_of log.now) margin }
    ensures model { OfEach sha_link log.now (λ s.
        RefusesOr result (margin_refusal s margin) (record (newest s) { margin = margin })) }
    ensures range { IfErr result IsFaultInRange }
{
    Standing::of(log).set_margin(margin)
}
