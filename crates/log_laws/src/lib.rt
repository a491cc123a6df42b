//! What holds of every run of the group's model within the rollback bound.
//!
//! Each law is the contract of a function that does nothing. A run may lose, repeat and reorder messages, stop
//! replicas, start learners and send them tables, change the voters and the margin, save states and put them back.
#![tactic(auto)]

ghost use Rattle.log_laws.specs.OneLog.{RunsHaveOneLog};

use group_quorum::{counts_overlap, quorums_outlast};

/// The law that in every run within the rollback bound and without a collision each committed front of any replica,
/// after any call, is a front of the run's one log. It only names the laws of quorums.
pub fn one_log()
    ensures { RunsHaveOneLog }
{
    quorums_outlast();
    counts_overlap();
}
