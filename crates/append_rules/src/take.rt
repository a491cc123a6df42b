//! What a follower makes of an append.
ghost use Rattle.std.specs.Prelude.{◌≡◌, ◌≤◌, ◌+◌, IfOk, OnErr, length};
ghost use Rattle.std.specs.List.{AllByRecursion};
ghost use Rattle.values.specs.declared.limits.TheConstants.{TOP};
ghost use Rattle.replica_model.specs.Linked.{sha_link};
ghost use Rattle.replica_model.specs.Graft.{Offer};
ghost use Rattle.replica_log.specs.Window.{Fits};
ghost use Rattle.replica_log.specs.Models.{OfEach};
ghost use Rattle.append_rules.specs.Taken.{taken_of, after_offer, TakesOffer, HasTerms};

use replica_log::{Graft, Log};
use values::{Hash, LogEntry, Memory, PeerMsg, Point};

/// What comes of an append.
#[derive(Debug, Drop, PartialEq, Eq)]
pub enum Taken {
    /// It is answered: as accepted, or as rejected where it does not join the log.
    Replied {
        /// The reply to the leader.
        reply: PeerMsg,
        /// The first index whose entry was replaced, with the hash there before and after.
        cut: Option<(u64, Hash, Hash)>,
    },
    /// It differs from what is promised, and the replica halts. Nothing has changed.
    Conflict {
        /// The first index that differs.
        index: u64,
        /// The hash there.
        kept: Hash,
        /// The hash that is offered.
        offered: Hash,
    },
}

/// Takes an append of the replica's own term: the entries after a point, with the leader's promised and committed
/// index. Where they join the log they are grafted onto it, and promised and committed rise up to the last index that
/// was offered; where they differ from what is promised it halts. After `Memory` the log is as before.
pub fn take_append(
    log: &mut Log,
    term: u64,
    prev: Point,
    entries: &[LogEntry],
    promise: u64,
    commit: u64,
) -> Result<Taken, Memory>
    requires top { prev.index + length entries.now ≤ TOP }
    requires fit { AllByRecursion Fits entries.now }
    ensures taken { IfOk result (λ taken. taken ≡ taken_of log.old term prev entries.now promise) }
    ensures after { IfOk result (λ taken. log.new ≡ after_offer log.old prev entries.now promise commit) }
    ensures err { OnErr result (log.new ≡ log.old) }
    ensures model { OfEach sha_link log.old (λ s. (o : Offer) → HasTerms s o term prev entries.now promise commit
        → IfOk result (TakesOffer s o log.new)) }
{
    match log.graft(prev, entries)? {
        Graft::Grafted { end, cut } => {
            let offered = promise.min(end.index);
            log.promise_to(offered);
            log.commit_to(commit.min(offered));
            let promised = log.promised().min(end.index);
            let reply = PeerMsg::Accepted {
                term,
                end,
                promised,
            };
            Ok(Taken::Replied { reply, cut })
        }
        Graft::Apart { hint } => {
            let reply = PeerMsg::Rejected {
                term,
                asked: prev.index,
                hint,
            };
            Ok(Taken::Replied { reply, cut: None })
        }
        Graft::Conflict {
            index,
            kept,
            offered,
        } => Ok(Taken::Conflict {
            index,
            kept,
            offered,
        }),
    }
}
