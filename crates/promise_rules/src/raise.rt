//! Raising the promised and the committed index.
ghost use Rattle.std.specs.Prelude.{◌≡◌, length, nat_lt};
ghost use Rattle.replica_model.specs.Linked.{sha_link};
ghost use Rattle.replica_model.specs.Replica.{Leading};
ghost use Rattle.replica_model.specs.Raise.{accepted_mark, promised_mark, promise_index, commit_index};
ghost use Rattle.replica_log.specs.Window.{promised_to, committed_to};
ghost use Rattle.replica_log.specs.Models.{OfEach, StandsFor};
ghost use Rattle.promise_rules.specs.Raising.{promised_by, committed_by, AreMarks, PromisesAreTheModels, CommitsAreTheModels};

use crate::greatest::greatest_enough;
use group_quorum::voters_decide;
use replica_log::{Log, configs_are_the_models, indices_are_the_models, terms_are_the_models};
use replica_model::voters_counted_are;

/// Raises the promised index to the greatest index of an entry of the leader's term for which the voters' marks are
/// enough, where that is higher, and answers whether it rose. A mark says up to where a voter has accepted the log; the
/// leader's own is its last index. A voter without a mark has 0.
///
/// So an entry of an older term is promised only below one of the leader's own, as Raft commits it (Ongaro, "Consensus:
/// Bridging Theory and Practice", 2014, chapter 3).
pub fn raise_promise(log: &mut Log, term: u64, marks: &[(u32, u64)]) -> bool
    ensures greatest { log.new ≡ promised_to log.old (promised_by log.old term marks.now) }
    ensures rose { result ≡ nat_lt log.old.promised log.new.promised }
    ensures model { OfEach sha_link log.old (λ s. (l : Leading) → s.term ≡ term
        → AreMarks s s.promised (length s.path) marks.now (accepted_mark s l)
        → StandsFor sha_link log.new (record s { promised = promise_index s l })) }
{
    indices_by_marks_are_the_models();
    let had = log.promised();
    let index = greatest_enough(log, Some(term), marks, had, log.last().index);
    log.promise_to(index);
    index > had
}

/// Raises the committed index to the greatest index up to the promised one for which what the voters have promised is
/// enough, where that is higher, and answers whether it rose. The leader's own promise is one of them. A voter without
/// one has promised nothing.
pub fn raise_commit(log: &mut Log, promises: &[(u32, u64)]) -> bool
    ensures greatest { log.new ≡ committed_to log.old (committed_by log.old promises.now) }
    ensures rose { result ≡ nat_lt log.old.committed log.new.committed }
    ensures model { OfEach sha_link log.old (λ s. (l : Leading)
        → AreMarks s s.committed s.promised promises.now (promised_mark s l)
        → StandsFor sha_link log.new (record s { committed = commit_index s l })) }
{
    indices_by_marks_are_the_models();
    let had = log.committed();
    let index = greatest_enough(log, None, promises, had, log.promised());
    log.commit_to(index);
    index > had
}

/// The law that the indices which marks make of a log are those of each model replica for which it stands. It only names
/// the laws of the log and of those who count.
fn indices_by_marks_are_the_models()
    ensures promised { PromisesAreTheModels }
    ensures committed { CommitsAreTheModels }
{
    voters_decide();
    voters_counted_are();
    indices_are_the_models();
    terms_are_the_models();
    configs_are_the_models();
}
