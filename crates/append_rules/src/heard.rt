//! What a leader makes of a reply to an append.
ghost use Rattle.std.specs.Prelude.{◌≡◌, ◌<◌, if◌then◌else◌};
ghost use Rattle.replica_model.specs.Linked.{sha_link};
ghost use Rattle.replica_model.specs.Graft.{matches as model_matches};
ghost use Rattle.replica_model.specs.Heard.{accepted_upto};
ghost use Rattle.replica_log.specs.Window.{last_index, matches};
ghost use Rattle.replica_log.specs.Models.{OfEach};
ghost use Rattle.append_rules.specs.Replies.{is_sent_anew, next_after, HearsRejected};

use replica_log::Log;
use replica_model::Progress;
use values::Point;

/// Hears that a peer has accepted the log up to a point and promised it up to an index. False, and nothing is changed,
/// exactly where the log does not match the point; else what is known of the peer never falls.
pub fn take_accepted(log: &Log, progress: &mut Progress, end: Point, promised: u64) -> bool
    ensures answer { result ≡ matches sha_link log.now end }
    ensures after { progress.new ≡ (if result then accepted_upto progress.old end.index promised else progress.old) }
    ensures model { OfEach sha_link log.now (λ s. result ≡ model_matches sha_link s end) }
{
    if !log.matches(end) {
        return false;
    }
    progress.next = progress.next.max(end.index + 1);
    progress.mark = progress.mark.max(end.index);
    progress.promised = progress.promised.max(promised.min(end.index));
    true
}

/// Hears that a peer lacks what follows the hint, or what follows the log's last index, and answers whether it is to be
/// sent an append anew. Nothing is changed where the hint is below the base or the entry after it is the peer's next
/// one already.
pub fn take_rejected(log: &Log, progress: &mut Progress, hint: u64) -> bool
    ensures answer { result ≡ is_sent_anew log.now progress.old hint }
    ensures after { progress.new ≡ (if result then record (progress.old) { next = next_after log.now hint } else progress.old) }
    ensures model { OfEach sha_link log.now (λ s. HearsRejected s progress.old hint result progress.new) }
{
    if hint < log.base().index {
        return false;
    }
    let next = hint.min(log.last().index) + 1;
    if next == progress.next {
        return false;
    }
    progress.next = next;
    true
}
