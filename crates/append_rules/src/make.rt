//! The append that a peer is sent.
ghost use Rattle.std.specs.Prelude.{◌≡◌, ◌≤◌, ◌<◌, ◌+◌, IfOk, OnErr};
ghost use Rattle.replica_model.specs.Linked.{sha_link};
ghost use Rattle.replica_log.specs.Window.{base_index, last_index};
ghost use Rattle.replica_log.specs.Models.{OfEach};
ghost use Rattle.append_rules.specs.Sent.{entries_at, append_of, after_append, MakesAppend};

use replica_log::Log;
use replica_model::{MAX_ENTRIES, Progress};
use std::alloc::Global;
use values::{Entries, LogEntry, Memory, PeerMsg, Point, TryCopy};

/// The append of a leader in its term to a peer: the entries from the peer's next one on, [`MAX_ENTRIES`] at most, after
/// the point before them. The peer's next entry then is the one after the last of them. `None` exactly where the hash
/// before its next entry is kept no more. After `Memory` nothing has changed.
pub fn make_append(
    alloc: Global,
    log: &Log,
    progress: &mut Progress,
    term: u64,
) -> Result<Option<PeerMsg>, Memory>
    requires next { (1 ≤ progress.old.next) × (progress.old.next ≤ last_index log.now + 1) }
    ensures append { IfOk result (λ append. append ≡ append_of log.now progress.old term) }
    ensures after { IfOk result (λ append. progress.new ≡ after_append log.now progress.old) }
    ensures err { OnErr result (progress.new ≡ progress.old) }
    ensures model { OfEach sha_link log.now (λ s. s.term ≡ term
        → IfOk result (λ append. MakesAppend s progress.old append progress.new)) }
{
    if progress.next <= log.base().index {
        return Ok(None);
    }
    let index = progress.next - 1;
    let Some(hash) = log.hash_at(index) else {
        unreachable!()
    };
    let entries = entries_from(alloc, log, progress.next)?;
    progress.next += entries.len() as u64;
    Ok(Some(PeerMsg::Append {
        term,
        prev: Point { index, hash },
        entries,
        promise: log.promised(),
        commit: log.committed(),
    }))
}

/// Copies of the entries from an index on, as many as one append holds.
fn entries_from(alloc: Global, log: &Log, next: u64) -> Result<Entries, Memory>
    requires base { base_index log.now < next }
    requires next { next ≤ last_index log.now + 1 }
    ensures { IfOk result (λ entries. entries ≡ entries_at log.now next) }
{
    let end = next.saturating_add(MAX_ENTRIES).min(log.last().index + 1);
    let mut entries = Vec::with_capacity(alloc, (end - next) as usize)?;
    for index in next..end {
        if let Some(entry) = log.entry_at(index) {
            entries.push(entry.copy(alloc)?)?;
        }
    }
    Ok(Entries::from(entries))
}
