//! Each public call on its happy path, and the rows of appends.
ghost use Rattle.std.specs.Prelude.{◌≡◌, IfOk};
ghost use Rattle.replica_log.specs.Window.{Fits, last_index};

use crate::{Progress, Taken, make_append, take_accepted, take_append, take_rejected};
use group_quorum::Config;
use replica_log::Log;
use std::alloc::Global;
use std::test::Fail;
use values::{Body, Entries, Hash, LogEntry, PeerMsg, Point};

fn noop(term: u64) -> LogEntry
    ensures { Fits result }
{
    LogEntry {
        term,
        body: Body::Noop,
    }
}

/// Entries of the terms 1, 1 and 2, of which the first is promised.
fn three_entries(alloc: Global) -> Result<Log, Fail>
    ensures { IfOk result (λ log. last_index log ≡ 3) }
{
    let mut log = Log::first(alloc, Config::new(&[1, 2, 3], 0)?);
    log.push(noop(1))?;
    log.push(noop(1))?;
    log.push(noop(2))?;
    log.promise_to(1);
    Ok(log)
}

#[test]
fn promise_and_commit_rise_to_what_was_offered(rt: HostRuntime) -> Result<(), Fail> {
    let mut log = three_entries(rt.alloc())?;
    let end = log.last();
    let taken = take_append(&mut log, 2, end, &[], 9, 9)?;
    let reply = PeerMsg::Accepted {
        term: 2,
        end,
        promised: 3,
    };
    assert_eq!(rt; taken, Taken::Replied { reply, cut: None });
    assert_eq!(rt; log.promised(), 3);
    assert_eq!(rt; log.committed(), 3);
    Ok(())
}

#[test]
fn what_differs_is_refused_or_halts(rt: HostRuntime) -> Result<(), Fail> {
    let mut log = three_entries(rt.alloc())?;
    let hash = Hash([7; 32]);
    let taken = take_append(&mut log, 3, Point { index: 3, hash }, &[], 0, 0)?;
    let reply = PeerMsg::Rejected {
        term: 3,
        asked: 3,
        hint: 1,
    };
    assert_eq!(rt; taken, Taken::Replied { reply, cut: None });
    let taken = take_append(&mut log, 3, Point { index: 1, hash }, &[], 0, 0)?;
    let conflict = Taken::Conflict {
        index: 1,
        kept: log.hash_at(1).ok_or("kept")?,
        offered: hash,
    };
    assert_eq!(rt; taken, conflict);
    Ok(())
}

#[test]
fn a_peer_is_sent_what_it_lacks(rt: HostRuntime) -> Result<(), Fail> {
    let log = three_entries(rt.alloc())?;
    let mut progress = Progress {
        next: 4,
        mark: 0,
        promised: 0,
    };
    assert!(rt; take_rejected(&log, &mut progress, 1));
    assert_eq!(rt; progress.next, 2);
    let hash = log.hash_at(1).ok_or("kept")?;
    let mut entries = Entries::new(rt.alloc());
    entries.push(noop(1))?;
    entries.push(noop(2))?;
    let append = PeerMsg::Append {
        term: 2,
        prev: Point { index: 1, hash },
        entries,
        promise: 1,
        commit: 0,
    };
    assert_eq!(rt;
        make_append(rt.alloc(), &log, &mut progress, 2)?,
        Some(append)
    );
    assert!(rt;
        !take_accepted(
            &log,
            &mut progress,
            Point {
                index: 3,
                hash: Hash([0; 32])
            },
            2
        )
    );
    assert!(rt; take_accepted(&log, &mut progress, log.last(), 2));
    let known = Progress {
        next: 4,
        mark: 3,
        promised: 2,
    };
    assert_eq!(rt; progress, known);
    Ok(())
}
