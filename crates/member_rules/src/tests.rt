//! Each public call on its happy path, and its faults in order.

ghost use Rattle.replica_log.specs.Window.{Fits};

use crate::{MemberFault, admit, join, remove, set_margin};
use group_quorum::Config;
use replica_log::Log;
use std::alloc::Global;
use std::test::Fail;
use values::{Body, LogEntry};

fn noop() -> LogEntry
    ensures { Fits result }
{
    LogEntry {
        term: 1,
        body: Body::Noop,
    }
}

/// A log under these voters and margin 1, with one entry that is committed.
fn log(alloc: Global, voters: &[u32]) -> Result<Log, Fail> {
    let mut log = Log::first(alloc, Config::new(voters, 1)?);
    log.push(noop())?;
    log.promise_to(1);
    log.commit_to(1);
    Ok(log)
}

#[test]
fn a_voter_more_or_less(rt: HostRuntime) -> Result<(), Fail> {
    let log = log(rt.alloc(), &[1, 2, 4, 5])?;
    join(&log, 3, true, 30)?;
    assert_eq!(rt; admit(&log, 3, 1)?.voters(), [1, 2, 3, 4, 5].as_slice());
    assert_eq!(rt; remove(&log, 2)?.voters(), [1, 4, 5].as_slice());
    assert_eq!(rt; set_margin(&log, 0)?.voters(), [1, 2, 4, 5].as_slice());
    assert_eq!(rt; set_margin(&log, 0)?.margin(), 0);
    Ok(())
}

#[test]
fn faults_in_order(rt: HostRuntime) -> Result<(), Fail> {
    let log = log(rt.alloc(), &[1, 2, 3])?;
    assert_eq!(rt; join(&log, 2, false, 31), Err(MemberFault::AlreadyVoter(2)));
    assert_eq!(rt; join(&log, 4, false, 31), Err(MemberFault::NoLink(4)));
    assert_eq!(rt; join(&log, 4, true, 31), Err(MemberFault::TooMany(32)));
    assert!(rt; matches!(admit(&log, 2, 0), Err(MemberFault::AlreadyVoter(2))));
    assert!(rt; matches!(admit(&log, 4, 0), Err(MemberFault::NotCaughtUp(0, 1))));
    assert!(rt; matches!(remove(&log, 4), Err(MemberFault::NotVoter(4))));
    assert!(rt; matches!(remove(&log, 3), Err(MemberFault::TooFew(2))));
    assert!(rt; matches!(set_margin(&log, 1), Err(MemberFault::SameMargin(1))));
    assert!(rt; matches!(set_margin(&log, 2), Err(MemberFault::TooFew(3))));
    Ok(())
}
