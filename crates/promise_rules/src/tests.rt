//! Each public call on its happy path, and the rows of greatest indices.
ghost use Rattle.std.specs.Prelude.{◌≡◌, ◌≤◌, IfOk};
ghost use Rattle.replica_log.specs.Window.{Fits, last_index};

use crate::{raise_commit, raise_promise};
use group_quorum::Config;
use replica_log::Log;
use std::alloc::Global;
use std::test::Fail;
use values::{Body, LogEntry};

fn noop(term: u64) -> LogEntry
    ensures { Fits result }
{
    LogEntry {
        term,
        body: Body::Noop,
    }
}

/// A log of five entries of term 1 under these voters.
fn five_entries(alloc: Global, voters: &[u32], margin: u8) -> Result<Log, Fail>
    requires { margin ≤ 15 }
    ensures { IfOk result (λ log. last_index log ≡ 5) }
{
    let mut log = Log::first(alloc, Config::new(voters, margin)?);
    log.push(noop(1))?;
    log.push(noop(1))?;
    log.push(noop(1))?;
    log.push(noop(1))?;
    log.push(noop(1))?;
    Ok(log)
}

#[test]
fn commits_up_to_its_own_promise(rt: HostRuntime) -> Result<(), Fail> {
    let mut log = five_entries(rt.alloc(), &[1, 2, 3, 4, 5], 0)?;
    log.promise_to(1);
    let promises = [(1, 1), (2, 3), (3, 3), (4, 3)];
    assert!(rt; raise_commit(&mut log, &promises));
    assert_eq!(rt; log.committed(), 1);
    assert!(rt; !raise_commit(&mut log, &promises));
    Ok(())
}

#[test]
fn promises_what_a_quorum_has_accepted(rt: HostRuntime) -> Result<(), Fail> {
    let mut log = five_entries(rt.alloc(), &[1, 2, 3, 4, 5], 1)?;
    let marks = [(1, 5), (2, 4), (3, 4), (4, 3)];
    assert!(rt; !raise_promise(&mut log, 2, &marks));
    assert!(rt; raise_promise(&mut log, 1, &marks));
    assert_eq!(rt; log.promised(), 3);
    assert!(rt; !raise_promise(&mut log, 1, &marks));
    Ok(())
}
