ghost use Rattle.std.specs.Prelude.{◌≡◌, IfOk};
ghost use Rattle.replica_log.specs.Window.{Fits, last_index};

use crate::{Configs, Graft, Log};
use group_quorum::Config;
use std::alloc::Global;
use std::test::Fail;
use values::{Body, Bytes, ClientId, Hash, Ids, LogEntry, Memory, Point};

// The hash of a configuration at index 1 and of an ask after it, by another implementation of SHA-256.
const MEMBERS_HASH: Hash = Hash([
    0xc7, 0x44, 0xa6, 0x93, 0xa0, 0x03, 0xe3, 0xee, 0xc1, 0x04, 0x58, 0x1f, 0x2b, 0xae, 0xd4, 0xd3,
    0xca, 0xe9, 0x90, 0x40, 0x1a, 0xe7, 0x84, 0x6b, 0x82, 0x3c, 0xa3, 0xd8, 0x92, 0x83, 0xad, 0x7d,
]);

const ASK_HASH: Hash = Hash([
    0xce, 0x20, 0xb2, 0x3d, 0x13, 0x03, 0x84, 0x30, 0xd2, 0x15, 0x40, 0x1e, 0x68, 0x5c, 0xf1, 0x9e,
    0xf6, 0x9d, 0x1d, 0xb0, 0x8f, 0xe6, 0x99, 0xf8, 0x42, 0x47, 0x8a, 0x12, 0xf2, 0x72, 0xdc, 0xcf,
]);

fn noop(term: u64) -> LogEntry
    ensures { Fits result }
{
    LogEntry {
        term,
        body: Body::Noop,
    }
}

/// Entries of the terms 1, 1 and 2, of which the first is promised.
fn three_entries(alloc: Global) -> Result<Log, Fail>
    ensures { IfOk result (λ log. last_index log ≡ 3) }
{
    let mut log = Log::first(alloc, Config::new(&[1, 2, 3], 0)?);
    log.push(noop(1))?;
    log.push(noop(1))?;
    log.push(noop(2))?;
    log.promise_to(1);
    Ok(log)
}

#[test]
fn unpromised_entries_are_replaced(rt: HostRuntime) -> Result<(), Fail> {
    let mut log = three_entries(rt.alloc())?;
    let before = log.hash_at(2).ok_or("kept")?;
    let hash = log.hash_at(1).ok_or("kept")?;
    let graft = log.graft(Point { index: 1, hash }, &[noop(3)])?;
    let end = log.last();
    let cut = Some((2, before, end.hash));
    assert_eq!(rt; graft, Graft::Grafted { end, cut });
    assert_eq!(rt; end.index, 2);
    assert!(rt; end.hash != before);
    assert_eq!(rt; log.last_term(), 3);
    assert_eq!(rt; log.term_at(1), Some(1));
    Ok(())
}

#[test]
fn a_promised_entry_stays(rt: HostRuntime) -> Result<(), Fail> {
    let mut log = three_entries(rt.alloc())?;
    let kept = log.hash_at(1).ok_or("kept")?;
    let end = log.last();
    let first = Hash(hash_chain::first());
    let graft = log.graft(
        Point {
            index: 0,
            hash: first,
        },
        &[noop(2)],
    )?;
    assert!(rt; matches!(&graft, Graft::Conflict { index: 1, kept: own, .. } if *own == kept));
    assert_eq!(rt; log.last(), end);
    Ok(())
}

#[test]
fn entries_that_do_not_join(rt: HostRuntime) -> Result<(), Fail> {
    let mut log = three_entries(rt.alloc())?;
    let end = log.last();
    let other = Hash([7; 32]);
    let above = log.graft(
        Point {
            index: 5,
            hash: end.hash,
        },
        &[],
    )?;
    assert_eq!(rt; above, Graft::Apart { hint: 3 });
    let beside = log.graft(
        Point {
            index: 3,
            hash: other,
        },
        &[],
    )?;
    assert_eq!(rt; beside, Graft::Apart { hint: 1 });
    assert_eq!(rt; log.last(), end);
    Ok(())
}

#[test]
fn entries_that_stand_already(rt: HostRuntime) -> Result<(), Fail> {
    let mut log = three_entries(rt.alloc())?;
    let end = log.last();
    let first = Hash(hash_chain::first());
    let graft = log.graft(
        Point {
            index: 0,
            hash: first,
        },
        &[noop(1), noop(1), noop(2), noop(2)],
    )?;
    let after = log.last();
    assert_eq!(rt;
        graft,
        Graft::Grafted {
            end: after,
            cut: None
        }
    );
    assert_eq!(rt; after.index, 4);
    assert!(rt; log.matches(end));
    Ok(())
}

#[test]
fn the_base_moves(rt: HostRuntime) -> Result<(), Fail> {
    let mut log = three_entries(rt.alloc())?;
    log.promise_to(3);
    log.commit_to(2);
    log.drop_below(2);
    assert_eq!(rt; log.base().index, 2);
    assert_eq!(rt; log.entry_at(2), None);
    assert_eq!(rt; log.entry_at(3), Some(&noop(2)));
    assert_eq!(rt; log.hash_at(1), None);
    assert_eq!(rt; log.term_at(2), Some(1));
    assert_eq!(rt; (log.promised(), log.committed()), (3, 2));
    assert_eq!(rt; log.copy()?.last(), log.last());
    Ok(())
}

#[test]
fn links_of_a_configuration_and_an_ask(rt: HostRuntime) -> Result<(), Fail> {
    let first = Config::new(&[1, 2, 3], 1)?;
    let mut log = Log::first(rt.alloc(), first);
    let voters = Ids::from_slice(rt.alloc(), &[1, 2])?.ok_or("rising")?;
    log.push(LogEntry {
        term: 7,
        body: Body::Members { margin: 0, voters },
    })?;
    assert_eq!(rt; log.last().hash, MEMBERS_HASH);
    log.push(LogEntry {
        term: 7,
        body: Body::Ask {
            client: ClientId([0xcc; 16]),
            number: 9,
            request: Bytes::from_slice(rt.alloc(), &[0x22, 0])?,
        },
    })?;
    assert_eq!(rt; log.last().hash, ASK_HASH);
    let newest = Config::new(&[1, 2], 0)?;
    assert_eq!(rt;
        log.configs_to(2),
        Configs {
            newest,
            newest_index: 1,
            older: first
        }
    );
    assert_eq!(rt;
        log.configs_to(0),
        Configs {
            newest: first,
            newest_index: 0,
            older: first
        }
    );
    Ok(())
}

#[test]
fn a_log_at_a_point(rt: HostRuntime) -> Result<(), Fail> {
    let config = Config::new(&[4], 0)?;
    let point = Point {
        index: 9,
        hash: Hash([9; 32]),
    };
    let mut log = Log::at(rt.alloc(), point, 5, config, 8);
    assert_eq!(rt; log.last(), point);
    assert_eq!(rt; log.last_term(), 5);
    assert_eq!(rt;
        (log.base(), log.promised(), log.committed()),
        (point, 9, 9)
    );
    assert_eq!(rt;
        log.configs_to(9),
        Configs {
            newest: config,
            newest_index: 8,
            older: config
        }
    );
    log.push(noop(6))?;
    assert_eq!(rt; log.last().index, 10);
    Ok(())
}
