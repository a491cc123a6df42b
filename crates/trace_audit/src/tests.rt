//! What an audit accepts and refuses, over a few lines each.
use crate::{Audit, AuditError, Audited, Why, audit_source};
use byte_streams::{MemSource, Source};
use record_rules::status::{MISSING, OK};
use std::alloc::Global;
use std::test::Fail;
use trace_lines::TraceLine;
use values::{BeginIds, Body, Bytes, ClientId, Event, Ids, LogEntry, Reply, Response};

const CLIENT: ClientId = ClientId([7; 16]);

/// A restore with a pin of 32 bytes, in canonical form.
const RESTORE: &[u8] = b"\x1a\x22\x0a\x20pppppppppppppppppppppppppppppppp";

/// A group of one voter, and of these replicas.
fn begin(alloc: Global, margin: u8, voters: &[u32]) -> Result<TraceLine, Fail> {
    let voters = BeginIds::from(Vec::from_slice(alloc, voters)?);
    let what = Event::Begin {
        margin,
        limit: 10,
        voters,
    };
    Ok(TraceLine::Event { number: 1, what })
}

fn members(alloc: Global, margin: u8, voters: &[u32]) -> Result<TraceLine, Fail> {
    let voters = Ids::from_slice(alloc, voters)?.ok_or("rising")?;
    Ok(TraceLine::Members { margin, voters })
}

fn roll(replica: u32) -> TraceLine {
    TraceLine::Event {
        number: 2,
        what: Event::Roll { replica, state: 0 },
    }
}

fn noop(index: u64, term: u64) -> TraceLine {
    TraceLine::Commit {
        replica: 1,
        index,
        entry: LogEntry {
            term,
            body: Body::Noop,
        },
    }
}

fn ask(alloc: Global, index: u64, number: u64) -> Result<TraceLine, Fail> {
    let request = Bytes::from_slice(alloc, RESTORE)?;
    Ok(TraceLine::Commit {
        replica: 1,
        index,
        entry: LogEntry {
            term: 2,
            body: Body::Ask {
                client: CLIENT,
                number,
                request,
            },
        },
    })
}

fn outcome(alloc: Global, index: u64, number: u64, status: u32) -> TraceLine {
    TraceLine::Outcome {
        client: CLIENT,
        number,
        index,
        reply: Reply::Applied(Response::Restore {
            status,
            secret: Bytes::from(Vec::new(alloc)),
            tries: 0,
        }),
    }
}

/// Tells the audit a line whose begin, if it is one, has a limit in range.
fn tell(audit: &mut Audit, line: TraceLine) -> Result<Result<(), AuditError>, Fail> {
    if let TraceLine::Event {
        what: Event::Begin { limit, .. },
        ..
    } = &line
        && (*limit < 1 || *limit > 20_000)
    {
        return Err("a begin out of range".into());
    }
    Ok(audit.line(line))
}

/// How many lines pass, and why the next one does not, or why the trace may not end there.
fn verdict(alloc: Global, lines: Vec<TraceLine>) -> Result<(usize, Option<Why>), Fail> {
    let mut audit = Audit::new(alloc);
    let len = lines.len();
    for (passed, line) in lines.into_iter().enumerate() {
        match tell(&mut audit, line)? {
            Ok(()) => {}
            Err(AuditError::Memory) => return Err("memory".into()),
            Err(AuditError::Wrong(why)) => return Ok((passed, Some(why))),
        }
    }
    Ok((len, audit.finish().err()))
}

/// A roll that is refused of a group that bears none, a request and its reply, and the closing lines.
fn trace(alloc: Global) -> Result<Vec<TraceLine>, Fail> {
    Ok(vec![in alloc;
        begin(alloc, 0, &[1])?,
        noop(1, 2),
        ask(alloc, 2, 1)?,
        outcome(alloc, 2, 1, MISSING),
        roll(1),
        TraceLine::Refused,
        TraceLine::LogEnd(2),
        TraceLine::Rollbacks(true),
        TraceLine::End,
    ]?)
}

/// That trace with another line at a place.
fn with_line(alloc: Global, place: usize, line: TraceLine) -> Result<Vec<TraceLine>, Fail> {
    let mut lines = trace(alloc)?;
    if let Some(at) = lines.get_mut(place) {
        *at = line;
    }
    Ok(lines)
}

#[test]
fn a_trace_is_accepted(rt: HostRuntime) -> Result<(), Fail> {
    assert_eq!(rt; verdict(rt.alloc(), trace(rt.alloc())?)?, (9, None));
    assert_eq!(rt;
        verdict(rt.alloc(), Vec::new(rt.alloc()))?,
        (0, Some(Why::End))
    );
    Ok(())
}

#[test]
fn another_line_is_refused(rt: HostRuntime) -> Result<(), Fail> {
    let alloc = rt.alloc();
    let cases = vec![in alloc;
        (0, TraceLine::Other, (1, Some(Why::Commit))),
        (0, members(alloc, 0, &[1])?, (0, Some(Why::Grammar))),
        (1, begin(alloc, 0, &[1])?, (1, Some(Why::Grammar))),
        // an index that is left out, an entry told again, another entry at its place
        (2, noop(3, 2), (2, Some(Why::Commit))),
        (3, noop(1, 2), (9, None)),
        (3, noop(1, 3), (3, Some(Why::Commit))),
        // another reply, another place, another number
        (3, outcome(alloc, 2, 1, OK), (3, Some(Why::Outcome))),
        (3, outcome(alloc, 1, 1, MISSING), (3, Some(Why::Outcome))),
        (3, outcome(alloc, 2, 2, MISSING), (3, Some(Why::Outcome))),
        // the roll was not refused
        (5, TraceLine::Other, (7, Some(Why::Rollbacks))),
        (6, TraceLine::LogEnd(3), (6, Some(Why::Log))),
        (6, TraceLine::Stopped, (7, Some(Why::End))),
        (7, TraceLine::Rollbacks(false), (7, Some(Why::Rollbacks))),
        // a closing line twice, and a line behind the log's length
        (7, TraceLine::LogEnd(2), (7, Some(Why::End))),
        (8, TraceLine::Rollbacks(true), (8, Some(Why::End))),
        (8, TraceLine::Other, (8, Some(Why::End))),
    ]?;
    for (place, line, expected) in cases {
        let lines = with_line(alloc, place, line)?;
        assert_eq!(rt; verdict(alloc, lines)?, expected);
    }
    Ok(())
}

/// A group whose begin bears two rolls, and which told of a configuration that bears none before replica 2 was rolled back.
fn rolled(alloc: Global, within: bool) -> Result<Vec<TraceLine>, Fail> {
    Ok(vec![in alloc;
        begin(alloc, 1, &[1, 2, 3])?,
        members(alloc, 0, &[1, 2])?,
        roll(2),
        TraceLine::LogEnd(0),
        TraceLine::Rollbacks(within),
    ]?)
}

#[test]
fn rolls_are_within_the_bound_of_each_configuration(rt: HostRuntime) -> Result<(), Fail> {
    let alloc = rt.alloc();
    assert_eq!(rt;
        verdict(alloc, rolled(alloc, true)?)?,
        (4, Some(Why::Rollbacks))
    );
    // it does not end there
    assert_eq!(rt; verdict(alloc, rolled(alloc, false)?)?, (5, Some(Why::End)));
    Ok(())
}

/// The trace of a group of one, which took a backup.
const TRACE: &[u8] = b"event,1,begin,0,100,1
event,2,tick,1
lead,1,1
commit,1,1,1,noop
event,3,ask,1,00000000000000000000000000000001,1,12360a10aaaaaaaaaaaaaaaaaaaaaaaaaaaaaaaa122011111111111111111111111111111111111111111111111111111111111111111803
commit,1,2,1,ask,00000000000000000000000000000001,1,12360a10aaaaaaaaaaaaaaaaaaaaaaaaaaaaaaaa122011111111111111111111111111111111111111111111111111111111111111111803
answer,1,1,00000000000000000000000000000001,1,outcome,2,done,0a020801
log,2
rollbacks,within
end,3,0,1
";

/// A source of bytes that come by seven.
fn source_of(alloc: Global, text: &[u8]) -> Result<MemSource, Fail> {
    Ok(MemSource::new(text.to_vec(alloc)?, 7, Vec::new(alloc)))
}

#[test]
fn a_source_is_audited_to_its_end_or_to_the_line_that_is_refused(
    rt: HostRuntime,
) -> Result<(), Fail> {
    let alloc = rt.alloc();
    let cases: Vec<(&[u8], Audited)> = vec![in alloc;
        (TRACE, Audited::Accepts(10)),
        (b"", Audited::Refuses(1, Why::End)),
        (b"event,1,begin,0,100,1\n", Audited::Refuses(2, Why::End)),
        // the last line lacks its line feed
        (b"event,1,begin,0,100,1\nlog,0", Audited::Refuses(2, Why::Grammar)),
        // a leading zero, and an upper-case digit
        (b"event,1,begin,0,0100,1\n", Audited::Refuses(1, Why::Grammar)),
        (
            b"event,1,begin,0,100,1\nevent,2,ask,1,0000000000000000000000000000000A,1,2200\n",
            Audited::Refuses(2, Why::Grammar),
        ),
    ]?;
    for (text, expected) in cases {
        assert_eq!(rt; audit_source(alloc, &mut source_of(alloc, text)?), expected);
    }
    Ok(())
}

#[test]
fn the_rest_is_not_read(rt: HostRuntime) -> Result<(), Fail> {
    let alloc = rt.alloc();
    let mut source = source_of(
        alloc,
        b"event,1,begin,0,100,1\nlog,1\nrollbacks,within\nend,1,0,0\n",
    )?;
    assert_eq!(rt;
        audit_source(alloc, &mut source),
        Audited::Refuses(2, Why::Log)
    );
    assert_eq!(rt; source.left(), b"rollbacks,within\nend,1,0,0\n".as_slice());
    let mut failing = MemSource::new(TRACE.to_vec(alloc)?, 7, vec![in alloc; 3]?);
    assert_eq!(rt; audit_source(alloc, &mut failing), Audited::ReadFault);
    Ok(())
}
