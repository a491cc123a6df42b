use crate::{LineError, TraceLine, read_line};
use std::alloc::Global;
use std::test::Fail;

/// Lines of the forms, with what they say.
const GOOD: [(&'static str, &'static str); 45] = [
    ("event,1,begin,1,20000,3,1,2", "event"),
    ("event,2,tick,1", "event"),
    (
        "event,3,ask,1,000102030405060708090a0b0c0d0e0f,1,2200",
        "event",
    ),
    (
        "event,18446744073709551615,want,000102030405060708090a0b0c0d0e0f,delete",
        "event",
    ),
    ("refused,notleader,18446744073709551615", "refused"),
    ("refused,changepending,2,1", "refused"),
    ("refused,nostate,1", "refused"),
    ("refused,clientbusy", "refused"),
    ("refused,size,data,15", "refused"),
    ("lead,65535,4611686018427387904", "other"),
    ("members,1,2,0,1", "members"),
    ("members,1,2,1,1,2,65535", "members"),
    (
        "halt,1,2,0000000000000000000000000000000000000000000000000000000000000000,abcdef0000000000000000000000000000000000000000000000000000000000",
        "other",
    ),
    (
        "taken,1,2,0000000000000000000000000000000000000000000000000000000000000000",
        "other",
    ),
    ("commit,7,3,2,noop", "commit"),
    (
        "commit,7,3,2,ask,000102030405060708090a0b0c0d0e0f,1,2200",
        "commit",
    ),
    ("commit,7,3,2,members,0,9", "commit"),
    (
        "answer,1,7,000102030405060708090a0b0c0d0e0f,1,outcome,2,done,0a020801",
        "outcome",
    ),
    (
        "answer,1,7,000102030405060708090a0b0c0d0e0f,1,outcome,2,done,1a00",
        "outcome",
    ),
    (
        "answer,1,7,000102030405060708090a0b0c0d0e0f,1,outcome,2,stale,3",
        "outcome",
    ),
    (
        "answer,1,7,000102030405060708090a0b0c0d0e0f,1,outcome,2,full,4294967295",
        "outcome",
    ),
    (
        "answer,1,7,000102030405060708090a0b0c0d0e0f,1,notleader,0",
        "other",
    ),
    (
        "answer,1,7,000102030405060708090a0b0c0d0e0f,1,busy,5",
        "other",
    ),
    (
        "answer,1,7,000102030405060708090a0b0c0d0e0f,1,malformed,5",
        "other",
    ),
    (
        "answer,1,7,000102030405060708090a0b0c0d0e0f,1,invalid,pin,5",
        "other",
    ),
    (
        "answer,1,7,000102030405060708090a0b0c0d0e0f,1,halted,5",
        "other",
    ),
    ("sent,1,2,3,askvote,1,2,3", "other"),
    ("sent,1,2,3,vote,1,0", "other"),
    ("sent,1,2,3,append,1,2,3,4,5", "other"),
    ("sent,1,2,3,accepted,1,2,3", "other"),
    ("sent,1,2,3,rejected,1,2,3", "other"),
    ("sent,1,2,3,part,1,2,3,4,4294967295", "other"),
    ("sent,1,2,3,parttaken,1,2,3", "other"),
    ("saved,1,0", "other"),
    ("client,000102030405060708090a0b0c0d0e0f,stored", "other"),
    (
        "client,000102030405060708090a0b0c0d0e0f,recovered,,3",
        "other",
    ),
    ("client,000102030405060708090a0b0c0d0e0f,full,3", "other"),
    ("log,18446744073709551615", "log"),
    ("rollbacks,within", "within"),
    ("rollbacks,exceeded", "exceeded"),
    ("end,1,2,3", "end"),
    ("stopped,schedule,3,word,1", "stopped"),
    ("stopped,limit,clients", "stopped"),
    ("stopped,frame", "stopped"),
    ("event,4,hear,000102030405060708090a0b0c0d0e0f,1", "event"),
];

/// Lines of none.
const BAD: [&'static str; 33] = [
    "",
    ",",
    "event",
    "Event,1,tick,1",
    "event,1,settle,3",
    "event,1,again,000102030405060708090a0b0c0d0e0f",
    "event,1,#",
    "event,1,tick,01",
    "event,1,tick,65536",
    "event,1,tick,1,",
    "event,01,tick,1",
    "event,1,ask,1,000102030405060708090A0B0C0D0E0F,1,2200",
    "event,1,begin,1,20000,1,2",
    "lead,0,1",
    "lead,65536,1",
    "lead,1,4611686018427387905",
    "lead,1,2,3",
    "lead,1",
    "members,1,2,0",
    "members,1,2,0,2,1",
    "members,1,2,1,1,2",
    "members,1,2,16,1",
    "taken,1,2,00000000000000000000000000000000000000000000000000000000000000000",
    "commit,7,3,2,noop,",
    "commit,7,4611686018427387905,2,noop",
    "commit,7,3,2,ask,000102030405060708090a0b0c0d0e0f,1,220a",
    "commit,7,3,2,ask,000102030405060708090a0b0c0d0e0f,1,22800000",
    "answer,1,7,000102030405060708090a0b0c0d0e0f,1,outcome,2,done,0a03088100",
    "answer,1,7,000102030405060708090a0b0c0d0e0f,1,outcome,2,full,4294967296",
    "sent,1,2,3,vote,1,2",
    "refused,nothing,1",
    "end,1,2",
    "stopped,limit,bytes",
];

/// What a line says, in a word.
fn said(alloc: Global, line: &str) -> Result<&'static str, Fail> {
    Ok(match read_line(alloc, line.as_bytes()) {
        Ok(TraceLine::Event { .. }) => "event",
        Ok(TraceLine::Commit { .. }) => "commit",
        Ok(TraceLine::Outcome { .. }) => "outcome",
        Ok(TraceLine::Members { .. }) => "members",
        Ok(TraceLine::Refused) => "refused",
        Ok(TraceLine::LogEnd(_)) => "log",
        Ok(TraceLine::Rollbacks(true)) => "within",
        Ok(TraceLine::Rollbacks(false)) => "exceeded",
        Ok(TraceLine::End) => "end",
        Ok(TraceLine::Stopped) => "stopped",
        Ok(TraceLine::Other) => "other",
        Err(LineError::Grammar) => "grammar",
        Err(LineError::Memory) => "memory",
    })
}

#[test]
fn each_form_is_read(rt: HostRuntime) -> Result<(), Fail> {
    for (line, what) in GOOD {
        assert_eq!(rt; said(rt.alloc(), line)?, what);
    }
    Ok(())
}

#[test]
fn near_misses_are_refused(rt: HostRuntime) -> Result<(), Fail> {
    for line in BAD {
        assert_eq!(rt; said(rt.alloc(), line)?, "grammar");
    }
    Ok(())
}
