use crate::table_tests::{command_row, outcome, outcome_over};
use group_world::{EchoField, ScriptField};
use std::test::Fail;
use svr_base::Bytes;

const SCHEDULE: &str = "begin,0,100,1\ntick,1\ntick,1\n";

/// Its lines, as a group of one leads at its first tick.
const LINES: &str =
    "event,1,begin,0,100,1\nevent,2,tick,1\nlead,1,1\ncommit,1,1,1,noop\nevent,3,tick,1\nlog,1\nrollbacks,within\nend,3,0,0\n";

#[test]
fn a_group_over_a_field_in_memory_ends_as_a_replay(rt: HostRuntime) -> Result<(), Fail> {
    for words in ["replay", "group --program ./svr2", "group --program="] {
        let row = command_row(words, SCHEDULE, 0, LINES);
        let (status, written) = outcome(rt.alloc(), &row)?;
        assert_eq!(rt; status.code(), row.code);
        assert_eq!(rt; written.as_slice(), row.written.as_bytes());
    }
    Ok(())
}

#[test]
fn a_field_that_fails_ends_a_group_alone(rt: HostRuntime) -> Result<(), Fail> {
    let rows = [
        command_row(
            "group --program ./svr2",
            SCHEDULE,
            6,
            "event,1,begin,0,100,1\n",
        ),
        command_row("replay", SCHEDULE, 0, LINES),
    ];
    for row in &rows {
        let field = ScriptField::new(rt.alloc(), vec![in rt.alloc(); 2]?);
        let (status, written) = outcome_over(rt.alloc(), row, field)?;
        assert_eq!(rt; status.code(), row.code);
        assert_eq!(rt; written.as_slice(), row.written.as_bytes());
    }
    Ok(())
}

#[test]
fn an_answer_that_is_no_batch_ends_a_group(rt: HostRuntime) -> Result<(), Fail> {
    let mut contents = Vec::new(rt.alloc());
    contents.push(Bytes::from_slice(rt.alloc(), b"")?)?;
    contents.push(Bytes::from_slice(rt.alloc(), b"\x0a\0\0\0\0")?)?;
    let row = command_row(
        "group --program ./svr2",
        SCHEDULE,
        8,
        "event,1,begin,0,100,1\nevent,2,tick,1\nstopped,frame\n",
    );
    let (status, written) = outcome_over(rt.alloc(), &row, EchoField::new(contents))?;
    assert_eq!(rt; status.code(), row.code);
    assert_eq!(rt; written.as_slice(), row.written.as_bytes());
    Ok(())
}

#[test]
fn group_needs_its_program(rt: HostRuntime) -> Result<(), Fail> {
    let row = command_row("group", SCHEDULE, 2, "");
    let (status, written) = outcome(rt.alloc(), &row)?;
    assert_eq!(rt; status.code(), row.code);
    assert_eq!(rt; written.as_slice(), row.written.as_bytes());
    Ok(())
}
