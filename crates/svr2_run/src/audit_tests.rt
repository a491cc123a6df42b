use crate::{Status, run};
use group_world::LocalField;
use std::alloc::Global;
use std::process::Abort;
use std::test::Fail;
use svr_base::{MemSink, MemSource, Memory};

/// What `audit` answers to a trace, and the line that it writes.
#[derive(Clone, Copy)]
struct Row {
    trace: &'static str,
    /// The exit status.
    code: u8,
    verdict: &'static str,
}

fn audit_row(trace: &'static str, code: u8, verdict: &'static str) -> Row {
    Row {
        trace,
        code,
        verdict,
    }
}

fn outcome(alloc: Global, row: &Row) -> Result<(Status, Vec<u8>), Memory> {
    let mut words = Vec::new(alloc);
    words.push(String::from_str(alloc, "audit")?)?;
    let trace = Vec::from_slice(alloc, row.trace.as_bytes())?;
    let mut source = MemSource::new(trace, 100, Vec::new(alloc));
    let mut sink = MemSink::new(alloc, 100, Vec::new(alloc))?;
    let field = LocalField::new(alloc);
    let (status, _field) = run(alloc, words.as_slice(), &mut source, &mut sink, field);
    Ok((status, Vec::from_slice(alloc, sink.taken())?))
}

fn check(rt: &(impl Abort + AllocGlobal), rows: &[Row]) -> Result<(), Fail> {
    for row in rows {
        let (status, verdict) = outcome(rt.alloc(), row)?;
        assert_eq!(rt; status.code(), row.code);
        assert_eq!(rt; verdict.as_slice(), row.verdict.as_bytes());
    }
    Ok(())
}

#[test]
fn a_trace_that_keeps_one_log_is_accepted(rt: HostRuntime) -> Result<(), Fail> {
    let rows = [
        audit_row(
            "event,1,begin,0,100,1\nevent,2,tick,1\nlead,1,1\ncommit,1,1,1,noop\nevent,3,ask,1,00000000000000000000000000000001,1,12360a10aaaaaaaaaaaaaaaaaaaaaaaaaaaaaaaa122011111111111111111111111111111111111111111111111111111111111111111803\ncommit,1,2,1,ask,00000000000000000000000000000001,1,12360a10aaaaaaaaaaaaaaaaaaaaaaaaaaaaaaaa122011111111111111111111111111111111111111111111111111111111111111111803\nanswer,1,1,00000000000000000000000000000001,1,outcome,2,done,0a020801\nlog,2\nrollbacks,within\nend,3,0,1\n",
            0,
            "accept,10\n",
        ),
        audit_row(
            "event,1,begin,0,100,1\nevent,2,tick,1\nlead,1,1\ncommit,1,1,1,noop\ncommit,1,1,1,noop\nevent,3,ask,1,00000000000000000000000000000001,1,12360a10aaaaaaaaaaaaaaaaaaaaaaaaaaaaaaaa122011111111111111111111111111111111111111111111111111111111111111111803\ncommit,1,2,1,ask,00000000000000000000000000000001,1,12360a10aaaaaaaaaaaaaaaaaaaaaaaaaaaaaaaa122011111111111111111111111111111111111111111111111111111111111111111803\nanswer,1,1,00000000000000000000000000000001,1,outcome,2,done,0a020801\nlog,2\nrollbacks,within\nend,3,0,1\n",
            0,
            "accept,11\n",
        ),
        audit_row(
            "event,1,begin,0,100,1,2,3\nevent,2,tick,1\nsent,1,1,2,askvote,1,0,0\nsent,2,1,3,askvote,1,0,0\nevent,3,deliver,1\nsent,3,2,1,vote,1,1\nevent,4,deliver,2\nsent,4,3,1,vote,1,1\nevent,5,deliver,3\nlead,1,1\nsent,5,1,2,append,1,0,1,0,0\nsent,6,1,3,append,1,0,1,0,0\nevent,6,deliver,4\nevent,7,deliver,5\nsent,7,2,1,accepted,1,1,0\nevent,8,deliver,6\nsent,8,3,1,accepted,1,1,0\nevent,9,deliver,7\nsent,9,1,2,append,1,1,0,1,0\nsent,10,1,3,append,1,1,0,1,0\nevent,10,deliver,8\nevent,11,deliver,9\nsent,11,2,1,accepted,1,1,1\nevent,12,deliver,10\nsent,12,3,1,accepted,1,1,1\nevent,13,deliver,11\ncommit,1,1,1,noop\nsent,13,1,2,append,1,1,0,1,1\nsent,14,1,3,append,1,1,0,1,1\nevent,14,deliver,12\nevent,15,deliver,13\ncommit,2,1,1,noop\nsent,15,2,1,accepted,1,1,1\nevent,16,deliver,14\ncommit,3,1,1,noop\nsent,16,3,1,accepted,1,1,1\nevent,17,deliver,15\nevent,18,deliver,16\nevent,19,ask,1,00000000000000000000000000000001,1,12360a10aaaaaaaaaaaaaaaaaaaaaaaaaaaaaaaa122011111111111111111111111111111111111111111111111111111111111111111803\nsent,17,1,2,append,1,1,1,1,1\nsent,18,1,3,append,1,1,1,1,1\nevent,20,deliver,18\nsent,19,3,1,accepted,1,2,1\nevent,21,deliver,18\nsent,20,3,1,accepted,1,2,1\nevent,22,lose,17\nevent,23,deliver,17\nrefused,lost,17\nevent,24,deliver,20\nsent,21,1,2,append,1,2,0,2,1\nsent,22,1,3,append,1,2,0,2,1\nevent,25,deliver,19\nevent,26,deliver,22\nsent,23,3,1,accepted,1,2,2\nevent,27,deliver,23\ncommit,1,2,1,ask,00000000000000000000000000000001,1,12360a10aaaaaaaaaaaaaaaaaaaaaaaaaaaaaaaa122011111111111111111111111111111111111111111111111111111111111111111803\nanswer,1,1,00000000000000000000000000000001,1,outcome,2,done,0a020801\nsent,24,1,2,append,1,2,0,2,2\nsent,25,1,3,append,1,2,0,2,2\nevent,28,deliver,21\nsent,26,2,1,rejected,1,2,1\nevent,29,deliver,26\nsent,27,1,2,append,1,1,1,2,2\nevent,30,deliver,27\ncommit,2,2,1,ask,00000000000000000000000000000001,1,12360a10aaaaaaaaaaaaaaaaaaaaaaaaaaaaaaaa122011111111111111111111111111111111111111111111111111111111111111111803\nsent,28,2,1,accepted,1,2,2\nlog,2\nrollbacks,within\nend,30,28,1\n",
            0,
            "accept,69\n",
        ),
    ];
    check(&rt, &rows)
}

#[test]
fn a_trace_is_refused_at_its_first_wrong_line(rt: HostRuntime) -> Result<(), Fail> {
    let rows = [
        audit_row(
            "event,1,begin,0,100,1\nevent,2,tick,1\nlead,1,1\nevent,3,ask,1,00000000000000000000000000000001,1,12360a10aaaaaaaaaaaaaaaaaaaaaaaaaaaaaaaa122011111111111111111111111111111111111111111111111111111111111111111803\ncommit,1,2,1,ask,00000000000000000000000000000001,1,12360a10aaaaaaaaaaaaaaaaaaaaaaaaaaaaaaaa122011111111111111111111111111111111111111111111111111111111111111111803\nanswer,1,1,00000000000000000000000000000001,1,outcome,2,done,0a020801\nlog,2\nrollbacks,within\nend,3,0,1\n",
            9,
            "refuse,5,commit\n",
        ),
        audit_row(
            "event,1,begin,0,100,1\nevent,2,tick,1\nlead,1,1\ncommit,1,1,1,noop\nevent,3,ask,1,00000000000000000000000000000001,1,12360a10aaaaaaaaaaaaaaaaaaaaaaaaaaaaaaaa122011111111111111111111111111111111111111111111111111111111111111111803\ncommit,1,2,1,ask,00000000000000000000000000000001,1,12360a10aaaaaaaaaaaaaaaaaaaaaaaaaaaaaaaa122011111111111111111111111111111111111111111111111111111111111111111803\nanswer,1,1,00000000000000000000000000000001,1,outcome,2,done,0a020801\nlog,3\nrollbacks,within\nend,3,0,1\n",
            9,
            "refuse,8,log\n",
        ),
        audit_row(
            "event,1,begin,0,100,1\nevent,2,tick,1\nlead,1,1\ncommit,1,1,1,noop\nevent,3,ask,1,00000000000000000000000000000001,1,12360a10aaaaaaaaaaaaaaaaaaaaaaaaaaaaaaaa122011111111111111111111111111111111111111111111111111111111111111111803\ncommit,1,2,1,ask,00000000000000000000000000000001,1,12360a10aaaaaaaaaaaaaaaaaaaaaaaaaaaaaaaa122011111111111111111111111111111111111111111111111111111111111111111803\nanswer,1,1,00000000000000000000000000000001,1,outcome,2,done,0a020801\nlog,2\nrollbacks,within\n",
            9,
            "refuse,10,end\n",
        ),
        audit_row("", 9, "refuse,1,end\n"),
    ];
    check(&rt, &rows)
}
