//! Whole schedules over each field, against traces that were worked out beside the program.
ghost use Rattle.std.specs.Prelude.{ℕ, ◌≡◌, ◌<◌, IfSome, None};

use crate::{EchoField, LocalField, Played, ScriptField, play};
use enclave_host::Field;
use std::alloc::Global;
use std::test::Fail;
use svr_base::{Bytes, Cause, MemSink, MemSource, Memory};

/// Three voters: messages are repeated, lost and late, and a voter catches up.
const REPEATED: &str = "\
begin,0,100,1,2,3
tick,1
settle,16
ask,1,00000000000000000000000000000001,1,12360a10aaaaaaaaaaaaaaaaaaaaaaaaaaaaaaaa122011111111111111111111111111111111111111111111111111111111111111111803
deliver,18
deliver,18
lose,17
deliver,17
deliver,20
deliver,19
deliver,22
deliver,23
deliver,21
deliver,26
deliver,27
";

/// Its trace.
const REPEATED_TRACE: &str = "\
event,1,begin,0,100,1,2,3
event,2,tick,1
sent,1,1,2,askvote,1,0,0
sent,2,1,3,askvote,1,0,0
event,3,deliver,1
sent,3,2,1,vote,1,1
event,4,deliver,2
sent,4,3,1,vote,1,1
event,5,deliver,3
lead,1,1
sent,5,1,2,append,1,0,1,0,0
sent,6,1,3,append,1,0,1,0,0
event,6,deliver,4
event,7,deliver,5
sent,7,2,1,accepted,1,1,0
event,8,deliver,6
sent,8,3,1,accepted,1,1,0
event,9,deliver,7
sent,9,1,2,append,1,1,0,1,0
sent,10,1,3,append,1,1,0,1,0
event,10,deliver,8
event,11,deliver,9
sent,11,2,1,accepted,1,1,1
event,12,deliver,10
sent,12,3,1,accepted,1,1,1
event,13,deliver,11
commit,1,1,1,noop
sent,13,1,2,append,1,1,0,1,1
sent,14,1,3,append,1,1,0,1,1
event,14,deliver,12
event,15,deliver,13
commit,2,1,1,noop
sent,15,2,1,accepted,1,1,1
event,16,deliver,14
commit,3,1,1,noop
sent,16,3,1,accepted,1,1,1
event,17,deliver,15
event,18,deliver,16
event,19,ask,1,00000000000000000000000000000001,1,12360a10aaaaaaaaaaaaaaaaaaaaaaaaaaaaaaaa122011111111111111111111111111111111111111111111111111111111111111111803
sent,17,1,2,append,1,1,1,1,1
sent,18,1,3,append,1,1,1,1,1
event,20,deliver,18
sent,19,3,1,accepted,1,2,1
event,21,deliver,18
sent,20,3,1,accepted,1,2,1
event,22,lose,17
event,23,deliver,17
refused,lost,17
event,24,deliver,20
sent,21,1,2,append,1,2,0,2,1
sent,22,1,3,append,1,2,0,2,1
event,25,deliver,19
event,26,deliver,22
sent,23,3,1,accepted,1,2,2
event,27,deliver,23
commit,1,2,1,ask,00000000000000000000000000000001,1,12360a10aaaaaaaaaaaaaaaaaaaaaaaaaaaaaaaa122011111111111111111111111111111111111111111111111111111111111111111803
answer,1,1,00000000000000000000000000000001,1,outcome,2,done,0a020801
sent,24,1,2,append,1,2,0,2,2
sent,25,1,3,append,1,2,0,2,2
event,28,deliver,21
sent,26,2,1,rejected,1,2,1
event,29,deliver,26
sent,27,1,2,append,1,1,1,2,2
event,30,deliver,27
commit,2,2,1,ask,00000000000000000000000000000001,1,12360a10aaaaaaaaaaaaaaaaaaaaaaaaaaaaaaaa122011111111111111111111111111111111111111111111111111111111111111111803
sent,28,2,1,accepted,1,2,2
log,2
rollbacks,within
end,30,28,1
";

/// A learner takes a table, of which a part is sent again after a roll.
const ROLLED: &str = "\
begin,0,100,1
tick,1
start,2
join,1,2
save,1
save,2
deliver,1
deliver,2
roll,1,1
tick,1
";

/// Its trace.
const ROLLED_TRACE: &str = "\
event,1,begin,0,100,1
event,2,tick,1
lead,1,1
commit,1,1,1,noop
event,3,start,2
event,4,join,1,2
sent,1,1,2,part,1,1,0,1,0
event,5,save,1
saved,1,1
event,6,save,2
saved,2,1
event,7,deliver,1
taken,2,1,b976e321401b66f36561506966de59703464a9ebff6cd6d584a174a14c409ab1
sent,2,2,1,parttaken,1,1,1
event,8,deliver,2
sent,3,1,2,append,1,1,0,1,1
event,9,roll,1,1
event,10,tick,1
sent,4,1,2,part,1,1,0,1,0
log,1
rollbacks,exceeded
end,10,4,0
";

/// A client stores, and guesses wrong.
const STORED: &str = "\
begin,0,100,1
tick,1
want,00000000000000000000000000000001,store,aaaaaaaaaaaaaaaaaaaaaaaaaaaaaaaa,1111111111111111111111111111111111111111111111111111111111111111,3
say,00000000000000000000000000000001,1
hear,00000000000000000000000000000001,1
say,00000000000000000000000000000001,1
hear,00000000000000000000000000000001,2
want,00000000000000000000000000000001,recover,2222222222222222222222222222222222222222222222222222222222222222
say,00000000000000000000000000000001,1
hear,00000000000000000000000000000001,3
";

/// Its trace.
const STORED_TRACE: &str = "\
event,1,begin,0,100,1
event,2,tick,1
lead,1,1
commit,1,1,1,noop
event,3,want,00000000000000000000000000000001,store,aaaaaaaaaaaaaaaaaaaaaaaaaaaaaaaa,1111111111111111111111111111111111111111111111111111111111111111,3
event,4,say,00000000000000000000000000000001,1
commit,1,2,1,ask,00000000000000000000000000000001,1,12360a10aaaaaaaaaaaaaaaaaaaaaaaaaaaaaaaa122011111111111111111111111111111111111111111111111111111111111111111803
answer,1,1,00000000000000000000000000000001,1,outcome,2,done,0a020801
event,5,hear,00000000000000000000000000000001,1
event,6,say,00000000000000000000000000000001,1
commit,1,3,1,ask,00000000000000000000000000000001,2,2a120a10aaaaaaaaaaaaaaaaaaaaaaaaaaaaaaaa
answer,2,1,00000000000000000000000000000001,2,outcome,3,done,22020801
event,7,hear,00000000000000000000000000000001,2
client,00000000000000000000000000000001,stored
event,8,want,00000000000000000000000000000001,recover,2222222222222222222222222222222222222222222222222222222222222222
event,9,say,00000000000000000000000000000001,1
commit,1,4,1,ask,00000000000000000000000000000001,3,1a220a202222222222222222222222222222222222222222222222222222222222222222
answer,3,1,00000000000000000000000000000001,3,outcome,4,done,120408031802
event,10,hear,00000000000000000000000000000001,3
client,00000000000000000000000000000001,wrongpin,2
log,4
rollbacks,within
end,10,0,3
";

/// What replicas refuse, and the group.
const REFUSED: &str = "\
begin,0,100,1
tick,1
start,2
admit,1,2
join,1,9
remove,1,5
roll,1,3
deliver,1
tick,9
start,2
";

/// Its trace.
const REFUSED_TRACE: &str = "\
event,1,begin,0,100,1
event,2,tick,1
lead,1,1
commit,1,1,1,noop
event,3,start,2
event,4,admit,1,2
refused,notcaughtup,0,1
event,5,join,1,9
refused,nolink,9
event,6,remove,1,5
refused,notvoter,5
event,7,roll,1,3
refused,nostate,3
event,8,deliver,1
refused,nomessage,1
event,9,tick,9
refused,notrunning,9
event,10,start,2
refused,alreadystarted,2
log,1
rollbacks,within
end,10,0,0
";

/// What the group refuses where a voter has ended.
const CLOSED: &str = "\
begin,0,100,1,2
tick,1
crash,2
deliver,1
lose,1
lose,1
say,00000000000000000000000000000001,1
want,00000000000000000000000000000001,delete
want,00000000000000000000000000000001,delete
say,00000000000000000000000000000001,2
hear,00000000000000000000000000000001,1
roll,2,0
ask,1,00000000000000000000000000000001,1,2200
hear,00000000000000000000000000000002,1
";

/// Its trace.
const CLOSED_TRACE: &str = "\
event,1,begin,0,100,1,2
event,2,tick,1
sent,1,1,2,askvote,1,0,0
event,3,crash,2
event,4,deliver,1
refused,notrunning,2
event,5,lose,1
event,6,lose,1
refused,lost,1
event,7,say,00000000000000000000000000000001,1
refused,nothing
event,8,want,00000000000000000000000000000001,delete
event,9,want,00000000000000000000000000000001,delete
refused,clientbusy
event,10,say,00000000000000000000000000000001,2
refused,notrunning,2
event,11,hear,00000000000000000000000000000001,1
refused,noanswer,1
event,12,roll,2,0
refused,notrunning,2
event,13,ask,1,00000000000000000000000000000001,1,2200
answer,1,1,00000000000000000000000000000001,1,notleader,0
event,14,hear,00000000000000000000000000000002,1
refused,notyours,1
log,0
rollbacks,within
end,14,1,1
";

/// How a run ended, what it wrote, and how many bytes of the source it left.
#[derive(Drop)]
struct Run {
    end: Played,
    written: Vec<u8>,
    left: usize,
}

/// A source of which a read gives at most so many bytes, and the read of this number fails; none where it is 0.
fn source_of(alloc: Global, text: &str, most: usize, failing: u64) -> Result<MemSource, Memory>
    requires { 0 < most }
{
    let bytes = Vec::from_slice(alloc, text.as_bytes())?;
    let failing = Vec::from_slice(alloc, &[failing])?;
    Ok(MemSource::new(bytes, most, failing))
}

/// Plays a source over a field. The write of this number fails; none where it is 0.
fn run_over<F: Field + Drop>(
    alloc: Global,
    field: F,
    mut source: MemSource,
    failing: u64,
) -> Result<Run, Memory>
    requires { IfSome (F.map field) (λ now. (id : ℕ) → now id ≡ None) }
{
    let failing = Vec::from_slice(alloc, &[failing])?;
    let mut sink = MemSink::new(alloc, 10_000, failing)?;
    let (end, _field) = play(alloc, &mut source, &mut sink, field);
    Ok(Run {
        end,
        written: Vec::from_slice(alloc, sink.taken())?,
        left: source.left().len(),
    })
}

/// Plays a source over enclaves in memory. The write of this number fails; none where it is 0.
fn run_locally(alloc: Global, source: MemSource, failing: u64) -> Result<Run, Memory> {
    run_over(alloc, LocalField::new(alloc), source, failing)
}

#[test]
fn schedules_have_their_traces_in_pieces_of_any_size(rt: HostRuntime) -> Result<(), Fail> {
    let rows = [
        (REPEATED, REPEATED_TRACE),
        (ROLLED, ROLLED_TRACE),
        (STORED, STORED_TRACE),
        (REFUSED, REFUSED_TRACE),
        (CLOSED, CLOSED_TRACE),
    ];
    for (text, trace) in rows {
        for most in [1, 7, 65_536] {
            let source = source_of(rt.alloc(), text, most, 0)?;
            let came = run_locally(rt.alloc(), source, 0)?;
            assert_eq!(rt; came.end, Played::Done);
            assert_eq!(rt; came.written.as_slice(), trace.as_bytes());
        }
    }
    Ok(())
}

#[test]
fn a_field_that_fails_leaves_the_lines_before(rt: HostRuntime) -> Result<(), Fail> {
    // The calls: voter 1 starts, it ticks, learner 2 starts, and voter 1 is linked with it.
    let begun = "event,1,begin,0,100,1\n";
    let ticked = "event,1,begin,0,100,1\nevent,2,tick,1\nlead,1,1\ncommit,1,1,1,noop\n";
    for (call, lines) in [(1, ""), (2, begun), (3, ticked), (4, ticked)] {
        let field = ScriptField::new(rt.alloc(), vec![in rt.alloc(); call]?);
        let source = source_of(rt.alloc(), ROLLED, 65_536, 0)?;
        let came = run_over(rt.alloc(), field, source, 0)?;
        assert_eq!(rt; came.end, Played::FieldFault);
        assert_eq!(rt; came.written.as_slice(), lines.as_bytes());
    }
    Ok(())
}

/// It leads in term 1, and has committed its first entry, which is empty.
const LEADS: &[u8] =
    b"\x01\0\0\0\x08\0\0\0\0\0\0\0\x01\x05\0\0\0\x11\0\0\0\0\0\0\0\x01\0\0\0\0\0\0\0\x01\0";

/// Plays a begin and two ticks over these two contents.
fn echoed(alloc: Global, first: &[u8], second: &[u8]) -> Result<Run, Memory> {
    let mut contents = Vec::new(alloc);
    contents.push(Bytes::from_slice(alloc, first)?)?;
    contents.push(Bytes::from_slice(alloc, second)?)?;
    let source = source_of(alloc, "begin,0,100,1\ntick,1\ntick,1\n", 65_536, 0)?;
    run_over(alloc, EchoField::new(contents), source, 0)
}

#[test]
fn contents_that_are_batches_have_their_lines(rt: HostRuntime) -> Result<(), Fail> {
    // Whatever it is told, its second content says that its state 7 was saved.
    let came = echoed(rt.alloc(), LEADS, b"\x08\0\0\0\x04\0\0\0\x07")?;
    let trace =
        "event,1,begin,0,100,1\nevent,2,tick,1\nlead,1,1\ncommit,1,1,1,noop\nevent,3,tick,1\nsaved,1,7\nlog,1\nrollbacks,within\nend,3,0,0\n";
    assert_eq!(rt; came.end, Played::Done);
    assert_eq!(rt; came.written.as_slice(), trace.as_bytes());
    Ok(())
}

#[test]
fn a_content_that_is_no_batch_ends_the_run(rt: HostRuntime) -> Result<(), Fail> {
    // The second item, from byte 9 on, is of no known kind.
    let came = echoed(rt.alloc(), LEADS, b"\x08\0\0\0\x04\0\0\0\x07\x0a\0\0\0\0")?;
    let trace =
        "event,1,begin,0,100,1\nevent,2,tick,1\nlead,1,1\ncommit,1,1,1,noop\nstopped,frame\n";
    assert_eq!(rt; came.end, Played::Frame(9));
    assert_eq!(rt; came.written.as_slice(), trace.as_bytes());
    Ok(())
}

#[test]
fn a_read_that_fails_inside_the_third_line_leaves_two(rt: HostRuntime) -> Result<(), Fail> {
    // Three reads give the first two lines, and the fourth begins the third.
    let source = source_of(rt.alloc(), ROLLED, 7, 5)?;
    let came = run_locally(rt.alloc(), source, 0)?;
    let lines = "event,1,begin,0,100,1\nevent,2,tick,1\nlead,1,1\ncommit,1,1,1,noop\n";
    assert_eq!(rt; came.end, Played::ReadFault);
    assert_eq!(rt; came.written.as_slice(), lines.as_bytes());
    Ok(())
}

#[test]
fn after_a_write_that_fails_nothing_more_is_read(rt: HostRuntime) -> Result<(), Fail> {
    let mut bytes = Vec::from_slice(rt.alloc(), b"begin,0,100,1\n#")?;
    bytes.resize(400_000, b' ')?;
    let source = MemSource::new(bytes, 1_000_000, Vec::new(rt.alloc()));
    let came = run_locally(rt.alloc(), source, 1)?;
    assert_eq!(rt; came.end, Played::WriteFault);
    assert_eq!(rt; came.written.len(), 0);
    assert!(rt; came.left >= 300_000);
    Ok(())
}

/// Records that end a run, each with its number, its fault, the field, and the whole trace.
const FAULTS: [(&str, u64, Cause, usize, &str); 10] = [
    (
        "tick,1",
        1,
        Cause::NoBegin,
        0,
        "stopped,schedule,1,nobegin,0\n",
    ),
    (
        "# a remark\nbegin,0,1",
        2,
        Cause::Fields,
        0,
        "stopped,schedule,2,fields,0\n",
    ),
    (
        "begin,-1,1,1",
        1,
        Cause::Number,
        2,
        "stopped,schedule,1,number,2\n",
    ),
    (
        "begin,16,1,1",
        1,
        Cause::Range,
        2,
        "stopped,schedule,1,range,2\n",
    ),
    (
        "begin,0,1,1,2,3,4,5,6,7,8,9,10,11,12,13,14,15,16,17,18,19,20,21,22,23,24,25,26,27,28,29,30,31,32",
        1,
        Cause::TooMany,
        0,
        "stopped,schedule,1,toomany,0\n",
    ),
    (
        "begin,1,1,1,2,2",
        1,
        Cause::Double,
        0,
        "stopped,schedule,1,double,0\n",
    ),
    (
        "begin,1,1,1,2",
        1,
        Cause::TooFew,
        0,
        "stopped,schedule,1,toofew,0\n",
    ),
    (
        "begin,0,1,1\nhop,1",
        2,
        Cause::Word,
        1,
        "event,1,begin,0,1,1\nstopped,schedule,2,word,1\n",
    ),
    (
        "begin,0,1,1\nbegin,0,1,1",
        2,
        Cause::SecondBegin,
        0,
        "event,1,begin,0,1,1\nstopped,schedule,2,secondbegin,0\n",
    ),
    (
        "begin,0,1,1\nsay,0g,1",
        2,
        Cause::Hex,
        2,
        "event,1,begin,0,1,1\nstopped,schedule,2,hex,2\n",
    ),
];

#[test]
fn each_fault_of_a_record_has_its_line(rt: HostRuntime) -> Result<(), Fail> {
    for (text, line, cause, field, trace) in FAULTS {
        let source = source_of(rt.alloc(), text, 65_536, 0)?;
        let came = run_locally(rt.alloc(), source, 0)?;
        assert_eq!(rt; came.end, Played::Schedule { line, cause, field });
        assert_eq!(rt; came.written.as_slice(), trace.as_bytes());
    }
    Ok(())
}
