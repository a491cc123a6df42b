use crate::svg::push_text;
use crate::view::{View, view_of};
use crate::{Drawn, draw_source};
use std::alloc::{AllocError, Global};
use std::process::Abort;
use std::test::Fail;
use svr_base::MemSource;

/// A message lost, and one that comes twice.
const THREE: &'static str =
    "event,1,begin,0,100,1,2,3\nevent,2,tick,1\nsent,1,1,2,askvote,1,0,0\nsent,2,1,3,askvote,1,0,0\nevent,3,deliver,1\nsent,3,2,1,vote,1,1\nevent,4,deliver,2\nsent,4,3,1,vote,1,1\nevent,5,deliver,3\nlead,1,1\nsent,5,1,2,append,1,0,1,0,0\nsent,6,1,3,append,1,0,1,0,0\nevent,6,deliver,4\nevent,7,deliver,5\nsent,7,2,1,accepted,1,1,0\nevent,8,deliver,6\nsent,8,3,1,accepted,1,1,0\nevent,9,deliver,7\nsent,9,1,2,append,1,1,0,1,0\nsent,10,1,3,append,1,1,0,1,0\nevent,10,deliver,8\nevent,11,deliver,9\nsent,11,2,1,accepted,1,1,1\nevent,12,deliver,10\nsent,12,3,1,accepted,1,1,1\nevent,13,deliver,11\ncommit,1,1,1,noop\nsent,13,1,2,append,1,1,0,1,1\nsent,14,1,3,append,1,1,0,1,1\nevent,14,deliver,12\nevent,15,deliver,13\ncommit,2,1,1,noop\nsent,15,2,1,accepted,1,1,1\nevent,16,deliver,14\ncommit,3,1,1,noop\nsent,16,3,1,accepted,1,1,1\nevent,17,deliver,15\nevent,18,deliver,16\nevent,19,ask,1,00000000000000000000000000000001,1,12360a10aaaaaaaaaaaaaaaaaaaaaaaaaaaaaaaa122011111111111111111111111111111111111111111111111111111111111111111803\nsent,17,1,2,append,1,1,1,1,1\nsent,18,1,3,append,1,1,1,1,1\nevent,20,deliver,18\nsent,19,3,1,accepted,1,2,1\nevent,21,deliver,18\nsent,20,3,1,accepted,1,2,1\nevent,22,lose,17\nevent,23,deliver,17\nrefused,lost,17\nevent,24,deliver,20\nsent,21,1,2,append,1,2,0,2,1\nsent,22,1,3,append,1,2,0,2,1\nevent,25,deliver,19\nevent,26,deliver,22\nsent,23,3,1,accepted,1,2,2\nevent,27,deliver,23\ncommit,1,2,1,ask,00000000000000000000000000000001,1,12360a10aaaaaaaaaaaaaaaaaaaaaaaaaaaaaaaa122011111111111111111111111111111111111111111111111111111111111111111803\nanswer,1,1,00000000000000000000000000000001,1,outcome,2,done,0a020801\nsent,24,1,2,append,1,2,0,2,2\nsent,25,1,3,append,1,2,0,2,2\nevent,28,deliver,21\nsent,26,2,1,rejected,1,2,1\nevent,29,deliver,26\nsent,27,1,2,append,1,1,1,2,2\nevent,30,deliver,27\ncommit,2,2,1,ask,00000000000000000000000000000001,1,12360a10aaaaaaaaaaaaaaaaaaaaaaaaaaaaaaaa122011111111111111111111111111111111111111111111111111111111111111111803\nsent,28,2,1,accepted,1,2,2\nlog,2\nrollbacks,within\nend,30,28,1\n";

/// A rollback, and two halts.
const HALTS: &'static str =
    "event,1,begin,1,100,1,2,3\nevent,2,tick,1\nsent,1,1,2,askvote,1,0,0\nsent,2,1,3,askvote,1,0,0\nevent,3,deliver,1\nsent,3,2,1,vote,1,1\nevent,4,deliver,2\nsent,4,3,1,vote,1,1\nevent,5,deliver,3\nevent,6,deliver,4\nlead,1,1\nsent,5,1,2,append,1,0,1,0,0\nsent,6,1,3,append,1,0,1,0,0\nevent,7,deliver,5\nsent,7,2,1,accepted,1,1,0\nevent,8,deliver,6\nsent,8,3,1,accepted,1,1,0\nevent,9,deliver,7\nevent,10,deliver,8\nsent,9,1,2,append,1,1,0,1,0\nsent,10,1,3,append,1,1,0,1,0\nevent,11,deliver,9\nsent,11,2,1,accepted,1,1,1\nevent,12,deliver,10\nsent,12,3,1,accepted,1,1,1\nevent,13,deliver,11\nevent,14,deliver,12\ncommit,1,1,1,noop\nsent,13,1,2,append,1,1,0,1,1\nsent,14,1,3,append,1,1,0,1,1\nevent,15,deliver,13\ncommit,2,1,1,noop\nsent,15,2,1,accepted,1,1,1\nevent,16,deliver,14\ncommit,3,1,1,noop\nsent,16,3,1,accepted,1,1,1\nevent,17,deliver,15\nevent,18,deliver,16\nevent,19,save,2\nsaved,2,1\nevent,20,ask,1,00000000000000000000000000000001,1,12360a10aaaaaaaaaaaaaaaaaaaaaaaaaaaaaaaa122011111111111111111111111111111111111111111111111111111111111111111803\nsent,17,1,2,append,1,1,1,1,1\nsent,18,1,3,append,1,1,1,1,1\nevent,21,deliver,17\nsent,19,2,1,accepted,1,2,1\nevent,22,deliver,18\nsent,20,3,1,accepted,1,2,1\nevent,23,deliver,19\nevent,24,deliver,20\nsent,21,1,2,append,1,2,0,2,1\nsent,22,1,3,append,1,2,0,2,1\nevent,25,deliver,21\nsent,23,2,1,accepted,1,2,2\nevent,26,deliver,22\nsent,24,3,1,accepted,1,2,2\nevent,27,deliver,23\nevent,28,deliver,24\ncommit,1,2,1,ask,00000000000000000000000000000001,1,12360a10aaaaaaaaaaaaaaaaaaaaaaaaaaaaaaaa122011111111111111111111111111111111111111111111111111111111111111111803\nanswer,1,1,00000000000000000000000000000001,1,outcome,2,done,0a020801\nsent,25,1,2,append,1,2,0,2,2\nsent,26,1,3,append,1,2,0,2,2\nevent,29,deliver,25\ncommit,2,2,1,ask,00000000000000000000000000000001,1,12360a10aaaaaaaaaaaaaaaaaaaaaaaaaaaaaaaa122011111111111111111111111111111111111111111111111111111111111111111803\nsent,27,2,1,accepted,1,2,2\nevent,30,deliver,26\ncommit,3,2,1,ask,00000000000000000000000000000001,1,12360a10aaaaaaaaaaaaaaaaaaaaaaaaaaaaaaaa122011111111111111111111111111111111111111111111111111111111111111111803\nsent,28,3,1,accepted,1,2,2\nevent,31,deliver,27\nevent,32,deliver,28\nevent,33,tick,2\nsent,29,2,1,askvote,2,2,1\nsent,30,2,3,askvote,2,2,1\nevent,34,deliver,29\nsent,31,1,2,vote,2,1\nevent,35,deliver,30\nsent,32,3,2,vote,2,1\nevent,36,roll,2,1\nevent,37,tick,2\nsent,33,2,1,askvote,2,1,1\nsent,34,2,3,askvote,2,1,1\nevent,38,deliver,31\nevent,39,deliver,32\nlead,2,2\nsent,35,2,1,append,2,1,1,1,1\nsent,36,2,3,append,2,1,1,1,1\nevent,40,deliver,35\nhalt,1,2,d65ece3d95eaf047ca8b9e931b88f9ca754bd3034377f8ed9b2af30efba7be15,d91f517380d31953df95b5c82963cfb37bb4916f281987020c81259cb4f00210\nevent,41,deliver,36\nhalt,3,2,d65ece3d95eaf047ca8b9e931b88f9ca754bd3034377f8ed9b2af30efba7be15,d91f517380d31953df95b5c82963cfb37bb4916f281987020c81259cb4f00210\nevent,42,ask,1,00000000000000000000000000000001,2,2200\nanswer,2,1,00000000000000000000000000000001,2,halted,2\nlog,2\nrollbacks,within\nend,42,36,2\n";

/// The end of a driven trace: the only voter has crashed, and the turns for a want end without a report.
const GIVEN_UP: &'static str =
    "event,1,begin,0,100,1\nevent,2,crash,1\nevent,3,want,00000000000000000000000000000001,recover,1111111111111111111111111111111111111111111111111111111111111111\nevent,4,say,00000000000000000000000000000001,1\nrefused,notrunning,1\ngaveup,00000000000000000000000000000001,16\nlog,0\nrollbacks,within\nend,4,0,0\n";

/// The picture of a trace, its source read by pieces of 100 bytes.
fn drawn(alloc: Global, trace: &str, view: View) -> Result<Drawn, AllocError> {
    let bytes = Vec::from_slice(alloc, trace.as_bytes())?;
    let mut source = MemSource::new(bytes, 100, Vec::new(alloc));
    Ok(draw_source(alloc, &mut source, view))
}

fn picture(alloc: Global, trace: &str, view: View) -> Result<String, AllocError> {
    match drawn(alloc, trace, view)? {
        Drawn::Picture(picture) => Ok(picture),
        _ => String::from_str(alloc, "no picture"),
    }
}

/// How often a text holds another.
fn count(text: &str, part: &str) -> usize {
    text.split(part).skip(1).count()
}

/// How many messages, repeats and losses a picture of the whole trace has.
fn check_counts(
    rt: &(impl Abort + AllocGlobal),
    trace: &str,
    delivered: usize,
    lost: usize,
    again: usize,
) -> Result<(), Fail> {
    let view = View { from: 1, to: 400 };
    let picture = picture(rt.alloc(), trace, view)?;
    let text = picture.as_str();
    assert_eq!(rt; count(text, "<g class=\"message "), count(trace, "sent,"));
    assert_eq!(rt; count(text, " delivered\">"), delivered);
    assert_eq!(rt; count(text, " lost\"><title>"), lost);
    assert_eq!(rt; count(text, "<title>again: "), again);
    Ok(())
}

#[test]
fn each_message_is_drawn_once(rt: HostRuntime) -> Result<(), Fail> {
    check_counts(&rt, THREE, 24, 1, 1)?;
    check_counts(&rt, HALTS, 34, 0, 0)
}

#[test]
fn a_want_given_up_is_drawn_with_its_line(rt: HostRuntime) -> Result<(), Fail> {
    let view = View { from: 1, to: 400 };
    let all = picture(rt.alloc(), GIVEN_UP, view)?;
    assert_eq!(rt;
        count(all.as_str(), "client 1: the driver gave up after 16 turns"),
        1
    );
    assert_eq!(rt;
        count(all.as_str(), "gaveup,00000000000000000000000000000001,16"),
        1
    );
    let before = picture(rt.alloc(), GIVEN_UP, View { from: 1, to: 3 })?;
    assert_eq!(rt; count(before.as_str(), "gave up"), 0);
    Ok(())
}

#[test]
fn a_line_that_is_none_has_its_number(rt: HostRuntime) -> Result<(), Fail> {
    let view = View { from: 1, to: 1 };
    let rows = [
        ("event,1,begin,0,100,1\nevent,2,tick,1\nlead,1\n", 3),
        ("event,1,begin,0,100,1\nevent,2,tick,1\nlead,1,1", 3),
        ("\n", 1),
        (
            "gaveup,0000000000000000000000000000000a,16\ngaveup,0000000000000000000000000000000A,16\n",
            2,
        ),
        ("gaveup,000000000000000000000000000001,16\n", 1),
        ("gaveup,0000000000000000000000000000000g,16\n", 1),
        ("gaveup,00000000000000000000000000000001,15\n", 1),
        ("gaveup,16\n", 1),
    ];
    for (trace, line) in rows {
        let number = match drawn(rt.alloc(), trace, view)? {
            Drawn::NoLine(number) => number,
            _ => 0,
        };
        assert_eq!(rt; number, line);
    }
    Ok(())
}

/// A trace of so many events of a replica alone: its timer runs out again and again.
fn ticks(alloc: Global, events: usize) -> Result<String, AllocError> {
    let mut trace = String::from_str(alloc, "event,1,begin,0,100,1\n")?;
    for number in 2..=events {
        write!(trace, "event,{number},tick,1\n")?;
    }
    Ok(trace)
}

#[test]
fn a_long_trace_says_what_is_left_out(rt: HostRuntime) -> Result<(), Fail> {
    let trace = ticks(rt.alloc(), 450)?;
    let usual = view_of(None, None).ok_or("a view")?;
    let first = picture(rt.alloc(), trace.as_str(), usual)?;
    assert_eq!(rt; count(first.as_str(), "<g class=\"event"), 400);
    assert_eq!(rt; count(first.as_str(), "The first 400 events of 450"), 1);
    let last = view_of(Some(441), Some(460)).ok_or("a view")?;
    let last = picture(rt.alloc(), trace.as_str(), last)?;
    assert_eq!(rt; count(last.as_str(), "<g class=\"event"), 10);
    assert_eq!(rt; count(last.as_str(), "Events 441 to 450 of 450"), 1);
    assert_eq!(rt; view_of(Some(2), Some(1)), None);
    assert_eq!(rt; view_of(Some(1), Some(10_001)), None);
    Ok(())
}

#[test]
fn text_is_escaped(rt: HostRuntime) -> Result<(), Fail> {
    let mut out = String::new(rt.alloc());
    push_text(&mut out, b"a<b>&\"c\"\xff")?;
    assert_eq!(rt; out.as_str(), "a&lt;b&gt;&amp;&quot;c&quot;?");
    Ok(())
}
