use crate::{Tally, play_drill, write_summary};
use drill_schedule::drill_events;
use group_world::{LocalField, Played, play};
use sha2::{Digest, Sha256};
use std::alloc::Global;
use std::test::Fail;
use svr_base::{MemSink, MemSource, Memory};
use trace_text::TraceWriter;
use values::Hash;

/// What stands before the record in the first event line of a trace.
const FIRST: &[u8] = b"event,1,";

/// The drill of seed 7 and 10 clients as a schedule: each of its events as a record.
fn records(alloc: Global) -> Result<Vec<u8>, Memory> {
    let events = drill_events(alloc, 7, 10)?;
    let mut records = Vec::new(alloc);
    for event in events.as_slice() {
        let mut lines = TraceWriter::behind(Vec::new(alloc));
        lines.event(1, event)?;
        let line = lines.finish(true);
        if let Some(record) = line.as_slice().strip_prefix(FIRST) {
            records.extend_from_slice(record)?;
        }
    }
    Ok(records)
}

// Of the first ten words of seed 7, by another implementation of ChaCha8, two are 3 modulo 4, five are 0, one is 1 and two are 2.
#[test]
fn the_drill_of_seed_7_comes_to_this(rt: HostRuntime) -> Result<(), Fail> {
    let tally = play_drill(rt.alloc(), 7, 10)?;
    let expected = Tally {
        events: 834 + 9 * 2,
        messages: 752 + 8 * 2,
        answers: 30,
        stored: 10,
        recovered: 7,
        wrongpin: 1,
        deleted: 2,
        halts: 0,
        log: 31,
        within: true,
        trace: tally.trace,
    };
    assert_eq!(rt; tally, expected);
    Ok(())
}

#[test]
fn its_hash_is_that_of_the_trace_of_its_schedule(rt: HostRuntime) -> Result<(), Fail> {
    let alloc = rt.alloc();
    let mut source = MemSource::new(records(alloc)?, 65_536, Vec::new(alloc));
    let mut sink = MemSink::new(alloc, 1_000_000, Vec::new(alloc))?;
    let (played, _field) = play(alloc, &mut source, &mut sink, LocalField::new(alloc));
    assert_eq!(rt; played, Played::Done);
    let tally = play_drill(alloc, 7, 10)?;
    assert_eq!(rt; Hash(Sha256::digest(sink.taken())), tally.trace);
    Ok(())
}

#[test]
fn a_summary_has_a_line_for_each_number(rt: HostRuntime) -> Result<(), Fail> {
    let tally = Tally {
        events: 1,
        messages: 2,
        answers: 3,
        stored: 4,
        recovered: 5,
        wrongpin: 6,
        deleted: 7,
        halts: 8,
        log: 9,
        within: false,
        trace: Hash([0xab; 32]),
    };
    let mut text = Vec::from_slice(rt.alloc(), b"before\n")?;
    write_summary(&tally, 18_446_744_073_709_551_615, 2000, &mut text)?;
    let expected = b"before
drill,18446744073709551615,2000
events,1
messages,2
answers,3
stored,4
recovered,5
wrongpin,6
deleted,7
halts,8
log,9
rollbacks,exceeded
trace,abababababababababababababababababababababababababababababababab
";
    assert_eq!(rt; text.as_slice(), expected.as_slice());
    Ok(())
}
