use crate::{Closing, GroupRefusal, Quantity, TraceWriter, trace_lines};
use schedule_text::{RecordFault, Schedule};
use std::alloc::{AllocError, Global};
use std::test::Fail;
use values::{Batch, Cause, ClientId, Event, Items, Part, Refusal, Report};

/// Each record, behind the first of them.
const RECORDS: [&'static str; 19] = [
    "begin,1,20000,3,1,2",
    "start,4",
    "tick,1",
    "deliver,18446744073709551615",
    "lose,1",
    "settle,1000000",
    "crash,65535",
    "save,2",
    "roll,2,4294967295",
    "join,1,4",
    "admit,1,4",
    "remove,1,3",
    "margin,1,15",
    "ask,1,000102030405060708090a0b0c0d0e0f,7,12ab",
    "want,000102030405060708090a0b0c0d0e0f,store,ff,000102030405060708090a0b0c0d0e0f000102030405060708090a0b0c0d0e0f,3",
    "want,000102030405060708090a0b0c0d0e0f,recover,000102030405060708090a0b0c0d0e0f000102030405060708090a0b0c0d0e0f",
    "want,000102030405060708090a0b0c0d0e0f,delete",
    "say,000102030405060708090a0b0c0d0e0f,1",
    "hear,000102030405060708090a0b0c0d0e0f,1",
];

/// The fields of a record that has no quotes.
fn fields_of<'a>(alloc: Global, record: &'a str) -> Result<Vec<&'a [u8]>, AllocError> {
    let mut fields = Vec::new(alloc);
    for field in record.as_bytes().split(|byte| *byte == b',') {
        fields.push(field)?;
    }
    Ok(fields)
}

/// The line of the event that a record is read as, the only one of a schedule or the one behind a begin record.
fn line_of(alloc: Global, record: &str) -> Result<Option<Vec<u8>>, AllocError> {
    let mut schedule = Schedule::new(alloc);
    if !record.starts_with("begin") {
        let begin = fields_of(alloc, "begin,0,1,1")?;
        if schedule.event(begin.as_slice()).is_err() {
            return Ok(None);
        }
    }
    let fields = fields_of(alloc, record)?;
    let Ok(Some(event)) = schedule.event(fields.as_slice()) else {
        return Ok(None);
    };
    let mut writer = TraceWriter::behind(Vec::new(alloc));
    writer.event(7, &event)?;
    Ok(Some(writer.finish(true)))
}

#[test]
fn a_record_is_written_as_it_is_read(rt: HostRuntime) -> Result<(), Fail> {
    for record in RECORDS {
        let line = line_of(rt.alloc(), record)?.ok_or("an event")?;
        let expected = format!(in rt.alloc(); "event,7,{record}\n")?;
        assert_eq!(rt; line.as_slice(), expected.as_bytes());
    }
    Ok(())
}

#[test]
fn lines_stand_behind_the_text(rt: HostRuntime) -> Result<(), Fail> {
    let mut writer = TraceWriter::behind(Vec::from_slice(rt.alloc(), b"before\n")?);
    writer.refused_by_group(GroupRefusal::WrongSize(Part::Tries, 256))?;
    writer.report(&ClientId([171; 16]), &Report::WrongPin { left: 2 })?;
    writer.closing(&Closing {
        log: 5,
        within: false,
        events: 1,
        messages: 2,
        answers: 3,
    })?;
    writer.stopped_at_limit(Quantity::States)?;
    let text = writer.finish(true);
    assert_eq!(rt;
        text.as_slice(),
        b"before\nrefused,size,tries,256\nclient,abababababababababababababababab,wrongpin,2\nlog,5\nrollbacks,exceeded\nend,1,2,3\nstopped,limit,states\n".as_slice()
    );
    Ok(())
}

#[test]
fn an_event_stands_before_its_batch(rt: HostRuntime) -> Result<(), Fail> {
    let batch = Batch {
        lead: Some(2),
        members: Items::new(rt.alloc()),
        halt: None,
        taken: None,
        commits: Items::new(rt.alloc()),
        answers: Items::new(rt.alloc()),
        sent: Items::new(rt.alloc()),
        saved: Some(1),
        refused: Some(Refusal::NoLink(9)),
    };
    let mut text = Vec::from_slice(rt.alloc(), b"before\n")?;
    trace_lines(4, &Event::Tick { replica: 3 }, &batch, 1, 1, 3, &mut text)?;
    let mut writer = TraceWriter::behind(text);
    writer.stopped_at_record(5, &RecordFault::new(Cause::Fields, 0))?;
    writer.stopped_at_frame()?;
    assert_eq!(rt;
        writer.finish(true).as_slice(),
        b"before\nevent,4,tick,3\nlead,3,2\nsaved,3,1\nrefused,nolink,9\nstopped,schedule,5,fields,0\nstopped,frame\n".as_slice()
    );
    Ok(())
}
