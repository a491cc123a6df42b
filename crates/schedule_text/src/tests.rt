use crate::{Schedule, Unread};
use std::alloc::{AllocError, Global};
use std::test::Fail;
use values::Cause;

/// Records at the beginning of a schedule, with their faults.
const FIRST_FAULTS: [(&'static str, Cause, usize); 12] = [
    ("tick,1", Cause::NoBegin, 0),
    ("settle,0", Cause::NoBegin, 0),
    ("begin,0,1", Cause::Fields, 0),
    ("begin,-1,1,1", Cause::Number, 2),
    ("begin,16,1,1", Cause::Range, 2),
    ("begin,0,0,1", Cause::Range, 3),
    ("begin,0,20001,1", Cause::Range, 3),
    ("begin,0,1,65536", Cause::Range, 4),
    ("begin,0,1,1,01", Cause::Number, 5),
    ("begin,1,1,1,2,2", Cause::Double, 0),
    ("begin,1,1,1,2", Cause::TooFew, 0),
    (
        "begin,0,1,1,2,3,4,5,6,7,8,9,10,11,12,13,14,15,16,17,18,19,20,21,22,23,24,25,26,27,28,29,30,31,1",
        Cause::TooMany,
        0,
    ),
];

/// Records behind a begin record, with their faults.
const FAULTS: [(&'static str, Cause, usize); 30] = [
    ("", Cause::Word, 1),
    ("Tick,1", Cause::Word, 1),
    ("again,000102030405060708090a0b0c0d0e0f", Cause::Word, 1),
    ("want,x,keep", Cause::Word, 3),
    ("want,x", Cause::Fields, 0),
    ("tick", Cause::Fields, 0),
    ("tick,1,", Cause::Fields, 0),
    ("ask,1,x,1", Cause::Fields, 0),
    ("begin,0,1,1", Cause::SecondBegin, 0),
    ("tick,", Cause::Number, 2),
    ("tick,01", Cause::Number, 2),
    ("tick,+1", Cause::Number, 2),
    ("start,0", Cause::Range, 2),
    ("crash,65536", Cause::Range, 2),
    ("save,x", Cause::Number, 2),
    ("deliver,0", Cause::Range, 2),
    ("lose,18446744073709551616", Cause::Range, 2),
    ("settle,1000001", Cause::Range, 2),
    ("roll,1,4294967296", Cause::Range, 3),
    ("margin,1,16", Cause::Range, 3),
    ("join,0,x", Cause::Range, 2),
    ("admit,1,x", Cause::Number, 3),
    ("remove,1,65536", Cause::Range, 3),
    ("say,0g,1", Cause::Hex, 2),
    ("hear,000102030405060708090a0b0c0d0e,1", Cause::Hex, 2),
    ("hear,000102030405060708090a0b0c0d0e0f,0", Cause::Range, 3),
    (
        "ask,1,000102030405060708090a0b0c0d0e0f,x,0",
        Cause::Number,
        4,
    ),
    ("ask,1,000102030405060708090a0b0c0d0e0f,1,0", Cause::Hex, 5),
    (
        "want,000102030405060708090a0b0c0d0e0f,recover,00",
        Cause::Hex,
        4,
    ),
    (
        "want,000102030405060708090a0b0c0d0e0f,store,0,0,x",
        Cause::Hex,
        4,
    ),
];

/// The fields of a record that has no quotes.
fn fields_of<'a>(alloc: Global, record: &'a str) -> Result<Vec<&'a [u8]>, AllocError> {
    let mut fields = Vec::new(alloc);
    for field in record.as_bytes().split(|byte| *byte == b',') {
        fields.push(field)?;
    }
    Ok(fields)
}

/// The fault of a record, at the beginning or behind a begin record.
fn fault(alloc: Global, begun: bool, record: &str) -> Result<Option<(Cause, usize)>, AllocError> {
    let mut schedule = Schedule::new(alloc);
    if begun {
        let begin = fields_of(alloc, "begin,1,20000,3,1,2")?;
        if schedule.event(begin.as_slice()).is_err() {
            return Ok(None);
        }
    }
    let fields = fields_of(alloc, record)?;
    match schedule.event(fields.as_slice()) {
        Err(Unread::Fault(fault)) => Ok(Some((fault.cause(), fault.field()))),
        _ => Ok(None),
    }
}

#[test]
fn the_first_record_has_its_faults(rt: HostRuntime) -> Result<(), Fail> {
    for (record, cause, field) in FIRST_FAULTS {
        assert_eq!(rt; fault(rt.alloc(), false, record)?, Some((cause, field)));
    }
    Ok(())
}

#[test]
fn each_field_has_its_faults(rt: HostRuntime) -> Result<(), Fail> {
    for (record, cause, field) in FAULTS {
        assert_eq!(rt; fault(rt.alloc(), true, record)?, Some((cause, field)));
    }
    Ok(())
}
