//! Sessions against worked bytes.
use crate::{FrameCause, Served, serve_session, serve_tagged};
use byte_streams::{MemSink, MemSource};
use enclave_host::HostFault;
use link_tags::{Side, TagEnd};
use std::alloc::Global;
use std::test::Fail;

// Replica 1 begins alone, and its timer runs out.
const INPUT: &[u8] = b"\0\0\0\x0f\x01\0\0\0\x01\0\0\0\0\x64\x01\0\0\0\x01\0\0\0\x01\x03";
// It leads in term 1, and has committed its first entry.
const OUTPUT: &[u8] =
    b"\0\0\0\0\0\0\0\x23\x01\0\0\0\x08\0\0\0\0\0\0\0\x01\x05\0\0\0\x11\0\0\0\0\0\0\0\x01\0\0\0\0\0\0\0\x01\0";
// Where its second frame is.
const SECOND: usize = 19;

/// How the session of these bytes ends, and what was written.
fn served(
    alloc: Global,
    bytes: &[u8],
    room: usize,
    failing: &[u64],
) -> Result<(Served, Vec<u8>), Fail> {
    let mut source = MemSource::new(bytes.to_vec(alloc)?, 7, failing.to_vec(alloc)?);
    let mut sink = MemSink::new(alloc, room, Vec::new(alloc))?;
    let end = serve_session(alloc, &mut source, &mut sink);
    Ok((end, sink.taken().to_vec(alloc)?))
}

/// A frame that is bad.
fn bad(at: u64, cause: FrameCause) -> Served {
    Served::Frame { at, cause }
}

#[test]
fn a_session_of_two_frames_is_served_and_may_be_cut_anywhere(rt: HostRuntime) -> Result<(), Fail> {
    for size in 0..=INPUT.len() {
        let (end, out) = served(rt.alloc(), &INPUT[..size], 100, &[])?;
        let (wanted, written) = match size {
            0 => (Served::Done, 0),
            1..SECOND => (bad(0, FrameCause::Cut), 0),
            SECOND => (Served::Done, 4),
            20..24 => (bad(19, FrameCause::Cut), 4),
            _ => (Served::Done, OUTPUT.len()),
        };
        assert_eq!(rt; end, wanted);
        assert_eq!(rt; out.as_slice(), &OUTPUT[..written]);
    }
    Ok(())
}

#[test]
fn a_bad_frame_is_told_by_its_offset_and_cause(rt: HostRuntime) -> Result<(), Fail> {
    let rows: [(&[u8], FrameCause); 4] = [
        (b"\0\0\0\0", FrameCause::Length(0)),
        (b"\0\x10\0\x01", FrameCause::Length(1_048_577)),
        (b"\0\0\0\x01\x63", FrameCause::Content(HostFault::Kind(99))),
        (&INPUT[..SECOND], FrameCause::BegunAgain),
    ];
    for (frame, cause) in rows {
        let mut bytes = INPUT[..SECOND].to_vec(rt.alloc())?;
        bytes.extend_from_slice(frame)?;
        let (end, out) = served(rt.alloc(), bytes.as_slice(), 100, &[])?;
        assert_eq!(rt; end, bad(19, cause));
        assert_eq!(rt; out.as_slice(), &OUTPUT[..4]);
    }
    let (end, _) = served(rt.alloc(), &INPUT[SECOND..], 100, &[])?;
    assert_eq!(rt; end, bad(0, FrameCause::NotBegun));
    Ok(())
}

#[test]
fn faults_are_told_with_what_was_written(rt: HostRuntime) -> Result<(), Fail> {
    let (end, out) = served(rt.alloc(), INPUT, 100, &[5])?;
    assert_eq!(rt; end, Served::ReadFault);
    assert_eq!(rt; out.as_slice(), &OUTPUT[..4]);
    let (end, out) = served(rt.alloc(), INPUT, 10, &[])?;
    assert_eq!(rt; end, Served::WriteFault);
    assert_eq!(rt; out.as_slice(), &OUTPUT[..10]);
    Ok(())
}

#[test]
fn a_frame_that_is_sent_again_has_a_wrong_tag(rt: HostRuntime) -> Result<(), Fail> {
    let key = [7; 32];
    let mut host = TagEnd::new(key, Side::Host);
    let mut bytes = Vec::new(rt.alloc());
    host.seal(&INPUT[4..SECOND], &mut bytes)?;
    let again = bytes.as_slice().to_vec(rt.alloc())?;
    bytes.extend_from_slice(again.as_slice())?;
    let mut source = MemSource::new(bytes, 100, Vec::new(rt.alloc()));
    let mut sink = MemSink::new(rt.alloc(), 100, Vec::new(rt.alloc()))?;
    let end = serve_tagged(rt.alloc(), key, &mut source, &mut sink);
    assert_eq!(rt; end, bad(51, FrameCause::Tag(1)));
    // One empty batch with its tag was written.
    let mut sealed = Vec::new(rt.alloc());
    TagEnd::new(key, Side::Enclave).seal(&[], &mut sealed)?;
    assert_eq!(rt; sink.taken(), sealed.as_slice());
    Ok(())
}
