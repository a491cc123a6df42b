//! Small driven schedules, against texts that were worked out beside the program.

use crate::DrivePlayer;
use group_world::Halt;
use record_stream::{Ended, play_source};
use std::alloc::Global;
use std::test::Fail;
use svr_base::{Cause, MemSink, MemSource, Memory};

/// One voter: a secret is stored, and then a wrong PIN is tried.
const STORED: &str = "\
begin,0,100,1
want,00000000000000000000000000000001,store,aaaaaaaaaaaaaaaaaaaaaaaaaaaaaaaa,1111111111111111111111111111111111111111111111111111111111111111,3
want,00000000000000000000000000000001,recover,2222222222222222222222222222222222222222222222222222222222222222
";

/// Its text.
const STORED_TEXT: &str = "\
event,1,begin,0,100,1
event,2,want,00000000000000000000000000000001,store,aaaaaaaaaaaaaaaaaaaaaaaaaaaaaaaa,1111111111111111111111111111111111111111111111111111111111111111,3
event,3,tick,1
lead,1,1
commit,1,1,1,noop
event,4,say,00000000000000000000000000000001,1
commit,1,2,1,ask,00000000000000000000000000000001,1,12360a10aaaaaaaaaaaaaaaaaaaaaaaaaaaaaaaa122011111111111111111111111111111111111111111111111111111111111111111803
answer,1,1,00000000000000000000000000000001,1,outcome,2,done,0a020801
event,5,hear,00000000000000000000000000000001,1
event,6,say,00000000000000000000000000000001,1
commit,1,3,1,ask,00000000000000000000000000000001,2,2a120a10aaaaaaaaaaaaaaaaaaaaaaaaaaaaaaaa
answer,2,1,00000000000000000000000000000001,2,outcome,3,done,22020801
event,7,hear,00000000000000000000000000000001,2
client,00000000000000000000000000000001,stored
event,8,want,00000000000000000000000000000001,recover,2222222222222222222222222222222222222222222222222222222222222222
event,9,say,00000000000000000000000000000001,1
commit,1,4,1,ask,00000000000000000000000000000001,3,1a220a202222222222222222222222222222222222222222222222222222222222222222
answer,3,1,00000000000000000000000000000001,3,outcome,4,done,120408031802
event,10,hear,00000000000000000000000000000001,3
client,00000000000000000000000000000001,wrongpin,2
log,4
rollbacks,within
end,10,0,3
";

/// The only voter crashes before a client wants something.
const GIVEN_UP: &str = "\
begin,0,100,1
crash,1
want,00000000000000000000000000000001,recover,1111111111111111111111111111111111111111111111111111111111111111
";

/// The end of its text, after the sixteenth turn.
const GIVEN_UP_END: &str = "\
event,35,say,00000000000000000000000000000001,1
refused,notrunning,1
gaveup,00000000000000000000000000000001,16
log,0
rollbacks,within
end,35,0,0
";

/// How playing this text ended, and what was written.
fn play(alloc: Global, text: &str) -> Result<(Ended<Halt>, Vec<u8>), Memory> {
    let bytes = Vec::from_slice(alloc, text.as_bytes())?;
    let mut source = MemSource::new(bytes, 65_536, Vec::new(alloc));
    let mut sink = MemSink::new(alloc, 10_000, Vec::new(alloc))?;
    let mut player = DrivePlayer::new(alloc);
    let ended = play_source(alloc, &mut player, &mut source, &mut sink);
    Ok((ended, Vec::from_slice(alloc, sink.taken())?))
}

#[test]
fn wants_are_carried_to_their_reports(rt: HostRuntime) -> Result<(), Fail> {
    let (ended, written) = play(rt.alloc(), STORED)?;
    assert_eq!(rt; ended, Ended::Done);
    assert_eq!(rt; written.as_slice(), STORED_TEXT.as_bytes());
    Ok(())
}

#[test]
fn after_sixteen_turns_the_driver_gives_up(rt: HostRuntime) -> Result<(), Fail> {
    let (ended, written) = play(rt.alloc(), GIVEN_UP)?;
    assert_eq!(rt; ended, Ended::Done);
    assert!(rt; written.as_slice().ends_with(GIVEN_UP_END.as_bytes()));
    Ok(())
}

#[test]
fn again_is_a_word_once_the_group_has_begun(rt: HostRuntime) -> Result<(), Fail> {
    let again = "again,00000000000000000000000000000001\n";
    let (ended, written) = play(rt.alloc(), again)?;
    let why = Halt::Record {
        number: 1,
        cause: Cause::NoBegin,
        field: 0,
    };
    assert_eq!(rt; ended, Ended::Stopped(why));
    assert_eq!(rt;
        written.as_slice(),
        b"stopped,schedule,1,nobegin,0\n".as_slice()
    );
    Ok(())
}

#[test]
fn again_makes_no_event_where_nothing_is_in_flight(rt: HostRuntime) -> Result<(), Fail> {
    let text = "begin,0,100,1\nagain,00000000000000000000000000000001\n";
    let (ended, written) = play(rt.alloc(), text)?;
    assert_eq!(rt; ended, Ended::Done);
    let all = "event,1,begin,0,100,1\nlog,0\nrollbacks,within\nend,1,0,0\n";
    assert_eq!(rt; written.as_slice(), all.as_bytes());
    Ok(())
}
