ghost use Rattle.std.specs.Prelude.{◌<◌};

use crate::{Status, run};
use group_world::LocalField;
use std::alloc::{AllocError, Global};
use std::io;
use std::io::{ErrorKind, Write};
use std::test::Fail;
use svr_base::{MemSink, MemSource, Memory, StdSink};

const FIRST: &str =
    "begin,0,100,1\ntick,1\nask,1,00000000000000000000000000000001,1,12360a10aaaaaaaaaaaaaaaaaaaaaaaaaaaaaaaa122011111111111111111111111111111111111111111111111111111111111111111803\n";

const FIRST_TRACE: &str =
    "event,1,begin,0,100,1\nevent,2,tick,1\nlead,1,1\ncommit,1,1,1,noop\nevent,3,ask,1,00000000000000000000000000000001,1,12360a10aaaaaaaaaaaaaaaaaaaaaaaaaaaaaaaa122011111111111111111111111111111111111111111111111111111111111111111803\ncommit,1,2,1,ask,00000000000000000000000000000001,1,12360a10aaaaaaaaaaaaaaaaaaaaaaaaaaaaaaaa122011111111111111111111111111111111111111111111111111111111111111111803\nanswer,1,1,00000000000000000000000000000001,1,outcome,2,done,0a020801\nlog,2\nrollbacks,within\nend,3,0,1\n";

/// A run over a source that gives at most so many bytes a call, and a sink.
#[derive(Clone, Copy)]
struct Trial {
    word: &'static str,
    text: &'static str,
    most: usize,
    failing_read: u64,
    failing_write: u64,
    ghost moves: { 0 < most },
}

fn replay(text: &'static str, most: usize) -> Trial
    requires { 0 < most }
{
    Trial {
        word: "replay",
        text,
        most,
        failing_read: 0,
        failing_write: 0,
    }
}

/// What it answers and writes.
fn outcome(alloc: Global, trial: &Trial) -> Result<(Status, Vec<u8>), Memory> {
    let mut words = Vec::new(alloc);
    words.push(String::from_str(alloc, trial.word)?)?;
    let text = Vec::from_slice(alloc, trial.text.as_bytes())?;
    let failing = Vec::from_slice(alloc, &[trial.failing_read])?;
    let mut source = MemSource::new(text, trial.most, failing);
    let failing = Vec::from_slice(alloc, &[trial.failing_write])?;
    let mut sink = MemSink::new(alloc, 10_000, failing)?;
    let field = LocalField::new(alloc);
    let (status, _field) = run(alloc, words.as_slice(), &mut source, &mut sink, field);
    Ok((status, Vec::from_slice(alloc, sink.taken())?))
}

#[test]
fn an_empty_source_has_the_closing_lines(rt: HostRuntime) -> Result<(), Fail> {
    let (status, written) = outcome(rt.alloc(), &replay("", 65_536))?;
    assert_eq!(rt; status, Status::Done);
    assert_eq!(rt;
        written.as_slice(),
        b"log,0\nrollbacks,within\nend,0,0,0\n".as_slice()
    );
    Ok(())
}

#[test]
fn one_backup_is_answered_in_pieces_of_any_size(rt: HostRuntime) -> Result<(), Fail> {
    for most in [1, 7, 65_536] {
        let (status, written) = outcome(rt.alloc(), &replay(FIRST, most))?;
        assert_eq!(rt; status, Status::Done);
        assert_eq!(rt; written.as_slice(), FIRST_TRACE.as_bytes());
    }
    Ok(())
}

#[test]
fn another_word_is_no_command(rt: HostRuntime) -> Result<(), Fail> {
    let mut trial = replay(FIRST, 65_536);
    trial.word = "play";
    let (status, written) = outcome(rt.alloc(), &trial)?;
    assert_eq!(rt; status, Status::Usage);
    assert_eq!(rt; written.as_slice(), b"".as_slice());
    Ok(())
}

/// The lines of the first two records.
const TWO_LINES: &str = "event,1,begin,0,100,1\nevent,2,tick,1\nlead,1,1\ncommit,1,1,1,noop\n";

#[test]
fn a_read_that_fails_inside_the_third_line_leaves_two(rt: HostRuntime) -> Result<(), Fail> {
    // Three reads give the first two lines, and the fourth begins the third.
    let mut trial = replay(FIRST, 7);
    trial.failing_read = 5;
    let (status, written) = outcome(rt.alloc(), &trial)?;
    assert_eq!(rt; status.code(), 4);
    assert_eq!(rt; written.as_slice(), TWO_LINES.as_bytes());
    Ok(())
}

#[test]
fn a_write_that_fails_ends_the_run(rt: HostRuntime) -> Result<(), Fail> {
    let mut trial = replay(FIRST, 65_536);
    trial.failing_write = 1;
    let (status, written) = outcome(rt.alloc(), &trial)?;
    assert_eq!(rt; status.code(), 5);
    assert_eq!(rt; written.as_slice(), b"".as_slice());
    Ok(())
}

#[test]
fn the_lines_of_a_piece_are_written_at_once(rt: HostRuntime) -> Result<(), Fail> {
    // The second write has the closing lines alone.
    let mut trial = replay(FIRST, 65_536);
    trial.failing_write = 2;
    let (status, written) = outcome(rt.alloc(), &trial)?;
    assert_eq!(rt; status.code(), 5);
    let events = FIRST_TRACE.len() - "log,2\nrollbacks,within\nend,3,0,1\n".len();
    assert_eq!(rt; written.as_slice(), &FIRST_TRACE.as_bytes()[..events]);
    Ok(())
}

/// Takes at most five bytes a call, and fails at the call of this number.
#[derive(Drop)]
struct PartWriter {
    taken: Vec<u8>,
    calls: u64,
    failing: u64,
}

impl Write for PartWriter {
    fn write(&mut self, buf: &[u8]) -> io::Result<usize> {
        self.calls = self.calls.saturating_add(1);
        if self.calls == self.failing {
            return Err(io::Error::from(ErrorKind::BrokenPipe));
        }
        let count = buf.len().min(5);
        match self.taken.extend_from_slice(&buf[..count]) {
            Ok(()) => Ok(count),
            Err(AllocError) => Err(io::Error::from(ErrorKind::OutOfMemory)),
        }
    }

    fn flush(&mut self) -> io::Result<()> {
        Ok(())
    }
}

/// What a replay of the first schedule writes to such a writer.
fn parts(alloc: Global, failing: u64) -> Result<(Status, Vec<u8>), Memory> {
    let mut words = Vec::new(alloc);
    words.push(String::from_str(alloc, "replay")?)?;
    let text = Vec::from_slice(alloc, FIRST.as_bytes())?;
    let mut source = MemSource::new(text, 65_536, Vec::new(alloc));
    let mut writer = PartWriter {
        taken: Vec::new(alloc),
        calls: 0,
        failing,
    };
    let (status, _field) = run(
        alloc,
        words.as_slice(),
        &mut source,
        &mut StdSink::new(&mut writer),
        LocalField::new(alloc),
    );
    Ok((status, writer.taken))
}

#[test]
fn a_sink_may_take_a_piece_in_parts(rt: HostRuntime) -> Result<(), Fail> {
    let (status, written) = parts(rt.alloc(), 0)?;
    assert_eq!(rt; status.code(), 0);
    assert_eq!(rt; written.as_slice(), FIRST_TRACE.as_bytes());
    let (status, written) = parts(rt.alloc(), 4)?;
    assert_eq!(rt; status.code(), 5);
    assert_eq!(rt; written.as_slice(), b"event,1,begin,0".as_slice());
    Ok(())
}
