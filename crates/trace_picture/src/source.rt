//! A trace is read from a source in pieces, and its picture drawn.
ghost use Rattle.std.specs.Prelude.{◌≡◌, ◌+◌, ◌∷◌, ◌++◌, ◌<◌, ◌≤◌, ◌^◌, ℕ, List, [], length, OnOk};
ghost use Rattle.std.specs.Io.KnownBytes.{Consumes};
ghost use Rattle.byte_streams.specs.Causes.{Rose};
ghost use Rattle.trace_picture.specs.Ends.{EndsAfter, ReadsAfter};
ghost use Rattle.trace_picture.specs.Taking.{Finishes, IsFront, IsTold, IsWithinLine, TakesBytes};

use crate::draw::draw;
use crate::reader::Reader;
use crate::view::View;
use byte_streams::{PIECE, Source};
use memchr::memchr;
use std::alloc::Global;
use trace_audit::MAX_TRACE;
use trace_lines::{LineError, MAX_LINE};
use values::Memory;

/// How the drawing of a source ended.
#[derive(Debug, Drop)]
pub enum Drawn {
    /// The picture.
    Picture(String),
    /// The line of this number, from 1, is none of a trace, or the last one has no line feed.
    NoLine(u64),
    /// Memory ran out.
    Memory,
    /// The source failed.
    ReadFault,
    /// The source holds more than [`MAX_TRACE`] bytes.
    Limit,
}

/// How the reading of a source ended.
#[derive(Clone, Copy, Debug, PartialEq, Eq)]
enum Read {
    Whole,
    NoLine(u64),
    Memory,
    Fault,
    Limit,
}

/// What is kept of the first bytes of a trace.
#[derive(Drop)]
struct Front {
    reader: Reader,
    /// How many lines were taken.
    lines: u64,
    /// What follows the last line feed.
    pending: Vec<u8>,
}

impl Front {
    /// No byte was taken.
    fn new(alloc: Global, view: View) -> Front
        ensures stands { IsFront result [] }
        ensures lines { result.lines ≡ 0 }
    {
        Front {
            reader: Reader::new(alloc, view),
            lines: 0,
            pending: Vec::new(alloc),
        }
    }

    /// Takes the next bytes of the trace. `Grammar` comes at the line after those that were taken.
    fn take(&mut self, piece: &[u8]) -> Result<(), LineError>
        requires room { self.old.lines + length piece.now < 2 ^ 62 }
        requires short { length piece.now < 2 ^ 32 }
        ensures takes { (bytes : List ℕ) → IsFront self.old bytes → TakesBytes result self.new (bytes ++ piece.now) }
        ensures lines { self.new.lines ≤ self.old.lines + length piece.now }
    {
        let mut rest = piece;
        while let Some(end) = memchr(b'\n', rest) {
            self.end_line(&rest[..end])?;
            rest = &rest[end + 1..];
        }
        self.keep(rest)
    }

    /// Takes the line that has begun and ends with these bytes and a line feed.
    fn end_line(&mut self, end: &[u8]) -> Result<(), LineError>
        requires { self.old.lines < 2 ^ 62 }
        ensures takes { (bytes : List ℕ) → IsWithinLine end.now → IsFront self.old bytes
            → TakesBytes result self.new (bytes ++ (end.now ++ 10 ∷ [])) }
        ensures lines { self.new.lines ≤ self.old.lines + 1 }
    {
        self.tell(end)?;
        self.lines += 1;
        Ok(())
    }

    /// Hands over the line that has begun and ends with these bytes.
    fn tell(&mut self, end: &[u8]) -> Result<(), LineError>
        ensures told { IsTold result (self.old.pending.items ++ end.now ++ 10 ∷ []) }
        ensures pending { OnOk result (self.new.pending.items ≡ []) }
        ensures lines { self.new.lines ≡ self.old.lines }
    {
        if self.pending.is_empty() {
            return self.reader.line(end);
        }
        if self.pending.extend_from_slice(end).is_err() {
            return Err(LineError::Memory);
        }
        self.reader.line(self.pending.as_slice())?;
        self.pending.clear();
        Ok(())
    }

    /// Keeps bytes of a line that has not ended yet. `Grammar` comes where it is too long for a line.
    fn keep(&mut self, start: &[u8]) -> Result<(), LineError>
        requires { length start.now < 2 ^ 32 }
        ensures takes { (bytes : List ℕ) → IsWithinLine start.now → IsFront self.old bytes
            → TakesBytes result self.new (bytes ++ start.now) }
        ensures lines { self.new.lines ≡ self.old.lines }
    {
        if self.pending.len() + start.len() > MAX_LINE {
            return Err(LineError::Grammar);
        }
        match self.pending.extend_from_slice(start) {
            Ok(()) => Ok(()),
            Err(_) => Err(LineError::Memory),
        }
    }

    /// How the reading ends, where nothing follows.
    fn end(&self) -> Read
        requires { self.now.lines < 2 ^ 62 }
        ensures { (bytes : List ℕ) → IsFront self.now bytes → Finishes result bytes }
    {
        if self.pending.is_empty() {
            Read::Whole
        } else {
            Read::NoLine(self.lines + 1)
        }
    }
}

/// Reads on to the end of the trace, or up to a line that is none.
fn read_on<S: Source>(source: &mut S, front: &mut Front, buffer: &mut [u8]) -> Read
    requires none { IsFront front.old [] }
    requires size { length buffer.old ≡ 65536 }
    ensures ends { (taken : List ℕ) × Consumes (S.left source.old) (S.left source.new) taken × ReadsAfter taken (S.left source.new) result }
    ensures later { S.faults source.old ≤ S.faults source.new }
    ensures cause { result ≡ Read.Fault → Rose (S.faults source.old) (S.faults source.new) }
{
    let mut room = MAX_TRACE;
    loop {
        let Ok(count) = source.read(buffer) else {
            return Read::Fault;
        };
        if count == 0 {
            return front.end();
        }
        match front.take(&buffer[..count.min(room)]) {
            Ok(()) => {}
            Err(LineError::Memory) => return Read::Memory,
            Err(LineError::Grammar) => return Read::NoLine(front.lines + 1),
        }
        if count > room {
            return Read::Limit;
        }
        room -= count;
    }
}

/// The picture of what was read.
fn finish(alloc: Global, reader: Reader) -> Result<String, Memory> {
    let picture = reader.finish()?;
    let text = draw(alloc, &picture)?;
    Ok(text)
}

/// Reads the trace that a source holds, line by line, as its bytes come, and draws the events in the view.
///
/// Every line is read, also behind the view. At a line that is none the rest is not read. Want of memory is the one free end.
pub fn draw_source<S: Source>(alloc: Global, source: &mut S, view: View) -> Drawn
    ensures ends { (taken : List ℕ) × Consumes (S.left source.old) (S.left source.new) taken × EndsAfter taken (S.left source.new) result }
    ensures later { S.faults source.old ≤ S.faults source.new }
    ensures cause { result ≡ Drawn.ReadFault → Rose (S.faults source.old) (S.faults source.new) }
{
    let Ok(mut buffer) = vec![in alloc; 0u8; PIECE] else {
        return Drawn::Memory;
    };
    let mut front = Front::new(alloc, view);
    match read_on(source, &mut front, buffer.as_mut_slice()) {
        Read::NoLine(number) => return Drawn::NoLine(number),
        Read::Memory => return Drawn::Memory,
        Read::Fault => return Drawn::ReadFault,
        Read::Limit => return Drawn::Limit,
        Read::Whole => {}
    }
    let Front { reader, .. } = front;
    match finish(alloc, reader) {
        Ok(picture) => Drawn::Picture(picture),
        Err(Memory) => Drawn::Memory,
    }
}
