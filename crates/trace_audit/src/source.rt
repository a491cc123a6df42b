//! A trace is read from a source in pieces, and audited line by line.
ghost use Rattle.std.specs.Prelude.{◌≡◌, ◌+◌, ◌∷◌, ◌++◌, ◌<◌, ◌≤◌, ◌^◌, ℕ, List, [], length, OnOk};
ghost use Rattle.std.specs.Io.KnownBytes.{Consumes};
ghost use Rattle.byte_streams.specs.Causes.{Rose};
ghost use Rattle.trace_audit.specs.Ends.{EndsAfter};
ghost use Rattle.trace_model.specs.Audit as model;
ghost use Rattle.trace_audit.specs.Stands.{Stands};
ghost use Rattle.trace_audit.specs.Taking.{Finishes, IsFront, IsTold, IsWithinLine, TakesBytes};

use crate::audit::{Audit, AuditError, Why};
use crate::told::tell;
use byte_streams::{PIECE, Source};
use memchr::memchr;
use std::alloc::Global;
use trace_lines::MAX_LINE;

/// The most bytes of a trace that are read.
pub const MAX_TRACE: usize = 1_099_511_627_776;

/// How the audit of a source ended.
#[derive(Clone, Copy, Debug, PartialEq, Eq)]
pub enum Audited {
    /// The trace is accepted, and has so many lines.
    Accepts(u64),
    /// The line of this number, from 1, is refused. The number of a line that is missing at the end is one past the last.
    Refuses(u64, Why),
    /// Memory ran out.
    Memory,
    /// The source failed.
    ReadFault,
    /// The source holds more than [`MAX_TRACE`] bytes, and nothing among these is refused.
    Limit,
}

/// What is kept of the first bytes of a trace.
#[derive(Drop)]
struct Front {
    alloc: Global,
    audit: Audit,
    /// How many lines were taken.
    lines: u64,
    /// What follows the last line feed.
    pending: Vec<u8>,
}

impl Front {
    /// No byte was taken.
    fn new(alloc: Global) -> Front
        ensures stands { IsFront result [] }
        ensures lines { result.lines ≡ 0 }
    {
        Front {
            alloc,
            audit: Audit::new(alloc),
            lines: 0,
            pending: Vec::new(alloc),
        }
    }

    /// Takes the next bytes of the trace. `Wrong` comes at the line after those that were taken.
    fn take(&mut self, piece: &[u8]) -> Result<(), AuditError>
        requires room { self.old.lines + length piece.now < 2 ^ 62 }
        requires short { length piece.now < 2 ^ 32 }
        ensures takes { (bytes : List ℕ) → IsFront self.old bytes → TakesBytes result self.new (bytes ++ piece.now) }
        ensures lines { self.new.lines ≤ self.old.lines + length piece.now }
    {
        let mut rest = piece;
        while let Some(end) = memchr(b'\n', rest) {
            self.end_line(&rest[..end])?;
            rest = &rest[end + 1..];
        }
        self.keep(rest)
    }

    /// Takes the line that has begun and ends with these bytes and a line feed.
    fn end_line(&mut self, end: &[u8]) -> Result<(), AuditError>
        requires { self.old.lines < 2 ^ 62 }
        ensures takes { (bytes : List ℕ) → IsWithinLine end.now → IsFront self.old bytes
            → TakesBytes result self.new (bytes ++ (end.now ++ 10 ∷ [])) }
        ensures lines { self.new.lines ≤ self.old.lines + 1 }
    {
        self.tell(end)?;
        self.lines += 1;
        Ok(())
    }

    /// Tells the auditor the line that has begun and ends with these bytes.
    fn tell(&mut self, end: &[u8]) -> Result<(), AuditError>
        ensures told { (state : model.Audit) → Stands self.old.audit state
            → IsTold result state (self.old.pending.items ++ end.now ++ 10 ∷ []) self.new.audit }
        ensures pending { OnOk result (self.new.pending.items ≡ []) }
        ensures lines { self.new.lines ≡ self.old.lines }
    {
        if self.pending.is_empty() {
            return tell(self.alloc, &mut self.audit, end);
        }
        self.pending.extend_from_slice(end)?;
        tell(self.alloc, &mut self.audit, self.pending.as_slice())?;
        self.pending.clear();
        Ok(())
    }

    /// Keeps bytes of a line that has not ended yet. `Wrong` comes where it is too long for a line.
    fn keep(&mut self, start: &[u8]) -> Result<(), AuditError>
        requires { length start.now < 2 ^ 32 }
        ensures takes { (bytes : List ℕ) → IsWithinLine start.now → IsFront self.old bytes
            → TakesBytes result self.new (bytes ++ start.now) }
        ensures lines { self.new.lines ≡ self.old.lines }
    {
        if self.pending.len() + start.len() > MAX_LINE {
            return Err(AuditError::Wrong(Why::Grammar));
        }
        self.pending.extend_from_slice(start)?;
        Ok(())
    }

    /// The verdict, where nothing follows.
    fn finish(&self) -> Audited
        requires { self.now.lines < 2 ^ 62 }
        ensures { (bytes : List ℕ) → IsFront self.now bytes → Finishes result bytes }
    {
        if !self.pending.is_empty() {
            return Audited::Refuses(self.lines + 1, Why::Grammar);
        }
        match self.audit.finish() {
            Ok(()) => Audited::Accepts(self.lines),
            Err(why) => Audited::Refuses(self.lines + 1, why),
        }
    }
}

/// Reads on to the end of the trace, or up to what decides.
fn read_on<S: Source>(source: &mut S, front: &mut Front, buffer: &mut [u8]) -> Audited
    requires none { IsFront front.old [] }
    requires size { length buffer.old ≡ 65536 }
    ensures ends { (taken : List ℕ) × Consumes (S.left source.old) (S.left source.new) taken × EndsAfter taken (S.left source.new) result }
    ensures later { S.faults source.old ≤ S.faults source.new }
    ensures cause { result ≡ Audited.ReadFault → Rose (S.faults source.old) (S.faults source.new) }
{
    let mut room = MAX_TRACE;
    loop {
        let Ok(count) = source.read(buffer) else {
            return Audited::ReadFault;
        };
        if count == 0 {
            return front.finish();
        }
        match front.take(&buffer[..count.min(room)]) {
            Ok(()) => {}
            Err(AuditError::Memory) => return Audited::Memory,
            Err(AuditError::Wrong(why)) => return Audited::Refuses(front.lines + 1, why),
        }
        if count > room {
            return Audited::Limit;
        }
        room -= count;
    }
}

/// Audits the trace that a source holds, line by line, as its bytes come.
///
/// Reads at most 65,536 bytes at once. At a refusal, and at a byte past [`MAX_TRACE`], the rest is not read. A line of more than
/// 68,000,000 bytes is refused as soon as so many were read. Want of memory is the one free end.
pub fn audit_source<S: Source>(alloc: Global, source: &mut S) -> Audited
    ensures ends { (taken : List ℕ) × Consumes (S.left source.old) (S.left source.new) taken × EndsAfter taken (S.left source.new) result }
    ensures later { S.faults source.old ≤ S.faults source.new }
    ensures cause { result ≡ Audited.ReadFault → Rose (S.faults source.old) (S.faults source.new) }
{
    let Ok(mut buffer) = vec![in alloc; 0u8; PIECE] else {
        return Audited::Memory;
    };
    read_on(source, &mut Front::new(alloc), buffer.as_mut_slice())
}
