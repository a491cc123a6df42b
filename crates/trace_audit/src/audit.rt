//! The audit of a trace.
ghost use Rattle.std.specs.Prelude.{◌≡◌, ℕ, [], ◌∷◌, ◌++◌, true, length, List, Option, None, OnOk, OnErr};
ghost use Rattle.group_quorum.specs.Conf.{Conf};
ghost use Rattle.replica_model.specs.Path.{Path, entry_at};
ghost use Rattle.group_model.specs.Group.{Setup};
ghost use Rattle.trace_model.specs.TraceLines as lines;
ghost use Rattle.trace_model.specs.Audit as model;
ghost use Rattle.trace_lines.specs.Meant.{meant};
ghost use Rattle.trace_audit.specs.Bounds.{StandsBound};
ghost use Rattle.trace_audit.specs.Steps.{fault, kind_fault, after, is_commit, is_outcome, added, setup_after, book_after, confs_after, rolled_after, rolling_after};
ghost use Rattle.trace_audit.specs.Stands.{Stands, StandsBook, Takes, IsPlayable, verdict_of, fault_told, begun_by};
ghost use Rattle.trace_audit.specs.declared.audit.AuditError.TheVariants as errors;

use crate::book::Book;
use crate::bound::Bound;
use crate::closing::Stage;
use std::alloc::{AllocError, Global};
use std::marker::Model;
use trace_lines::TraceLine;
use values::{ClientId, Event, LogEntry, Memory, ReplicaId, Reply};

/// What an auditor keeps of the lines that it was told.
#[derive(Debug, Drop)]
pub struct Audit {
    alloc: Global,
    stage: Stage,
    /// Once the trace has begun.
    book: Option<Book>,
    bound: Bound,
}

/// Why a line was not taken.
#[derive(Clone, Copy, Debug, PartialEq, Eq)]
pub enum AuditError {
    /// Memory ran out.
    Memory,
    /// The line is refused.
    Wrong(Why),
}

/// Why a line is refused.
#[derive(Clone, Copy, Debug, PartialEq, Eq)]
pub enum Why {
    /// It is no line of a trace, a second begin, or a configuration before the begin.
    Grammar,
    /// The entry is another than that of its place, or would leave a gap in the log.
    Commit,
    /// No request of that client and number stands at the place, or the reply is another.
    Outcome,
    /// The log has another length.
    Log,
    /// The rollbacks were within the bound where it says that they were not, or the other way round.
    Rollbacks,
    /// A closing line is missing, or a line stands where it may not: out of the closing lines' order, or after the last one.
    End,
}

impl From<AllocError> for AuditError {
    ghost from_gives = { λ _ error. error ≡ errors.Memory };

    fn from(_error: AllocError) -> AuditError {
        AuditError::Memory
    }
}

impl From<Memory> for AuditError {
    ghost from_gives = { λ _ error. error ≡ errors.Memory };

    fn from(_memory: Memory) -> AuditError {
        AuditError::Memory
    }
}

impl Model for Audit {
    ghost use Rattle.trace_audit.specs.Stands.{Kept, stage_of};

    ghost Value = { Kept };

    ghost view = { λ a. record { stage = stage_of a.stage; book = a.book; bound = a.bound } };
}

impl Audit {
    /// An audit that was told no line.
    pub fn new(alloc: Global) -> Audit
        ensures { Stands result model.new_audit }
    {
        Audit {
            alloc,
            stage: Stage::Playing,
            book: None,
            bound: Bound::new(alloc),
        }
    }

    /// Takes the next line. `Wrong` comes exactly where the line is refused, with the first of these that holds: `Grammar`,
    /// `End`, then what its kind is checked for. After `Wrong` and after `Memory` the audit is as before the call: the trace
    /// is refused, or this audit cannot go on.
    pub fn line(&mut self, line: TraceLine) -> Result<(), AuditError>
        requires { IsPlayable (meant line) }
        ensures step { (state : model.Audit) → Stands self.old state → Takes result (model.audited state (meant line)) self.new }
        ensures err { OnErr result (self.new ≡ self.old) }
    {
        if let Err(why) = self.check(&line) {
            return Err(AuditError::Wrong(why));
        }
        self.take(line)?;
        Ok(())
    }

    /// Whether the trace may end here: `End` exactly where its last line is neither an end line nor says why it stopped.
    pub fn finish(&self) -> Result<(), Why>
        ensures { (state : model.Audit) (n : ℕ) → Stands self.now state → verdict_of n result ≡ model.finished n state }
    {
        if self.stage == Stage::Over {
            Ok(())
        } else {
            Err(Why::End)
        }
    }

    /// Why the line is refused, if it is.
    fn check(&self, line: &TraceLine) -> Result<(), Why>
        ensures { (state : model.Audit) → Stands self.now state → fault_told result ≡ fault state (meant line.now) }
    {
        if self.is_misplaced(line) {
            return Err(Why::Grammar);
        }
        if !self.stage.takes(line) {
            return Err(Why::End);
        }
        self.check_kind(line)
    }

    /// Whether the line is a second begin, or a configuration before the begin.
    fn is_misplaced(&self, line: &TraceLine) -> bool
        ensures { (state : model.Audit) → Stands self.now state → result ≡ model.is_misplaced state.setup (meant line.now) }
    {
        match line {
            TraceLine::Event {
                what: Event::Begin { .. },
                ..
            } => self.book.is_some(),
            TraceLine::Members { .. } => self.book.is_none(),
            _ => false,
        }
    }

    /// Checks the line against the book, and against the rolls.
    fn check_kind(&self, line: &TraceLine) -> Result<(), Why>
        ensures { (state : model.Audit) → Stands self.now state → fault_told result ≡ kind_fault state (meant line.now) }
    {
        let (holds, why) = match line {
            TraceLine::Commit { index, entry, .. } => (self.fits(*index, entry), Why::Commit),
            TraceLine::Outcome {
                client,
                number,
                index,
                reply,
            } => (self.answers(client, *number, *index, reply), Why::Outcome),
            TraceLine::LogEnd(len) => (*len == self.len(), Why::Log),
            TraceLine::Rollbacks(within) => (*within == self.bound.is_within(), Why::Rollbacks),
            _ => return Ok(()),
        };
        if holds { Ok(()) } else { Err(why) }
    }

    /// Whether the entry may commit at the index.
    fn fits(&self, index: u64, entry: &LogEntry) -> bool
        ensures { (state : model.Audit) → Stands self.now state
            → result ≡ is_commit state.setup state.book index entry.now }
    {
        match &self.book {
            Some(book) => book.fits(index, entry),
            None => false,
        }
    }

    /// Whether this is the reply to the client's request of that number, at the index.
    fn answers(&self, client: &ClientId, number: u64, index: u64, reply: &Reply) -> bool
        ensures { (state : model.Audit) → Stands self.now state
            → result ≡ is_outcome state.setup state.book client.now number index reply.now }
    {
        match &self.book {
            Some(book) => book.answers(client, number, index, reply),
            None => false,
        }
    }

    /// How many entries were committed.
    fn len(&self) -> u64
        ensures { (state : model.Audit) → Stands self.now state → result ≡ length state.book }
    {
        match &self.book {
            Some(book) => book.len(),
            None => 0,
        }
    }

    /// Takes in a line that is not refused. After `Memory` nothing has changed.
    fn take(&mut self, line: TraceLine) -> Result<(), Memory>
        requires { IsPlayable (meant line) }
        ensures ok { (state : model.Audit) → Stands self.old state → fault state (meant line) ≡ None
            → OnOk result (Stands self.new (after state (meant line))) }
        ensures err { OnErr result (self.new ≡ self.old) }
    {
        let stage = self.stage.after(&line);
        self.record(line)?;
        self.stage = stage;
        Ok(())
    }

    /// Takes in what a line says that is not refused, but for where the trace stands. After `Memory` nothing has changed.
    fn record(&mut self, line: TraceLine) -> Result<(), Memory>
        requires { IsPlayable (meant line) }
        ensures stage { self.new.stage ≡ self.old.stage }
        ensures book { (state : model.Audit) → StandsBook self.old.book state.setup state.book → fault state (meant line) ≡ None
            → OnOk result (StandsBook self.new.book (setup_after state.setup (meant line)) (book_after state.book (meant line))) }
        ensures bound { (confs : List Conf) (rolled rolling : List ℕ) → StandsBound self.old.bound confs rolled rolling
            → OnOk result (StandsBound self.new.bound (confs_after confs (meant line)) (rolled_after rolling rolled (meant line))
            (rolling_after (meant line))) }
        ensures err { OnErr result (self.new ≡ self.old) }
    {
        match line {
            TraceLine::Event {
                number: _number,
                what,
            } => self.play(what),
            TraceLine::Commit {
                replica: _replica,
                index,
                entry,
            } => {
                self.commit(index, entry)?;
                self.bound.settle();
                Ok(())
            }
            TraceLine::Members { margin, voters } => self.members(margin, voters.as_slice()),
            TraceLine::Refused => {
                self.bound.refuse();
                Ok(())
            }
            other => {
                drop(other);
                self.bound.settle();
                Ok(())
            }
        }
    }

    /// Takes in a configuration. After `Memory` nothing has changed.
    fn members(&mut self, margin: u8, voters: &[ReplicaId]) -> Result<(), Memory>
        ensures stage { self.new.stage ≡ self.old.stage }
        ensures book { self.new.book ≡ self.old.book }
        ensures bound { let conf : Conf = record { margin = margin; voters = voters.now } in
            (confs : List Conf) (rolled rolling : List ℕ) → StandsBound self.old.bound confs rolled rolling
            → OnOk result (StandsBound self.new.bound (conf ∷ confs) (rolling ++ rolled) []) }
        ensures err { OnErr result (self.new ≡ self.old) }
    {
        self.bound.members(margin, voters)?;
        self.bound.settle();
        Ok(())
    }

    /// Takes in an event: of a begin all that it says, of a roll who was rolled back. After `Memory` nothing has changed.
    fn play(&mut self, event: Event) -> Result<(), Memory>
        requires { (number : ℕ) → IsPlayable (lines.EventLine number event) }
        ensures stage { self.new.stage ≡ self.old.stage }
        ensures book { OnOk result (self.new.book ≡ begun_by self.old.book event) }
        ensures bound { (number : ℕ) (confs : List Conf) (rolled rolling : List ℕ) → StandsBound self.old.bound confs rolled rolling
            → OnOk result (StandsBound self.new.bound (confs_after confs (lines.EventLine number event)) (rolling ++ rolled)
            (rolling_after (lines.EventLine number event))) }
        ensures err { OnErr result (self.new ≡ self.old) }
    {
        match event {
            Event::Begin {
                margin,
                limit,
                voters,
            } => {
                self.members(margin, voters.as_slice())?;
                self.book = Some(Book::new(self.alloc, limit));
                Ok(())
            }
            Event::Roll { replica, .. } => self.bound.roll(replica),
            other => {
                drop(other);
                self.bound.settle();
                Ok(())
            }
        }
    }

    /// Takes in an entry that may commit at the index. After `Memory` nothing has changed.
    fn commit(&mut self, index: u64, entry: LogEntry) -> Result<(), Memory>
        ensures stage { self.new.stage ≡ self.old.stage }
        ensures bound { self.new.bound ≡ self.old.bound }
        ensures book { (setup : Option Setup) (entries : Path) → StandsBook self.old.book setup entries
            → is_commit setup entries index entry ≡ true
            → OnOk result (StandsBook self.new.book setup (added entries entry (entry_at entries index))) }
        ensures err { OnErr result (self.new ≡ self.old) }
    {
        match &mut self.book {
            Some(book) => book.commit(index, entry),
            None => Ok(()),
        }
    }
}
