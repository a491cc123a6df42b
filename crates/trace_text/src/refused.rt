//! The line of a refusal.
ghost use Rattle.std.specs.Prelude.{◌≡◌};
ghost use Rattle.fixed_fields.specs.Written.{Puts};
ghost use Rattle.schedule_model.specs.Lines as spec;
ghost use Rattle.trace_text.specs.Refused.{meant};

use crate::field::Field::{Number, Word};
use crate::field::small;
use crate::writer::TraceWriter;
use schedule_text::part_word;
use std::alloc::AllocError;
use values::{Part, Refusal, ReplicaId};

/// Why the group refuses an event.
#[derive(Clone, Copy, Debug, PartialEq, Eq)]
pub enum GroupRefusal {
    /// There is no message of this number.
    NoMessage(u64),
    /// The message of this number is lost.
    Lost(u64),
    /// The replica does not run.
    NotRunning(ReplicaId),
    /// The replica was started before.
    AlreadyStarted(ReplicaId),
    /// The replica has no saved state of this number.
    NoSuchState(u32),
    /// Another want of the client is in flight.
    ClientBusy,
    /// This part of the want has this length, or for the tries this value, out of range.
    WrongSize(Part, u64),
    /// The client has too few numbers left above this last one.
    NumbersOut(u64),
    /// The client has nothing in flight.
    NothingInFlight,
    /// There is no answer of this number.
    NoAnswer(u64),
    /// The answer of this number is for another client.
    NotYours(u64),
}

impl TraceWriter {
    /// The line of a refusal by a replica.
    pub(crate) fn refused(&mut self, refusal: Refusal) -> Result<(), AllocError>
        ensures { Puts result self.old self.new (spec.line_text (spec.refused_line (spec.refusal_fields refusal))) }
    {
        match refusal {
            Refusal::NotLeader(known) => self.line("refused", &[Word("notleader"), small(known)]),
            Refusal::ChangePending(newest, committed) => self.line(
                "refused",
                &[Word("changepending"), Number(newest), Number(committed)],
            ),
            Refusal::AlreadyVoter(id) => self.line("refused", &[Word("alreadyvoter"), small(id)]),
            Refusal::NotVoter(id) => self.line("refused", &[Word("notvoter"), small(id)]),
            Refusal::TooFew(count) => self.line("refused", &[Word("toofew"), small(count)]),
            Refusal::TooMany(count) => self.line("refused", &[Word("toomany"), small(count)]),
            Refusal::NotCaughtUp(mark, committed) => self.line(
                "refused",
                &[Word("notcaughtup"), Number(mark), Number(committed)],
            ),
            Refusal::NoLink(id) => self.line("refused", &[Word("nolink"), small(id)]),
            Refusal::LogFull(last) => self.line("refused", &[Word("logfull"), Number(last)]),
            Refusal::NoState(state) => self.line("refused", &[Word("nostate"), small(state)]),
            Refusal::NotForMe(to) => self.line("refused", &[Word("notforme"), small(to)]),
            Refusal::BadPeer(offset) => self.line("refused", &[Word("badpeer"), Number(offset)]),
            Refusal::SameMargin(margin) => self.line(
                "refused",
                &[Word("samemargin"), small(u32::from(margin))],
            ),
        }
    }

    /// The line of a refusal by the group.
    pub fn refused_by_group(&mut self, refusal: GroupRefusal) -> Result<(), AllocError>
        ensures { Puts result self.old self.new (spec.line_text (spec.refused_line (spec.group_refusal_fields (meant refusal)))) }
    {
        match refusal {
            GroupRefusal::NoMessage(message) => self.line(
                "refused",
                &[Word("nomessage"), Number(message)],
            ),
            GroupRefusal::Lost(message) => self.line("refused", &[Word("lost"), Number(message)]),
            GroupRefusal::NotRunning(replica) => self.line(
                "refused",
                &[Word("notrunning"), small(replica)],
            ),
            GroupRefusal::AlreadyStarted(replica) => self.line(
                "refused",
                &[Word("alreadystarted"), small(replica)],
            ),
            GroupRefusal::NoSuchState(state) => self.line(
                "refused",
                &[Word("nostate"), small(state)],
            ),
            GroupRefusal::ClientBusy => self.line("refused", &[Word("clientbusy")]),
            GroupRefusal::WrongSize(part, length) => self.line(
                "refused",
                &[Word("size"), Word(part_word(part)), Number(length)],
            ),
            GroupRefusal::NumbersOut(last) => self.line(
                "refused",
                &[Word("numbersout"), Number(last)],
            ),
            GroupRefusal::NothingInFlight => self.line("refused", &[Word("nothing")]),
            GroupRefusal::NoAnswer(answer) => self.line(
                "refused",
                &[Word("noanswer"), Number(answer)],
            ),
            GroupRefusal::NotYours(answer) => self.line(
                "refused",
                &[Word("notyours"), Number(answer)],
            ),
        }
    }
}
