//! The model of a picture is made, line by line.
ghost use Rattle.std.specs.Prelude.{◌≡◌, ◌∷◌, ◌++◌, [], IfErr};
ghost use Rattle.trace_picture.specs.Taking.{IsTold};

use crate::effect::{Effect, actor_of, client_place, effect_of};
use crate::fields::{cut, is_word, number, push_client, push_fields};
use crate::gaveup::is_gaveup;
use crate::lanes::{enter, lane_of, put_back, save};
use crate::messages::{kind_of, promise_of, push_message, term_of};
use crate::notes::{note_of, push_line};
use crate::parts::{Fate, Mark, Message, Picture, Remark, Repeat, Row, Sign, State, Text};
use crate::view::View;
use std::alloc::Global;
use trace_lines::{LineError, TraceLine, read_line};
use values::{Event, Memory, ReplicaId};

/// Why a group refuses, without a call of a replica.
const GROUP_WORDS: [&'static str; 11] = [
    "nomessage",
    "lost",
    "notrunning",
    "alreadystarted",
    "nostate",
    "clientbusy",
    "size",
    "numbersout",
    "nothing",
    "noanswer",
    "notyours",
];

/// Takes the lines of a trace, and makes the picture of the events in its view.
#[derive(Debug, Drop)]
pub struct Reader {
    alloc: Global,
    picture: Picture,
    /// What the event does whose lines come, where it is not refused.
    effect: Effect,
    is_refused: bool,
    /// The last event of the view is over.
    is_over: bool,
}

impl Reader {
    /// No line was taken.
    pub(crate) fn new(alloc: Global, view: View) -> Reader {
        Reader {
            alloc,
            picture: Picture {
                view,
                lanes: Vec::new(alloc),
                rows: Vec::new(alloc),
                messages: Vec::new(alloc),
                repeats: Vec::new(alloc),
                events: 0,
                closing: Vec::new(alloc),
            },
            effect: Effect::Nothing,
            is_refused: false,
            is_over: false,
        }
    }

    /// Takes the next line, without its line feed. `Grammar` comes exactly where it has none of the forms of a trace, and does not say
    /// that a driver gave up.
    pub(crate) fn line(&mut self, line: &[u8]) -> Result<(), LineError>
        ensures { IsTold result (line.now ++ 10 ∷ []) }
    {
        if is_gaveup(line) {
            return answered(self.gave_up(line));
        }
        match read_line(self.alloc, line) {
            Ok(said) => answered(self.take(&said, line)),
            Err(error) => Err(error),
        }
    }

    /// The picture, where no line follows.
    pub(crate) fn finish(self) -> Result<Picture, Memory> {
        let mut reader = self;
        if !reader.is_over {
            reader.end_event()?;
        }
        let Reader { picture, .. } = reader;
        Ok(picture)
    }

    fn take(&mut self, said: &TraceLine, line: &[u8]) -> Result<(), Memory> {
        if let TraceLine::Event { number, .. } = said {
            self.picture.events = *number;
        }
        if self.is_over {
            return Ok(());
        }
        let fields = cut(self.alloc, line)?;
        let fields = fields.as_slice();
        match said {
            TraceLine::Event { number, what } => self.event(*number, what, fields, line),
            TraceLine::Commit {
                replica,
                index,
                entry,
            } => self.commit(*replica, *index, entry.term, line),
            TraceLine::Refused => self.refused(fields, line),
            TraceLine::Outcome { .. } => self.answer(fields, line),
            TraceLine::Members { .. } => self.members(fields, line),
            TraceLine::Other => self.other(fields, line),
            TraceLine::LogEnd(_) | TraceLine::Rollbacks(_) | TraceLine::End | TraceLine::Stopped =>
                self.close(fields),
        }
    }

    /// An event begins: the one before is over.
    fn event(
        &mut self,
        number: u64,
        what: &Event,
        fields: &[&[u8]],
        line: &[u8],
    ) -> Result<(), Memory> {
        self.end_event()?;
        if number > self.picture.view.to {
            self.is_over = true;
            return Ok(());
        }
        self.effect = effect_of(what, self.picture.messages.as_slice());
        self.is_refused = false;
        if number >= self.picture.view.from {
            self.push_row(number, what, fields, line)?;
        }
        if let Event::Begin { voters, .. } = what {
            for voter in voters.as_slice() {
                self.enter(*voter, State::Follows)?;
            }
        }
        Ok(())
    }

    fn push_row(
        &mut self,
        number: u64,
        what: &Event,
        fields: &[&[u8]],
        line: &[u8],
    ) -> Result<(), Memory> {
        let (mut text, mut detail) = (Vec::new(self.alloc), Vec::new(self.alloc));
        if let [_, _, record @ ..] = fields {
            push_fields(&mut text, record, client_place(what))?;
        }
        let mut lane = None;
        if let Some(replica) = actor_of(what) {
            lane = Some(lane_of(self.alloc, &mut self.picture.lanes, replica)?);
        }
        if let Effect::Deliver(place) = self.effect {
            lane = self.tell_message(&mut detail, place)?;
        }
        self.picture.rows.push(Row {
            event: number,
            lane,
            text,
            detail,
            note: note_of(self.alloc, line)?,
            is_timer: matches!(what, Event::Tick { .. }),
            is_refused: false,
            marks: Vec::new(self.alloc),
            remarks: Vec::new(self.alloc),
        })?;
        Ok(())
    }

    /// Appends what the message at this place says and between whom, and answers its addressee's lane.
    fn tell_message(&self, text: &mut Text, place: usize) -> Result<Option<usize>, Memory> {
        let Some(message) = self.picture.messages.as_slice().get(place) else {
            return Ok(None);
        };
        text.extend_from_slice(message.text.as_slice())?;
        Ok(Some(message.to))
    }

    /// The row of the event whose lines come.
    fn row(&self) -> Option<usize> {
        self.picture.rows.len().checked_sub(1)
    }

    /// From this event on the replica does this.
    fn enter(&mut self, replica: ReplicaId, state: State) -> Result<(), Memory> {
        let lane = lane_of(self.alloc, &mut self.picture.lanes, replica)?;
        self.enter_lane(lane, state)
    }

    fn enter_lane(&mut self, lane: usize, state: State) -> Result<(), Memory> {
        let row = self.row().unwrap_or(0);
        enter(&mut self.picture.lanes, lane, state, row)?;
        Ok(())
    }

    /// Marks a sign beside a lane.
    fn mark(&mut self, lane: usize, sign: Sign, line: &[u8]) -> Result<(), Memory> {
        let note = note_of(self.alloc, line)?;
        let text = Vec::new(self.alloc);
        if let Some(row) = self.picture.rows.last_mut() {
            row.marks.push(Mark {
                lane,
                sign,
                text,
                note,
            })?;
        }
        Ok(())
    }

    /// The lane's term is at least this: a leader of a lower one leads no more.
    fn raise_term(&mut self, place: usize, term: u64, line: &[u8]) -> Result<(), Memory> {
        let Some(lane) = self.picture.lanes.get_mut(place) else {
            return Ok(());
        };
        if term <= lane.term {
            return Ok(());
        }
        lane.term = term;
        if lane.state == State::Leads {
            self.enter_lane(place, State::Follows)?;
        }
        self.mark(place, Sign::Term(term), line)
    }

    fn raise_promise(&mut self, place: usize, promise: u64, line: &[u8]) -> Result<(), Memory> {
        let Some(lane) = self.picture.lanes.get_mut(place) else {
            return Ok(());
        };
        if promise <= lane.promise {
            return Ok(());
        }
        lane.promise = promise;
        self.mark(place, Sign::Promise(promise), line)
    }

    /// `refused,WHY`. A delivery that the replica refuses has come all the same.
    fn refused(&mut self, fields: &[&[u8]], line: &[u8]) -> Result<(), Memory> {
        let [_, why @ ..] = fields else {
            return Ok(());
        };
        let [word, ..] = why else {
            return Ok(());
        };
        let (is_groups, is_delivery) = (is_groups(word), matches!(self.effect, Effect::Deliver(_)));
        self.is_refused = is_groups || !is_delivery;
        if let Some(row) = self.picture.rows.last_mut() {
            row.is_refused = true;
            if is_groups {
                row.lane = None;
            }
            row.detail.clear();
            row.detail.extend_from_slice(b"refused, ")?;
            push_fields(&mut row.detail, why, None)?;
            push_line(&mut row.note, line)?;
        }
        Ok(())
    }

    fn commit(
        &mut self,
        replica: ReplicaId,
        index: u64,
        term: u64,
        line: &[u8],
    ) -> Result<(), Memory> {
        let lane = lane_of(self.alloc, &mut self.picture.lanes, replica)?;
        if let Some(row) = self.picture.rows.last_mut()
            && let Some(mark) = row.marks.last_mut()
            && extend(mark, lane, index, term)
        {
            push_line(&mut mark.note, line)?;
            return Ok(());
        }
        self.mark(
            lane,
            Sign::Commit {
                first: index,
                last: index,
                term,
            },
            line,
        )
    }

    /// `members,R,INDEX,M,R,..`
    fn members(&mut self, fields: &[&[u8]], line: &[u8]) -> Result<(), Memory> {
        let [_, replica, rest @ ..] = fields else {
            return Ok(());
        };
        let lane = self.lane(replica)?;
        self.mark(lane, Sign::Members, line)?;
        if let Some(row) = self.picture.rows.last_mut()
            && let Some(mark) = row.marks.last_mut()
        {
            push_fields(&mut mark.text, rest, None)?;
        }
        Ok(())
    }

    /// The lane of the replica that a field names.
    fn lane(&mut self, field: &[u8]) -> Result<usize, Memory> {
        let replica = number(field).min(u64::from(u32::MAX)) as u32;
        lane_of(self.alloc, &mut self.picture.lanes, replica)
    }

    /// A line whose first word alone says what it tells.
    fn other(&mut self, fields: &[&[u8]], line: &[u8]) -> Result<(), Memory> {
        let [word, first, ..] = fields else {
            return Ok(());
        };
        if is_word(word, "sent") {
            return self.sent(fields, line);
        }
        if is_word(word, "answer") {
            return self.answer(fields, line);
        }
        if is_word(word, "client") {
            return self.report(fields, line);
        }
        let lane = self.lane(first)?;
        self.told(lane, fields, line)
    }

    /// `lead`, `halt`, `taken` or `saved` of a lane.
    fn told(&mut self, lane: usize, fields: &[&[u8]], line: &[u8]) -> Result<(), Memory> {
        let [word, _, what, ..] = fields else {
            return Ok(());
        };
        let what = number(what);
        if is_word(word, "lead") {
            return self.lead(lane, what, line);
        }
        if is_word(word, "halt") {
            self.enter_lane(lane, State::Halted)?;
            return self.mark(lane, Sign::Halt(what), line);
        }
        if is_word(word, "saved") {
            save(&mut self.picture.lanes, lane, what)?;
            return self.mark(lane, Sign::Saved(what), line);
        }
        self.mark(lane, Sign::Taken(what), line)
    }

    fn lead(&mut self, place: usize, term: u64, line: &[u8]) -> Result<(), Memory> {
        if let Some(lane) = self.picture.lanes.get_mut(place) {
            lane.term = lane.term.max(term);
        }
        self.enter_lane(place, State::Leads)?;
        self.mark(place, Sign::Lead(term), line)
    }

    /// `sent,K,R,TO,MESSAGE`
    fn sent(&mut self, fields: &[&[u8]], line: &[u8]) -> Result<(), Memory> {
        let [_, id, sender, addressee, message @ ..] = fields else {
            return Ok(());
        };
        let from = self.lane(sender)?;
        let to = self.lane(addressee)?;
        let term = term_of(message);
        self.raise_term(from, term, line)?;
        self.raise_promise(from, promise_of(message), line)?;
        let mut text = Vec::from_slice(self.alloc, sender)?;
        text.extend_from_slice(b" to ")?;
        text.extend_from_slice(addressee)?;
        text.extend_from_slice(b", ")?;
        push_message(&mut text, message)?;
        let sent = self.row();
        let note = note_of(self.alloc, line)?;
        self.picture.messages.push(Message {
            number: number(id),
            from,
            to,
            kind: kind_of(message),
            term,
            sent,
            fate: Fate::Waiting,
            text,
            note,
        })?;
        Ok(())
    }

    /// `answer,A,R,C,N,ANSWER`
    fn answer(&mut self, fields: &[&[u8]], line: &[u8]) -> Result<(), Memory> {
        let [_, id, replica, client, asked, what @ ..] = fields else {
            return Ok(());
        };
        let mut text = Vec::from_slice(self.alloc, b"answer ")?;
        push_fields(&mut text, &[*id], None)?;
        text.extend_from_slice(b" of ")?;
        push_fields(&mut text, &[*replica], None)?;
        text.extend_from_slice(b" to ")?;
        push_client(&mut text, client)?;
        text.extend_from_slice(b" no. ")?;
        push_fields(&mut text, &[*asked], None)?;
        text.extend_from_slice(b": ")?;
        push_fields(&mut text, what, None)?;
        self.remark(false, text, line)
    }

    /// `client,C,REPORT`
    fn report(&mut self, fields: &[&[u8]], line: &[u8]) -> Result<(), Memory> {
        let [_, client, what @ ..] = fields else {
            return Ok(());
        };
        let mut text = Vec::new(self.alloc);
        push_client(&mut text, client)?;
        text.extend_from_slice(b" reports: ")?;
        push_fields(&mut text, what, None)?;
        self.remark(true, text, line)
    }

    /// `gaveup,C,16`
    fn gave_up(&mut self, line: &[u8]) -> Result<(), Memory> {
        if self.is_over {
            return Ok(());
        }
        let fields = cut(self.alloc, line)?;
        let [_, client, turns, ..] = fields.as_slice() else {
            return Ok(());
        };
        let mut text = Vec::new(self.alloc);
        push_client(&mut text, client)?;
        text.extend_from_slice(b": the driver gave up after ")?;
        push_fields(&mut text, &[*turns], None)?;
        text.extend_from_slice(b" turns")?;
        self.remark(true, text, line)
    }

    fn remark(&mut self, is_report: bool, text: Text, line: &[u8]) -> Result<(), Memory> {
        let note = note_of(self.alloc, line)?;
        if let Some(row) = self.picture.rows.last_mut() {
            row.remarks.push(Remark {
                is_report,
                text,
                note,
            })?;
        }
        Ok(())
    }

    /// A closing line.
    fn close(&mut self, fields: &[&[u8]]) -> Result<(), Memory> {
        if !self.picture.closing.is_empty() {
            self.picture.closing.extend_from_slice(b", ")?;
        }
        push_fields(&mut self.picture.closing, fields, None)?;
        Ok(())
    }

    /// What the event that is over did, where it was not refused.
    fn end_event(&mut self) -> Result<(), Memory> {
        let effect = self.effect;
        self.effect = Effect::Nothing;
        match effect {
            Effect::Deliver(place) if !self.is_refused => self.deliver(place),
            _ if self.is_refused => Ok(()),
            Effect::Nothing | Effect::Deliver(_) => Ok(()),
            Effect::Start(replica) => self.start(replica),
            Effect::Lose(place) => self.lose(place),
            Effect::Crash(replica) => self.crash(replica),
            Effect::Roll(replica, state) => self.roll(replica, state),
        }
    }

    fn start(&mut self, replica: ReplicaId) -> Result<(), Memory> {
        let lane = lane_of(self.alloc, &mut self.picture.lanes, replica)?;
        self.enter_lane(lane, State::Follows)?;
        self.mark(lane, Sign::Start, b"")
    }

    fn crash(&mut self, replica: ReplicaId) -> Result<(), Memory> {
        let lane = lane_of(self.alloc, &mut self.picture.lanes, replica)?;
        self.enter_lane(lane, State::Absent)?;
        self.mark(lane, Sign::Crash, b"")
    }

    fn roll(&mut self, replica: ReplicaId, state: u32) -> Result<(), Memory> {
        let place = lane_of(self.alloc, &mut self.picture.lanes, replica)?;
        let number = u64::from(state);
        let state = put_back(&mut self.picture.lanes, place, number);
        self.enter_lane(place, State::Absent)?;
        self.enter_lane(place, state)?;
        self.mark(place, Sign::Rolled(number), b"")
    }

    fn lose(&mut self, place: usize) -> Result<(), Memory> {
        let row = self.row();
        if let Some(message) = self.picture.messages.get_mut(place)
            && message.fate == Fate::Waiting
        {
            message.fate = match row {
                Some(row) => Fate::Lost { row },
                None => Fate::Before,
            };
        }
        Ok(())
    }

    fn deliver(&mut self, place: usize) -> Result<(), Memory> {
        let row = self.row();
        let Some(message) = self.picture.messages.get_mut(place) else {
            return Ok(());
        };
        let (to, term, is_first) = (message.to, message.term, message.fate == Fate::Waiting);
        match row {
            Some(row) if is_first => message.fate = Fate::Delivered { row },
            None => message.fate = Fate::Before,
            Some(row) => {
                self.picture.repeats.push(Repeat {
                    message: place,
                    row,
                })?;
                self.mark(to, Sign::Again, b"")?;
            }
        }
        self.raise_term(to, term, b"")
    }
}

/// What is answered to a line that was taken, or for which memory ran out.
fn answered(taken: Result<(), Memory>) -> Result<(), LineError>
    ensures { IfErr result (λ error. error ≡ LineError.Memory) }
{
    match taken {
        Ok(()) => Ok(()),
        Err(Memory) => Err(LineError::Memory),
    }
}

/// Whether the mark tells the commit of the index before on this lane, in the same term: then it tells this one too.
fn extend(mark: &mut Mark, lane: usize, index: u64, term: u64) -> bool {
    match mark.sign {
        Sign::Commit {
            first,
            last,
            term: same,
        } if mark.lane == lane && same == term && last.checked_add(1) == Some(index) => {
            mark.sign = Sign::Commit {
                first,
                last: index,
                term,
            };
            true
        }
        _ => false,
    }
}

/// Whether a refusal is the group's: then no replica was called.
fn is_groups(word: &[u8]) -> bool {
    for known in GROUP_WORDS.iter() {
        if is_word(word, known) {
            return true;
        }
    }
    false
}
