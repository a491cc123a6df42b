//! The model of a picture: lanes, rows, messages and what is marked.

use crate::view::View;
use values::ReplicaId;

/// Text in the picture. It is written escaped.
pub type Text = Vec<u8>;

/// What a replica does.
#[derive(Clone, Copy, Debug, PartialEq, Eq)]
pub enum State {
    /// It has not started, or has crashed.
    Absent,
    Follows,
    /// It leads since that row.
    Leads,
    Halted,
}

/// A stretch of a lane, from one row to another, in which the replica does the same.
#[derive(Clone, Copy, Debug, PartialEq, Eq)]
pub struct Span {
    pub state: State,
    pub from: usize,
    pub to: usize,
}

/// The lane of a replica.
#[derive(Debug, Drop)]
pub struct Lane {
    pub replica: ReplicaId,
    /// What it does, and since which row.
    pub state: State,
    pub since: usize,
    /// The stretches before.
    pub spans: Vec<Span>,
    /// The highest term and the highest promise that its lines tell.
    pub term: u64,
    pub promise: u64,
    /// What it was when its state was saved.
    pub saved: Vec<Saved>,
}

/// What a replica was when its state was saved under a number.
#[derive(Clone, Copy, Debug, PartialEq, Eq)]
pub struct Saved {
    pub number: u64,
    pub state: State,
    pub term: u64,
    pub promise: u64,
}

/// What a message is, as far as its arrow shows it.
#[derive(Clone, Copy, Debug, PartialEq, Eq)]
pub enum Kind {
    AskVote,
    Granted,
    Denied,
    /// An append with entries.
    Append,
    /// An append without.
    Heartbeat,
    Accepted,
    Rejected,
    Part,
    PartTaken,
}

/// What became of a message.
#[derive(Clone, Copy, Debug, PartialEq, Eq)]
pub enum Fate {
    /// Neither delivered nor lost by the last row.
    Waiting,
    /// That happened before the first row.
    Before,
    Delivered { row: usize },
    Lost { row: usize },
}

/// A message, with the lanes of its sender and of its addressee.
#[derive(Debug, Drop)]
pub struct Message {
    pub number: u64,
    pub from: usize,
    pub to: usize,
    pub kind: Kind,
    pub term: u64,
    /// The row in which it was sent; none where that was before the first one.
    pub sent: Option<usize>,
    pub fate: Fate,
    /// What it says.
    pub text: Text,
    pub note: Text,
}

/// A message that was delivered before is delivered again.
#[derive(Clone, Copy, Debug, PartialEq, Eq)]
pub struct Repeat {
    pub message: usize,
    pub row: usize,
}

/// What is marked beside a lane.
#[derive(Clone, Copy, Debug, PartialEq, Eq)]
pub enum Sign {
    Lead(u64),
    Term(u64),
    Promise(u64),
    /// The entries of a term from one index to another.
    Commit { first: u64, last: u64, term: u64 },
    Members,
    Halt(u64),
    Taken(u64),
    Saved(u64),
    Rolled(u64),
    Crash,
    Start,
    Again,
}

/// A mark beside a lane.
#[derive(Debug, Drop)]
pub struct Mark {
    pub lane: usize,
    pub sign: Sign,
    /// What stands behind the sign's own text.
    pub text: Text,
    pub note: Text,
}

/// A text at the side: what a client was answered, or what it reports.
#[derive(Debug, Drop)]
pub struct Remark {
    pub is_report: bool,
    pub text: Text,
    pub note: Text,
}

/// An event.
#[derive(Debug, Drop)]
pub struct Row {
    pub event: u64,
    /// The replica that acts.
    pub lane: Option<usize>,
    /// The record, and the message that it delivers or why it is refused.
    pub text: Text,
    pub detail: Text,
    pub note: Text,
    pub is_timer: bool,
    pub is_refused: bool,
    pub marks: Vec<Mark>,
    pub remarks: Vec<Remark>,
}

/// A picture.
#[derive(Debug, Drop)]
pub struct Picture {
    pub view: View,
    pub lanes: Vec<Lane>,
    pub rows: Vec<Row>,
    pub messages: Vec<Message>,
    pub repeats: Vec<Repeat>,
    /// The number of the trace's last event.
    pub events: u64,
    /// The closing lines, where the last event is drawn.
    pub closing: Text,
}
