//! The messages of a trace.

use crate::fields::{is_word, number};
use crate::parts::{Fate, Kind, Message, Text};
use std::alloc::AllocError;

/// The kind of a message, by its fields.
pub(crate) fn kind_of(message: &[&[u8]]) -> Kind {
    let [word, rest @ ..] = message else {
        return Kind::Heartbeat;
    };
    match rest {
        [_, granted] if is_word(word, "vote") => {
            if is_word(granted, "1") {
                Kind::Granted
            } else {
                Kind::Denied
            }
        }
        [_, _, entries, ..] if is_word(word, "append") => {
            if is_word(entries, "0") {
                Kind::Heartbeat
            } else {
                Kind::Append
            }
        }
        _ => kind_by_word(word),
    }
}

fn kind_by_word(word: &[u8]) -> Kind {
    if is_word(word, "askvote") {
        Kind::AskVote
    } else if is_word(word, "accepted") {
        Kind::Accepted
    } else if is_word(word, "rejected") {
        Kind::Rejected
    } else if is_word(word, "part") {
        Kind::Part
    } else {
        Kind::PartTaken
    }
}

/// What stands for the bit of a vote.
const GRANTED: &'static str = " granted";

const DENIED: &'static str = " denied";

/// What stands before each number of a message, and in place of a vote's bit.
fn captions(kind: Kind) -> [&'static str; 5] {
    match kind {
        Kind::AskVote => [" t", " last ", "/t", "", ""],
        Kind::Granted => [" t", GRANTED, "", "", ""],
        Kind::Denied => [" t", DENIED, "", "", ""],
        Kind::Append | Kind::Heartbeat => [" t", " after ", " +", " p", " c"],
        Kind::Accepted => [" t", " to ", " p", "", ""],
        Kind::Rejected => [" t", " asked ", " hint ", "", ""],
        Kind::Part => [" t", " at ", " part ", "/", " rows "],
        Kind::PartTaken => [" t", " at ", " next ", "", ""],
    }
}

/// Appends what a message says, by its fields.
pub(crate) fn push_message(text: &mut Text, message: &[&[u8]]) -> Result<(), AllocError> {
    let [word, rest @ ..] = message else {
        return Ok(());
    };
    text.extend_from_slice(word)?;
    let kind = kind_of(message);
    for (caption, field) in captions(kind).iter().zip(rest.iter()) {
        text.extend_from_slice(caption.as_bytes())?;
        if *caption != GRANTED && *caption != DENIED {
            text.extend_from_slice(field)?;
        }
    }
    Ok(())
}

/// The term of a message.
pub(crate) fn term_of(message: &[&[u8]]) -> u64 {
    match message {
        [_, term, ..] => number(term),
        _ => 0,
    }
}

/// The promise that a message tells of its sender.
pub(crate) fn promise_of(message: &[&[u8]]) -> u64 {
    match message {
        [word, _, _, _, promise, ..] if is_word(word, "append") => number(promise),
        [word, _, _, promise] if is_word(word, "accepted") => number(promise),
        _ => 0,
    }
}

/// Where the message of this number stands. Messages are numbered from 1 in the order in which they were sent.
pub(crate) fn place_of(messages: &[Message], number: u64) -> Option<usize> {
    let guess = number.saturating_sub(1) as usize;
    match messages.get(guess) {
        Some(message) if message.number == number => Some(guess),
        _ => messages.iter().position(|message| message.number == number),
    }
}

/// Whether any of a message falls into the rows of a picture.
pub(crate) fn is_drawn(message: &Message) -> bool {
    message.sent.is_some() || matches!(message.fate, Fate::Delivered { .. } | Fate::Lost { .. })
}
