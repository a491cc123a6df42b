//! The marks beside a lane, as texts.

use crate::parts::{Mark, Sign, Text};
use schedule_text::push_number;
use std::alloc::{AllocError, Global};

/// The class of a sign.
pub(crate) fn class_of(sign: Sign) -> &'static str {
    match sign {
        Sign::Lead(_) => "lead",
        Sign::Term(_) => "term",
        Sign::Promise(_) => "promise",
        Sign::Commit { .. } => "commit",
        Sign::Members => "members",
        Sign::Halt(_) => "halt",
        Sign::Taken(_) => "taken",
        Sign::Saved(_) => "saved",
        Sign::Rolled(_) => "rolled",
        Sign::Crash => "crash",
        Sign::Start => "start",
        Sign::Again => "again",
    }
}

/// The symbol that stands to the left of the lane.
pub(crate) fn symbol_of(sign: Sign) -> Option<&'static str> {
    match sign {
        Sign::Halt(_) => Some("s-halt"),
        Sign::Saved(_) => Some("s-save"),
        Sign::Rolled(_) => Some("s-roll"),
        Sign::Crash => Some("s-crash"),
        _ => None,
    }
}

/// The text of a mark.
pub(crate) fn text_of(alloc: Global, mark: &Mark) -> Result<Text, AllocError> {
    let (word, number) = word_of(mark.sign);
    let mut text = Vec::from_slice(alloc, word.as_bytes())?;
    if let Some(number) = number {
        push_number(&mut text, number)?;
    }
    if let Sign::Commit { first, last, term } = mark.sign {
        if first < last {
            text.extend_from_slice(b"-")?;
            push_number(&mut text, last)?;
        }
        text.extend_from_slice(b"/t")?;
        push_number(&mut text, term)?;
    }
    text.extend_from_slice(mark.text.as_slice())?;
    Ok(text)
}

/// The word of a sign, and its number.
fn word_of(sign: Sign) -> (&'static str, Option<u64>) {
    match sign {
        Sign::Lead(term) => ("leads t", Some(term)),
        Sign::Term(term) => ("t", Some(term)),
        Sign::Promise(index) => ("p", Some(index)),
        Sign::Commit { first, .. } => ("c", Some(first)),
        Sign::Members => ("members ", None),
        Sign::Halt(index) => ("halt ", Some(index)),
        Sign::Taken(index) => ("table ", Some(index)),
        Sign::Saved(state) => ("save ", Some(state)),
        Sign::Rolled(state) => ("roll ", Some(state)),
        Sign::Crash => ("crash", None),
        Sign::Start => ("start", None),
        Sign::Again => ("again", None),
    }
}
