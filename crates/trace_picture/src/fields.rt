//! The fields of a line, and texts made of them.

use schedule_text::number_of;
use std::alloc::{AllocError, Global};

/// The most bytes of a field in a text.
const LONG: usize = 12;

/// The fields of a line.
pub(crate) fn cut<'a>(alloc: Global, line: &'a [u8]) -> Result<Vec<&'a [u8]>, AllocError> {
    line.split(|byte| *byte == b',').collect(alloc)
}

/// The number of a field, or 0.
pub(crate) fn number(field: &[u8]) -> u64 {
    number_of(field, 0, 0, u64::MAX).unwrap_or(0)
}

/// Whether a field is this word.
pub(crate) fn is_word(field: &[u8], word: &str) -> bool {
    field == word.as_bytes()
}

/// The first bytes of a text, at most so many.
pub(crate) fn front(text: &[u8], most: usize) -> &[u8] {
    &text[..text.len().min(most)]
}

/// Appends a field, or its first bytes and two dots.
pub(crate) fn push_short(text: &mut Vec<u8>, field: &[u8]) -> Result<(), AllocError> {
    text.extend_from_slice(front(field, LONG))?;
    if field.len() > LONG {
        text.extend_from_slice(b"..")?;
    }
    Ok(())
}

/// Appends the name of a client: its digits without the zeros before them.
pub(crate) fn push_client(text: &mut Vec<u8>, digits: &[u8]) -> Result<(), AllocError> {
    text.extend_from_slice(b"client ")?;
    match digits.iter().position(|digit| *digit != b'0') {
        Some(first) => push_short(text, &digits[first..]),
        None => text.extend_from_slice(b"0"),
    }
}

/// Appends fields with a space between them, of which the one at `client` is a client.
pub(crate) fn push_fields(
    text: &mut Vec<u8>,
    fields: &[&[u8]],
    client: Option<usize>,
) -> Result<(), AllocError> {
    for (place, field) in fields.iter().enumerate() {
        if place > 0 {
            text.push(b' ')?;
        }
        if client == Some(place) {
            push_client(text, field)?;
        } else {
            push_short(text, field)?;
        }
    }
    Ok(())
}
