//! Hover texts: the line itself, or its first bytes and how many it has.

use crate::fields::front;
use crate::parts::Text;
use schedule_text::push_number;
use std::alloc::{AllocError, Global};

/// The most bytes of a line in a hover text.
const MOST: usize = 400;

/// Appends a line to a hover text.
pub(crate) fn push_line(note: &mut Text, line: &[u8]) -> Result<(), AllocError> {
    if !note.is_empty() {
        note.push(b'\n')?;
    }
    note.extend_from_slice(front(line, MOST))?;
    if line.len() <= MOST {
        return Ok(());
    }
    note.extend_from_slice(b".. (")?;
    push_number(note, line.len() as u64)?;
    note.extend_from_slice(b" bytes)")
}

/// The hover text of a line.
pub(crate) fn note_of(alloc: Global, line: &[u8]) -> Result<Text, AllocError> {
    let mut note = Vec::new(alloc);
    push_line(&mut note, line)?;
    Ok(note)
}
