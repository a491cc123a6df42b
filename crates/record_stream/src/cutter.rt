//! Bytes are walked once, and each line is cut at its commas on the way.
ghost use Rattle.std.specs.Prelude.{◌≡◌, ◌+◌, ◌≤◌, length, IfOk, IfSome};
ghost use Rattle.memchr.specs.Find.{NoneBefore, Nowhere, Passes};
ghost use Rattle.std.specs.Option.{MatchOption};
ghost use Rattle.record_cutting.specs.Lines.{record_of};
ghost use Rattle.record_stream.specs.Plain.{is_marked, is_plain_byte};
ghost use Rattle.record_stream.specs.Walk.{IsWalk};
ghost use Rattle.record_stream.specs.Cut.{Cuts};

use crate::marks::{WIDTH, marks};
use std::alloc::AllocError;

/// How the cutting of a line ended.
#[derive(Clone, Copy)]
pub enum Cut {
    /// The line feed that stands here ends the line, and its fields were cut.
    Whole(usize),
    /// The bytes end before a line feed, and what they have of the line was cut into fields.
    Partial,
    /// A byte of the line means more to a reader than itself, a comma or a line feed.
    Marked,
}

/// A walk over bytes, with the place that it has come to. Of the bytes from `base` on, the bits of those that are
/// still to be looked at are in `marks`.
#[derive(Drop)]
pub struct Cutter<'p> {
    pub piece: &'p [u8],
    pub from: usize,
    base: usize,
    marks: u64,
    ghost walked: { IsWalk piece.now from base marks },
}

/// Whether a byte means nothing but itself or a comma. It stands apart, since most bytes that may mean something are
/// commas and line feeds.
#[cold]
#[inline(never)]
fn is_plain(byte: u8) -> bool
    ensures { result ≡ is_plain_byte byte }
{
    !matches!(byte, b'\n' | b'\r' | b'"' | 0xEF)
}

impl<'p> Cutter<'p> {
    /// A walk from a place on.
    pub fn new(piece: &'p [u8], from: usize) -> Cutter<'p>
        requires { from ≤ length piece.now }
        ensures piece { result.piece.now ≡ piece.now }
        ensures from { result.from ≡ from }
    {
        Cutter {
            piece,
            from,
            base: from,
            marks: marks(&piece[from..]),
        }
    }

    /// The next byte that may mean something. The walk goes on after it.
    #[inline(always)]
    fn next_mark(&mut self) -> Option<usize>
        ensures place { MatchOption result (Nowhere (Passes is_marked self.old.piece.now) self.old.from (length self.old.piece.now))
            (λ at. NoneBefore (Passes is_marked self.old.piece.now) self.old.from (length self.old.piece.now) at) }
        ensures same { self.new.piece ≡ self.old.piece }
        ensures past { IfSome result (λ at. self.new.from ≡ at + 1) }
    {
        while self.marks == 0 {
            if self.piece.len() - self.base <= WIDTH {
                return None;
            }
            self.base += WIDTH;
            self.marks = marks(&self.piece[self.base..]);
        }
        let k = self.marks.trailing_zeros() as usize;
        let at = self.base + k;
        self.marks &= !(1 << k);
        self.from = at + 1;
        Some(at)
    }

    /// Cuts the rest of a line at its commas. The walk goes on after its line feed.
    #[inline(always)]
    pub fn cut_line(&mut self, fields: &mut Vec<&'p [u8]>) -> Result<Cut, AllocError>
        ensures cuts { IfOk result (λ cut. Cuts self.old.piece.now self.old.from self.new.from (record_of fields.new.items) cut) }
        ensures same { self.new.piece ≡ self.old.piece }
    {
        fields.clear();
        let piece = self.piece;
        let mut start = self.from;
        while let Some(at) = self.next_mark() {
            match piece[at] {
                b',' => {
                    fields.push(&piece[start..at])?;
                    start = at + 1;
                }
                b'\n' => {
                    fields.push(&piece[start..at])?;
                    return Ok(Cut::Whole(at));
                }
                byte if !is_plain(byte) => return Ok(Cut::Marked),
                _ => {}
            }
        }
        fields.push(&piece[start..])?;
        Ok(Cut::Partial)
    }
}
