//! Where lines end.
ghost use Rattle.std.specs.Prelude.{◌≤◌, length};
ghost use Rattle.memchr.specs.Find.{IsFirst, Passes, is_byte};
ghost use Rattle.record_stream.specs.Plain.{IsEndedLine};

use memchr::memchr;

/// The place of the first line feed from a place on.
pub fn feed_from(piece: &[u8], start: usize) -> Option<usize>
    requires { start ≤ length piece.now }
    ensures { IsFirst (Passes (is_byte 10) piece.now) start (length piece.now) result }
{
    Some(start + memchr(b'\n', &piece[start..])?)
}

/// A line without the line feed, or the carriage return and the line feed, that ends it.
pub fn body_of(line: &[u8]) -> &[u8]
    ensures { IsEndedLine line.now result.now }
{
    match line {
        [body @ .., b'\r', b'\n'] => body,
        [body @ .., b'\n'] => body,
        _ => line,
    }
}
