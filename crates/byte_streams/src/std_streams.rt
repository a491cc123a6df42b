//! A source over any reader and a sink over any writer.
ghost use Rattle.std.specs.Prelude.{◌≡◌};
ghost use Rattle.std.specs.Io.{ReadsAtMost, WritesAtMost};
ghost use Rattle.std.specs.Io.KnownBytes.{ReadConsumes, WriteAppends};
ghost use Rattle.byte_streams.specs.Causes.{HasCause, CountsErrors};
ghost use Rattle.byte_streams.specs.Streams.{MovesSome};
ghost use Rattle.byte_streams.specs.StdStreams.{inner_reader, read_faults, inner_writer, write_faults};

use crate::streams::{Failed, Sink, Source};
use std::io::{Read, Write};

/// A reader as a source. It tells what the reader tells, and counts each error of a read as a fault.
#[derive(Debug, Drop)]
pub struct StdSource<R> {
    inner: R,
    faults: u64,
}

impl<R: Read> StdSource<R> {
    /// No fault has come yet.
    pub fn new(inner: R) -> StdSource<R>
        ensures inner { inner_reader result ≡ inner }
        ensures faults { read_faults result ≡ 0 }
    {
        StdSource { inner, faults: 0 }
    }
}

impl<R: Read> Source for StdSource<R> {
    ghost left = { λ s. R.remaining (inner_reader s) };

    ghost faults = { λ s. read_faults s };

    fn read(&mut self, buf: &mut [u8]) -> Result<usize, Failed>
        ensures bound { ReadsAtMost result buf.new }
        ensures bytes { ReadConsumes (R.remaining (inner_reader self.old))
            (R.remaining (inner_reader self.new)) result buf.new }
        ensures cause { HasCause (read_faults self.old) (read_faults self.new) result }
        ensures counted { CountsErrors (read_faults self.old) (read_faults self.new) result }
    {
        if let Ok(count) = self.inner.read(buf) {
            return Ok(count);
        }
        self.faults = self.faults.saturating_add(1);
        Err(Failed)
    }
}

/// A writer as a sink. It tells what the writer tells, and counts as a fault each error of a write, and
/// each write that takes nothing of a piece that has bytes.
#[derive(Debug, Drop)]
pub struct StdSink<W> {
    inner: W,
    faults: u64,
}

impl<W: Write> StdSink<W> {
    /// No fault has come yet.
    pub fn new(inner: W) -> StdSink<W>
        ensures inner { inner_writer result ≡ inner }
        ensures faults { write_faults result ≡ 0 }
    {
        StdSink { inner, faults: 0 }
    }
}

impl<W: Write> Sink for StdSink<W> {
    ghost taken = { λ s. W.contents (inner_writer s) };

    ghost faults = { λ s. write_faults s };

    fn write(&mut self, piece: &[u8]) -> Result<usize, Failed>
        ensures bound { WritesAtMost result piece.now }
        ensures some { MovesSome result piece.now }
        ensures bytes { WriteAppends (W.contents (inner_writer self.old))
            (W.contents (inner_writer self.new)) result piece.now }
        ensures cause { HasCause (write_faults self.old) (write_faults self.new) result }
        ensures counted { CountsErrors (write_faults self.old) (write_faults self.new) result }
    {
        if let Ok(count) = self.inner.write(piece)
            && (count > 0 || piece.is_empty())
        {
            return Ok(count);
        }
        self.faults = self.faults.saturating_add(1);
        Err(Failed)
    }
}
